//! The elements that content models name.

ghost use Rattle.std.specs.Prelude.{◌≡◌, ◌<◌, ◌||◌, ℕ, false, length, slice_index_or, IfOk, IfSome};
ghost use Rattle.component_references.specs.Ranked.{IsRanked};
ghost use Rattle.element_declarations.specs.Groups as spec;
ghost use Rattle.element_declarations.specs.inside.Steps.{AreMarked};
ghost use Rattle.element_declarations.specs.inside.Nearest.{AreNearest, nearest_by, nearest_of, known};

use component_references::{Rule, fill, order_of};
use std::alloc::{AllocError, Global};
use xs_components::{Components, ElementId, Term};

// Marks the element that a term is.
fn mark_element(marks: &mut Vec<bool>, term: &Term)
    ensures each { length marks.new.items ≡ length marks.old.items }
    ensures marked { (n : ℕ) → n < length marks.old.items → slice_index_or marks.new.items n false ≡ (slice_index_or marks.old.items n false || spec.is_element term.now n) }
{
    if let Term::Element(element) = term {
        let place = element.number() as usize;
        if place < marks.len() {
            marks[place] = true;
        }
    }
}

// Marks each element that is the term of a particle.
fn named_marks(alloc: Global, parts: &Components) -> Result<Vec<bool>, AllocError>
    ensures { IfOk result (λ marks. AreMarked parts.now marks.items) }
{
    let mut marks = Vec::from_elem(alloc, false, parts.elements().len())?;
    for particle in parts.particles() {
        mark_element(&mut marks, &particle.term);
    }
    Ok(marks)
}

// Whether an element is marked.
fn is_marked(marks: &[bool], element: ElementId) -> bool
    ensures { result ≡ slice_index_or marks.now element false }
{
    match marks.get(element.number() as usize) {
        Some(mark) => *mark,
        None => false,
    }
}

/// For each element the nearest of its heads that a content model names, each found once from those of lower rank.
pub(crate) fn nearest_heads(
    alloc: Global,
    parts: &Components,
) -> Result<Vec<Option<ElementId>>, AllocError>
    requires ranked { IsRanked parts.now }
    ensures { IfOk result (λ nearest. AreNearest parts.now nearest.items) }
{
    let marks = named_marks(alloc, parts)?;
    let order = order_of(alloc, parts.element_ranks())?;
    let mut nearest = Vec::from_elem(alloc, None, parts.elements().len())?;
    let rule = NearestRule {
        parts,
        marks: &marks,
    };
    fill(&rule, &order, nearest.as_mut_slice());
    Ok(nearest)
}

// How the nearest head of an element comes from those of lower rank.
#[derive(Clone, Copy)]
struct NearestRule<'a> {
    parts: &'a Components,
    marks: &'a [bool],
}

impl Rule<Option<ElementId>> for NearestRule<'_> {
    ghost is_valid = { λ r. IsRanked r.parts.now × AreMarked r.parts.now r.marks.now };

    ghost count = { λ r. length r.parts.now.elements.parts };

    ghost ranks = { λ r. r.parts.now.elements.ranks };

    ghost value_of = { λ r element. nearest_of r.parts.now element };

    fn value(&self, x: u32, table: &[Option<ElementId>]) -> Option<ElementId> {
        let part = &self.parts.elements()[x as usize];
        nearest_among(self.parts, self.marks, table, part.head)
    }
}

// The head, where it is marked, else the one that the table has for it.
fn nearest_among(
    parts: &Components,
    marks: &[bool],
    table: &[Option<ElementId>],
    head: Option<ElementId>,
) -> Option<ElementId>
    requires marks { AreMarked parts.now marks.now }
    requires there { IfSome head (λ h. h < length parts.now.elements.parts) }
    ensures { result ≡ nearest_by parts.now (known table.now) head }
{
    let Some(head) = head else {
        return None;
    };
    if is_marked(marks, head) {
        return Some(head);
    }
    nearest_at(table, head)
}

/// The nearest head of an element, by the table of all.
pub(crate) fn nearest_at(table: &[Option<ElementId>], element: ElementId) -> Option<ElementId>
    ensures { result ≡ known table.now element }
{
    match table.get(element.number() as usize) {
        Some(head) => *head,
        None => None,
    }
}
