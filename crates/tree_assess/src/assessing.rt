//! The assessment of a document, from its root downwards.

ghost use Rattle.std.specs.Prelude.{◌≡◌, ◌<◌, ◌∷◌, ◌++◌, [], All, length, IfOk, OnOk};
ghost use Rattle.xs_names.specs.Names.{IsSound};
ghost use Rattle.xs_names.specs.Scope.{first_scope};
ghost use Rattle.tree_rows.specs.Whole.{IsTree};
ghost use Rattle.elem_governing.specs.View.{AreKnown};
ghost use Rattle.compiled_schema.specs.Usable.{IsUsable, set_of};
ghost use Rattle.plain_tree.specs.Found.{HasNames};
ghost use Rattle.assess_records.specs.Numbered.{heads};
ghost use Rattle.tree_assess.specs.Entries.{ArePlain};
ghost use Rattle.tree_assess.specs.declared.entry.ElementEntry.{ElementEntry as ElementEntryData};
ghost use Rattle.tree_assess.specs.inside.Steps.{CanAssess, IsThere, AreDone, IsDone, alone, pairs_in};
ghost use Rattle.tree_assess.specs.inside.Entering.{IsFinished, shape_from};

use crate::ElementEntry;
use crate::elements::{Entered, enter, leave, root_of};
use crate::entry::{ChildOutcome, begun, outcome_of};
use assess_records::ChildCounts;
use compiled_schema::Compiled;
use elem_governing::Governing;
use plain_tree::Tree;
use std::alloc::{AllocError, Global};
use tree_rows::{Content, Expanded, Row, Sibling, Siblings};
use xs_names::Scope;

// Keeps a place for the entry of an element behind those that are there, since it stands before those below it.
fn keep_place(
    alloc: Global,
    number: u32,
    governing: &Governing,
    entered: &Entered,
    found: &mut Vec<ElementEntry>,
) -> Result<usize, AllocError>
    ensures place { IfOk result (λ place. place ≡ length found.old.items) }
    ensures kept { OnOk result ((blank : ElementEntryData) × (found.new.items ≡ found.old.items ++ blank ∷ [])) }
{
    let place = found.len();
    let blank = begun(alloc, number, *governing, entered.head.name);
    found.push(blank)?;
    Ok(place)
}

// Judges an element whose child elements are assessed. Its entry takes the place that was kept for it.
fn finish(
    alloc: Global,
    compiled: &mut Compiled,
    governing: &Governing,
    entered: Entered,
    counts: ChildCounts,
    found: &mut Vec<ElementEntry>,
    place: usize,
) -> Result<ChildOutcome, AllocError>
    requires usable { IsUsable compiled.old }
    requires there { IsThere compiled.old.parts governing.now }
    requires known { AreKnown compiled.old.names entered.head.scope }
    requires named { All (λ a. a.name < length compiled.old.names.names) entered.head.attrs }
    requires kept { place < length found.old.items }
    ensures finished { IfOk result (IsFinished (set_of compiled.old) governing.now entered.number entered.bearer (shape_from entered counts) place found.old.items found.new.items) }
    ensures same { compiled.new ≡ compiled.old }
{
    let mut entry = leave(alloc, compiled, governing, entered, counts)?;
    entry.below = found.len() - place - 1;
    let outcome = outcome_of(&entry.element);
    found[place] = entry;
    Ok(outcome)
}

// Assesses the children of an element with what is below them, and puts their entries behind those that are there. It answers
// how many child elements are of each kind.
#[cycle(assess)]
fn assess_children(
    alloc: Global,
    compiled: &mut Compiled,
    parent: &Entered,
    children: Siblings<'_>,
    found: &mut Vec<ElementEntry>,
) -> Result<ChildCounts, AllocError>
    requires can { CanAssess compiled.old parent.now.head.scope children }
    requires each { length (pairs_in parent.now.inner.begun.items) ≡ length (heads compiled.old.names parent.now.head.scope children) }
    requires there { All (IsThere compiled.old.parts) (pairs_in parent.now.inner.begun.items) }
    ensures done { IfOk result (AreDone (set_of compiled.old) parent.now.number parent.now.head.scope (pairs_in parent.now.inner.begun.items) children.entry found.old.items found.new.items) }
    ensures same { compiled.new ≡ compiled.old }
{
    let scope = parent.scope();
    let entries = parent.begun();
    let mut left = children;
    let mut place = 0;
    let mut counts = ChildCounts::new();
    'left: while let Some(
        Sibling {
            row,
            children,
            next,
        },
    ) = left.first()
    {
        if let Content::Element(name) = &row.content {
            let child = &entries[place];
            let governing = child.governing();
            let outcome = assess_element(
                alloc,
                compiled,
                parent.number,
                scope,
                governing,
                name,
                row,
                children,
                found,
            )?;
            counts.add(outcome.validity, outcome.attempted);
            place += 1;
        }
        left = next;
    }
    Ok(counts)
}

// Assesses an element with what is below it, and puts their entries behind those that are there, its own before those below.
#[cycle(assess)]
fn assess_element(
    alloc: Global,
    compiled: &mut Compiled,
    bearer: u32,
    outer: &Scope,
    governing: &Governing,
    name: &Expanded,
    row: &Row,
    children: Siblings<'_>,
    found: &mut Vec<ElementEntry>,
) -> Result<ChildOutcome, AllocError>
    requires can { CanAssess compiled.old outer.now (alone name.now row.now children) }
    requires there { IsThere compiled.old.parts governing.now }
    ensures done { IfOk result (IsDone (set_of compiled.old) bearer outer.now governing.now name.now row.now children.entry found.old.items found.new.items) }
    ensures same { compiled.new ≡ compiled.old }
{
    let entered = enter(
        alloc, compiled, bearer, outer, governing, name, row, &children,
    )?;
    let place = keep_place(alloc, row.number, governing, &entered, found)?;
    let counts = assess_children(alloc, compiled, &entered, children, found)?;
    finish(alloc, compiled, governing, entered, counts, found, place)
}

// Assesses a document by its root's name and row.
fn assess_root(
    alloc: Global,
    compiled: &mut Compiled,
    name: &Expanded,
    row: &Row,
    children: Siblings<'_>,
) -> Result<Vec<ElementEntry>, AllocError>
    requires can { CanAssess compiled.old first_scope (alone name.now row.now children) }
    ensures assessed { IfOk result (λ entries. ArePlain (set_of compiled.old) (alone name.now row.now children.entry) entries.items) }
    ensures same { compiled.new ≡ compiled.old }
{
    let root = root_of(alloc, compiled, name, row)?;
    let mut found = Vec::new(alloc);
    let outer = root.outer();
    let governing = root.governing();
    assess_element(
        alloc, compiled, row.number, outer, governing, name, row, children, &mut found,
    )?;
    Ok(found)
}

/// The assessment of a document by a schema set (Structures 5.2) without the codes of identity constraints and of IDs: the entries of
/// its elements in document order. The set is usable, and has the names of the document in its table.
///
/// # Errors
///
/// `AllocError` is want of memory.
pub fn assess_plain(
    alloc: Global,
    compiled: &mut Compiled,
    tree: &Tree,
) -> Result<Vec<ElementEntry>, AllocError>
    requires usable { IsUsable compiled.old }
    requires sound { IsSound compiled.old.names }
    requires names { HasNames compiled.old.names tree.now.forest }
    ensures assessed { IfOk result (λ entries. ArePlain (set_of compiled.old) tree.now.forest entries.items) }
    ensures tree { IfOk result (λ entries. IsTree tree.now) }
    ensures same { compiled.new ≡ compiled.old }
{
    let index = tree.index(alloc)?;
    match index.top().first() {
        Some(Sibling { row, children, .. }) => match &row.content {
            Content::Element(name) => assess_root(alloc, compiled, name, row, children),
            Content::Chars(_) => unreachable!(),
        },
        None => unreachable!(),
    }
}
