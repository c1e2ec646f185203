//! The terms of a content model, with what they accept.

ghost use Rattle.std.specs.Prelude.{◌≡◌, ◌<◌, All, Some, map, length, slice_index_or, IfOk};
ghost use Rattle.xs_components.specs.Heads.{names_of};
ghost use Rattle.component_tables.specs.Types.{AreDeclarationsOf};
ghost use Rattle.content_models.specs.Terms.{given_by, process_class, accepts_of, term_number};

use crate::source::ModelSource;
use content_automaton::{Accepts, Given};
use std::alloc::{AllocError, Global};
use xs_components::{Components, ElementId, Process, Term, TermId};
use xs_lists::Listed;

/// The numbers of these terms.
pub(crate) fn term_ids(
    alloc: Global,
    parts: &Components,
    numbers: &[u32],
) -> Result<Vec<TermId>, AllocError>
    requires terms { All (λ n. term_number parts.now n ≡ Some n) numbers.now }
    ensures { IfOk result (λ ids. ids.items ≡ numbers.now) }
{
    let mut ids = Vec::new(alloc);
    for number in numbers {
        if let Some(id) = term_at(parts, *number) {
            ids.push(id)?;
        }
    }
    Ok(ids)
}

/// The term of the particle of a number; `None` where that is a group, or not there.
pub(crate) fn term_at(parts: &Components, number: u32) -> Option<TermId>
    ensures { result ≡ term_number parts.now number }
{
    match parts.particle_at(number) {
        Some(id) => parts.term(id),
        None => None,
    }
}

/// What these terms accept.
pub(crate) fn read_terms(
    alloc: Global,
    source: ModelSource,
    ids: &[TermId],
) -> Result<Vec<Accepts>, AllocError>
    requires there { All (λ id. id < length source.parts.now.particles.parts) ids.now }
    requires declarations { AreDeclarationsOf source.parts.now source.declarations.now }
    ensures { IfOk result (λ terms. terms.items ≡ map (accepts_of source.entry.members.now source.entry.parts.now source.entry.classes.now) ids.now) }
{
    let mut terms = Vec::new(alloc);
    for id in ids {
        terms.push(read_term(alloc, source, *id)?)?;
    }
    Ok(terms)
}

// What a term accepts.
fn read_term(alloc: Global, source: ModelSource, id: TermId) -> Result<Accepts, AllocError>
    requires there { id < length source.parts.now.particles.parts }
    requires declarations { AreDeclarationsOf source.parts.now source.declarations.now }
    ensures { IfOk result (λ accepts. accepts ≡ accepts_of source.entry.members.now source.entry.parts.now source.entry.classes.now id) }
{
    match &source.parts.particle(id.particle()).term {
        Term::Element(element) => Ok(Accepts::Element(read_names(alloc, source, *element)?)),
        Term::Any(wildcard) => Ok(Accepts::Wildcard(
            wildcard.namespaces.clone()?,
            class_of_process(wildcard.process),
        )),
        Term::Group(_) | Term::Sequence(_) | Term::Choice(_) | Term::All(_) => {
            Ok(Accepts::Element(Listed::new(alloc)))
        }
    }
}

// The names that an element term accepts, with the classes of the declarations that it then gives.
fn read_names(
    alloc: Global,
    source: ModelSource,
    element: ElementId,
) -> Result<Listed<Given>, AllocError>
    requires declarations { AreDeclarationsOf source.parts.now source.declarations.now }
    ensures { IfOk result (λ given. given ≡ map (given_by source.entry.parts.now source.entry.classes.now element) (names_of source.entry.members.now element)) }
{
    let mut given = Listed::new(alloc);
    for name in source.members.names_of(element) {
        let declared = source.declarations.given(source.parts, element, *name);
        given.push(Given {
            name: *name,
            class: class_at(source.classes, declared),
        })?;
    }
    Ok(given)
}

// The class of a declaration; 0 past the last.
fn class_at(classes: &[u32], element: ElementId) -> u32
    ensures { result ≡ slice_index_or classes.now element 0 }
{
    match classes.get(element.number() as usize) {
        Some(class) => *class,
        None => 0,
    }
}

// The class of a wildcard.
fn class_of_process(process: Process) -> u32
    ensures { result ≡ process_class process }
{
    match process {
        Process::Strict => u32::MAX,
        Process::Lax => u32::MAX - 1,
        Process::Skip => u32::MAX - 2,
    }
}
