//! Which redefining components refer to themselves.

ghost use Rattle.std.specs.Prelude.{◌≡◌, IfOk, length};
ghost use Rattle.representations.specs.Behind.{AreBehind};
ghost use Rattle.redefine_names.specs.Redefined as spec;
ghost use Rattle.redefine_names.specs.Redirections as redirections;
ghost use Rattle.redefine_names.specs.inside.Steps as steps;

use crate::{Declared, VersionKind, declared_at, versions_around};
use representations::{Representation, Represented};
use set_representations::number_at;
use std::alloc::{AllocError, Global};
use xs_names::NameId;

// What a reference of a kind refers to, if it names something.
fn of_name(kind: VersionKind, name: Option<NameId>) -> Option<Declared>
    ensures { result ≡ spec.of_name kind name }
{
    match name {
        None => None,
        Some(name) => Some(Declared { kind, name }),
    }
}

// What a reference to a group or to an attribute group refers to.
fn referred(form: &Represented) -> Option<Declared>
    ensures { result ≡ spec.referred form.now }
{
    match form {
        Represented::GroupReference { to } => of_name(VersionKind::Group, *to),
        Represented::AttributeGroupReference { to } => of_name(VersionKind::AttributeGroup, *to),
        _ => None,
    }
}

// What the original of the component at a place declares.
fn redefined_by(
    reps: &[Representation],
    originals: &[Option<u32>],
    version: u32,
) -> Option<Declared>
    ensures { result ≡ spec.redefined_by reps.now originals.now version }
{
    match number_at(originals, version as usize) {
        None => None,
        Some(original) => declared_at(reps, original as usize),
    }
}

/// Whether two kinds are the same.
pub(crate) fn is_same(one: VersionKind, other: VersionKind) -> bool
    ensures { result ≡ redirections.same_kind one other }
{
    match one {
        VersionKind::Type => match other {
            VersionKind::Type => true,
            _ => false,
        },
        VersionKind::Group => match other {
            VersionKind::Group => true,
            _ => false,
        },
        VersionKind::AttributeGroup => match other {
            VersionKind::AttributeGroup => true,
            _ => false,
        },
    }
}

// The component that has a reference, where that is to what it redefines.
fn if_same(version: u32, original: Option<Declared>, to: Option<Declared>) -> Option<u32>
    ensures { result ≡ steps.if_same version original to }
{
    let original = original?;
    let to = to?;
    if is_same(original.kind, to.kind) && original.name == to.name {
        Some(version)
    } else {
        None
    }
}

// The component that an element is a reference of to itself, if it is one.
fn self_referring(
    reps: &[Representation],
    originals: &[Option<u32>],
    around: Option<u32>,
    form: &Represented,
) -> Option<u32>
    ensures { result ≡ steps.self_referring reps.now originals.now around form.now }
{
    match around {
        None => None,
        Some(version) => if_same(
            version,
            redefined_by(reps, originals, version),
            referred(form),
        ),
    }
}

// Marks a place, if there is one.
fn mark(marks: &mut Vec<bool>, place: Option<u32>)
    ensures marked { steps.IsMarked marks.old.items place marks.new.items }
{
    if let Some(place) = place {
        if (place as usize) < marks.len() {
            marks[place as usize] = true;
        }
    }
}

/// By place, which redefining components have a reference to themselves.
///
/// # Errors
///
/// `AllocError` is want of memory, or of places.
pub(crate) fn self_references(
    alloc: Global,
    reps: &[Representation],
    originals: &[Option<u32>],
) -> Result<Vec<bool>, AllocError>
    requires behind { AreBehind reps.now }
    ensures marks { IfOk result (λ marks. steps.AreMarks reps.now originals.now (length reps.now) marks.items) }
{
    let around = versions_around(alloc, reps, originals)?;
    let mut marks = Vec::from_elem(alloc, false, reps.len())?;
    for (place, rep) in reps.iter().enumerate() {
        mark(
            &mut marks,
            self_referring(reps, originals, around[place], &rep.form),
        );
    }
    Ok(marks)
}
