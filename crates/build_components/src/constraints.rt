ghost use Rattle.std.specs.Prelude.{◌≡◌, length, IfOk, OnOk};
ghost use Rattle.std.specs.List.{flat_map};
ghost use Rattle.set_representations.specs.Numbers.{number_of, numbers_of, with_parts};
ghost use Rattle.build_components.specs.Constraints as spec;

use crate::paths::{fields, selector};
use representations::{Representation, Represented, Source};
use set_representations::number_named;
use std::alloc::{AllocError, Global};
use xs_components::{Components, Constraint, ConstraintId, ConstraintKind};
use xs_lists::Listed;
use xs_names::NameId;

/// The numbers of identity constraints by place: those that keyrefs may refer to, and those of keyrefs.
#[derive(Drop)]
pub struct ConstraintNumbers {
    /// Of keys and uniques.
    pub keys: Listed<Option<ConstraintId>>,
    pub keyrefs: Listed<Option<ConstraintId>>,
}

// Adds the identity constraint of this name and kind, if it has a selector.
fn add_constraint(
    alloc: Global,
    parts: &mut Components,
    source: &Source,
    rep: &Representation,
    name: NameId,
    kind: ConstraintKind,
) -> Result<Option<ConstraintId>, AllocError>
    ensures number { IfOk result (λ id. id ≡ number_of (spec.constraints_of source.now rep.now name kind) (length parts.old.constraints.parts)) }
    ensures parts { OnOk result (parts.new ≡ record parts.old { constraints = with_parts parts.old.constraints (spec.constraints_of source.now rep.now name kind) }) }
{
    let members = rep.members.as_slice();
    let Some(selector) = selector(alloc, source, members)? else {
        return Ok(None);
    };
    let part = Constraint {
        name,
        at: rep.at,
        kind,
        selector,
        fields: fields(alloc, source, members)?,
    };
    Ok(Some(parts.add_constraint(part)?))
}

// Adds the key or unique that is represented, if one is.
fn add_key(
    alloc: Global,
    parts: &mut Components,
    source: &Source,
    rep: &Representation,
) -> Result<Option<ConstraintId>, AllocError>
    ensures number { IfOk result (λ id. id ≡ number_of (spec.keys_of source.now rep.now) (length parts.old.constraints.parts)) }
    ensures parts { OnOk result (parts.new ≡ record parts.old { constraints = with_parts parts.old.constraints (spec.keys_of source.now rep.now) }) }
{
    match &rep.form {
        Represented::Unique { name } => {
            add_constraint(alloc, parts, source, rep, *name, ConstraintKind::Unique)
        }
        Represented::Key { name } => {
            add_constraint(alloc, parts, source, rep, *name, ConstraintKind::Key)
        }
        _ => Ok(None),
    }
}

// Adds the keys and uniques, in the order of their representations.
fn add_keys(
    alloc: Global,
    parts: &mut Components,
    source: &Source,
) -> Result<Listed<Option<ConstraintId>>, AllocError>
    ensures numbers { IfOk result (λ ids. ids ≡ numbers_of (spec.keys_of source.now) (length parts.old.constraints.parts) source.now.reps.now) }
    ensures parts { OnOk result (parts.new ≡ record parts.old { constraints = with_parts parts.old.constraints (spec.keys source.now) }) }
{
    let mut ids = Listed::new(alloc);
    for rep in source.reps {
        ids.push(add_key(alloc, parts, source, rep)?)?;
    }
    Ok(ids)
}

// The key or unique that a keyref refers to, if there is one.
fn key_referred(
    source: &Source,
    keys: &[Option<ConstraintId>],
    refer: Option<NameId>,
) -> Option<ConstraintId>
    ensures { result ≡ spec.key_referred source.now keys.now refer }
{
    number_named(keys, &source.spaces.constraints, refer?)
}

// Adds the keyref that is represented, if one is and refers to something.
fn add_keyref(
    alloc: Global,
    parts: &mut Components,
    source: &Source,
    keys: &[Option<ConstraintId>],
    rep: &Representation,
) -> Result<Option<ConstraintId>, AllocError>
    ensures number { IfOk result (λ id. id ≡ number_of (spec.keyrefs_of source.now keys.now rep.now) (length parts.old.constraints.parts)) }
    ensures parts { OnOk result (parts.new ≡ record parts.old { constraints = with_parts parts.old.constraints (spec.keyrefs_of source.now keys.now rep.now) }) }
{
    match &rep.form {
        Represented::Keyref { name, refer } => match key_referred(source, keys, *refer) {
            None => Ok(None),
            Some(key) => {
                add_constraint(
                    alloc,
                    parts,
                    source,
                    rep,
                    *name,
                    ConstraintKind::Keyref(key),
                )
            }
        },
        _ => Ok(None),
    }
}

// Adds the keyrefs, in the order of their representations.
fn add_keyrefs(
    alloc: Global,
    parts: &mut Components,
    source: &Source,
    keys: &[Option<ConstraintId>],
) -> Result<Listed<Option<ConstraintId>>, AllocError>
    ensures numbers { IfOk result (λ ids. ids ≡ numbers_of (spec.keyrefs_of source.now keys.now) (length parts.old.constraints.parts) source.now.reps.now) }
    ensures parts { OnOk result (parts.new ≡ record parts.old { constraints = with_parts parts.old.constraints (spec.keyrefs source.now keys.now) }) }
{
    let mut ids = Listed::new(alloc);
    for rep in source.reps {
        ids.push(add_keyref(alloc, parts, source, keys, rep)?)?;
    }
    Ok(ids)
}

/// Adds the identity constraints, all keys and uniques before the keyrefs, and answers their numbers by place.
///
/// # Errors
///
/// `AllocError` is want of memory.
pub fn add_constraints(
    alloc: Global,
    parts: &mut Components,
    source: &Source,
) -> Result<ConstraintNumbers, AllocError>
    ensures numbers { IfOk result (λ numbers. numbers ≡ spec.constraint_numbers source.now (length parts.old.constraints.parts)) }
    ensures parts { OnOk result (parts.new ≡ record parts.old { constraints = with_parts parts.old.constraints (spec.constraints source.now (length parts.old.constraints.parts)) }) }
{
    let keys = add_keys(alloc, parts, source)?;
    let keyrefs = add_keyrefs(alloc, parts, source, keys.as_slice())?;
    Ok(ConstraintNumbers { keys, keyrefs })
}
