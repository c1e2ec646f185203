//! What the keyrefs of a schema set refer to.

ghost use Rattle.std.specs.Prelude.{◌≡◌, IfOk};
ghost use Rattle.forest_keys.specs.inside.Keyrefs.{AreReferencesOf, referred};

use key_records::References;
use std::alloc::{AllocError, Global};
use xs_components::{Components, ConstraintKind};

// The number of the key or unique that a keyref refers to.
fn key_of(kind: ConstraintKind) -> Option<u32>
    ensures { result ≡ referred kind }
{
    match kind {
        ConstraintKind::Unique | ConstraintKind::Key => None,
        ConstraintKind::Keyref(key) => Some(key.number()),
    }
}

/// The keys and uniques to which the keyrefs of a schema set refer (Structures 3.11.1).
///
/// # Errors
///
/// `AllocError` is want of memory, or there are more than 2,147,483,648 constraints.
pub fn references_of(alloc: Global, parts: &Components) -> Result<References, AllocError>
    ensures { IfOk result (AreReferencesOf parts.now.constraints.parts) }
{
    let mut references = References::new(alloc);
    let mut left = parts.constraints();
    'constraints: while let Some((constraint, rest)) = left.split_first() {
        references.push(key_of(constraint.kind))?;
        left = rest;
    }
    Ok(references)
}
