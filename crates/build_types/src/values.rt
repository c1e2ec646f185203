ghost use Rattle.std.specs.Prelude.{◌≡◌, IfOk};
ghost use Rattle.build_types.specs.Values.{value_of};

use crate::scope_at;
use representations::{GivenValue, Source};
use std::alloc::{AllocError, Global};
use xs_components::{ValueConstraint, Wildcard};

/// A value constraint by the value that is given, in the scope at a place (Structures 3.2.2, 3.3.2).
///
/// # Errors
///
/// `AllocError` is want of memory, here and below.
pub fn value_constraint(
    alloc: Global,
    source: &Source,
    scope: u32,
    given: &Option<GivenValue>,
) -> Result<Option<ValueConstraint>, AllocError>
    ensures value { IfOk result (λ value. value ≡ value_of source.now scope given.now) }
{
    match given {
        None => Ok(None),
        Some(given) => Ok(Some(ValueConstraint {
            fixed: given.fixed,
            text: given.text.try_clone()?,
            scope: scope_at(alloc, source.scopes, scope)?,
        })),
    }
}

/// A copy of a wildcard.
pub fn copied_wildcard(wildcard: &Wildcard) -> Result<Wildcard, AllocError>
    ensures copy { IfOk result (λ copy. copy ≡ wildcard.now) }
{
    Ok(Wildcard {
        namespaces: wildcard.namespaces.clone()?,
        process: wildcard.process,
    })
}
