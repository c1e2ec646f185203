//! The numbers of components of one kind.

ghost use Rattle.std.specs.Prelude.{◌≡◌, ◌+◌, ◌<◌, ◌^◌, length, IfOk};
ghost use Rattle.set_representations.specs.Numbers.{number_of};
ghost use Rattle.redefine_names.specs.Numbers as spec;

use crate::marks::is_same;
use crate::{VersionKind, declared_by};
use representations::Representation;
use std::alloc::{AllocError, Global};
use xs_lists::Listed;

// Whether an element declares something of a kind.
fn is_of_kind(kind: VersionKind, rep: &Representation) -> bool
    ensures { result ≡ spec.is_of_kind kind rep.now }
{
    match declared_by(&rep.form) {
        None => false,
        Some(declared) => is_same(declared.kind, kind),
    }
}

// The number of the component that an element represents, where so many are counted before.
fn next_number(kind: VersionKind, rep: &Representation, count: &mut u32) -> Option<u32>
    requires few { count.old + 1 < 2 ^ 32 }
    ensures number { result ≡ number_of (spec.of_kind kind rep.now) count.old }
    ensures count { count.new ≡ count.old + length (spec.of_kind kind rep.now) }
{
    if !is_of_kind(kind, rep) {
        return None;
    }
    let number = *count;
    *count += 1;
    Some(number)
}

/// The numbers of the components of a kind, by place.
///
/// # Errors
///
/// `AllocError` is want of memory, or of numbers.
pub(crate) fn kind_numbers(
    alloc: Global,
    kind: VersionKind,
    reps: &[Representation],
) -> Result<Listed<Option<u32>>, AllocError>
    ensures { IfOk result (λ numbers. numbers ≡ spec.kind_numbers kind reps.now) }
{
    if reps.len() >= u32::MAX as usize {
        return Err(AllocError);
    }
    let mut count = 0;
    let mut numbers = Listed::new(alloc);
    for rep in reps {
        let number = next_number(kind, rep, &mut count);
        numbers.push(number)?;
    }
    Ok(numbers)
}
