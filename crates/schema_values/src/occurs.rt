ghost use Rattle.std.specs.Prelude.{◌≡◌, IfOk, min};
ghost use Rattle.std.specs.Option.{option_map};
ghost use Rattle.schema_values.specs.Occurrences as spec;

use crate::{AttributeName, CAP, digits_of, value_of};
use std::alloc::{AllocError, Global};
use tree_rows::Attribute;
use xs_names::Text;

/// The greatest finite bound of a particle.
pub const MAX_OCCURS: u64 = 1000;

/// How often a particle may occur; `None` is unbounded. A bound past `MAX_OCCURS` counts as that and one.
#[derive(Clone, Copy)]
pub struct Occurs {
    pub min: u32,
    pub max: Option<u32>,
}

/// The bound that a text gives, 1 where there is none; numbers above `CAP` are not told apart.
fn bound_of(text: &Option<Text>) -> Option<u64>
    ensures { result ≡ option_map (min CAP) (spec.bound_of text.now) }
{
    match text {
        None => Some(1),
        Some(text) => digits_of(text.as_str()),
    }
}

/// Whether a bound is past the limit.
fn is_past(bound: Option<u64>) -> bool
    ensures { result ≡ spec.is_past bound }
{
    match bound {
        None => false,
        Some(n) => n > MAX_OCCURS,
    }
}

/// Whether a bound is greater than another, both within the limit.
fn is_greater(low: Option<u64>, high: Option<u64>) -> bool
    ensures { result ≡ spec.is_greater (spec.within_limit low) (spec.within_limit high) }
{
    match (low, high) {
        (Some(low), Some(high)) => low <= MAX_OCCURS && high <= MAX_OCCURS && high < low,
        _ => false,
    }
}

/// Whether a bound is past the limit.
///
/// # Errors
///
/// `AllocError` is want of memory, here and below.
pub fn is_past_limit(alloc: Global, attributes: &[Attribute]) -> Result<bool, AllocError>
    ensures { IfOk result (λ found. found ≡ spec.is_past_limit attributes.now) }
{
    if is_past(bound_of(&value_of(alloc, AttributeName::MinOccurs, attributes)?)) {
        return Ok(true);
    }
    Ok(is_past(bound_of(&value_of(alloc, AttributeName::MaxOccurs, attributes)?)))
}

/// Whether minOccurs is greater than maxOccurs (Structures 3.9.6).
pub fn has_crossed_bounds(alloc: Global, attributes: &[Attribute]) -> Result<bool, AllocError>
    ensures { IfOk result (λ found. found ≡ spec.has_crossed_bounds attributes.now) }
{
    let low = value_of(alloc, AttributeName::MinOccurs, attributes)?;
    let high = value_of(alloc, AttributeName::MaxOccurs, attributes)?;
    Ok(is_greater(bound_of(&low), bound_of(&high)))
}

/// The bound that a text gives, where what is past the limit counts as the limit and one.
fn count_of(text: &Option<Text>) -> u32
    ensures { result ≡ spec.count_of text.now }
{
    match bound_of(text) {
        None => 1,
        Some(number) => number.min(1001) as u32,
    }
}

/// The bound that a text gives, `None` where it is unbounded.
fn most_of(text: &Option<Text>) -> Option<u32>
    ensures { result ≡ spec.most_of text.now }
{
    match text {
        None => Some(1),
        Some(written) => {
            if written.as_str() == "unbounded" {
                None
            } else {
                Some(count_of(text))
            }
        }
    }
}

/// How often a particle may occur (Structures 3.9.2).
pub fn occurs_of(alloc: Global, attributes: &[Attribute]) -> Result<Occurs, AllocError>
    ensures { IfOk result (λ value. value ≡ spec.occurs_of attributes.now) }
{
    let min = value_of(alloc, AttributeName::MinOccurs, attributes)?;
    let max = value_of(alloc, AttributeName::MaxOccurs, attributes)?;
    Ok(Occurs {
        min: count_of(&min),
        max: most_of(&max),
    })
}
