ghost use Rattle.std.specs.Prelude.{◌≡◌, IfOk};
ghost use Rattle.schema_faults.specs.Faults.{first_broken, limit_tests};
ghost use Rattle.schema_faults.specs.Limits as spec;

use crate::unsupported::has_schema_target;
use schema_values::{AttributeName, Class, Kind, Tag, digits_of, is_in, is_past_limit, raw_of};
use std::alloc::{AllocError, Global};
use tree_rows::Attribute;
use xs_codes::Code;

/// Fields of an identity constraint, at most.
pub const MAX_FIELDS: usize = 16;

/// The greatest number that a facet may have.
pub const MAX_FACET_NUMBER: u64 = 4_294_967_295;

/// How many fields are among the children.
fn field_count(tags: &[Tag]) -> usize
    ensures { result ≡ spec.field_count tags.now }
{
    tags.iter().filter(|tag| is_in(Class::Field, **tag)).count()
}

/// Whether an identity constraint has more fields than the limit.
fn has_many_fields(kind: Kind, tags: &[Tag]) -> bool
    ensures { result ≡ spec.has_many_fields kind tags.now }
{
    match kind {
        Kind::Unique => field_count(tags) > MAX_FIELDS,
        Kind::Key => field_count(tags) > MAX_FIELDS,
        Kind::Keyref => field_count(tags) > MAX_FIELDS,
        _ => false,
    }
}

/// Whether a number is past the limit.
fn is_large(number: Option<u64>) -> bool
    ensures { result ≡ spec.is_large number }
{
    match number {
        None => false,
        Some(n) => n > MAX_FACET_NUMBER,
    }
}

/// Whether the facet's value is past the limit.
fn has_large_value(attributes: &[Attribute]) -> Result<bool, AllocError>
    ensures { IfOk result (λ found. found ≡ spec.has_large_value attributes.now) }
{
    match raw_of(AttributeName::Value, attributes)? {
        None => Ok(false),
        Some(text) => Ok(is_large(digits_of(text.as_str()))),
    }
}

/// Whether the number of a facet is past the limit.
fn has_large_number(kind: Kind, attributes: &[Attribute]) -> Result<bool, AllocError>
    ensures { IfOk result (λ found. found ≡ spec.has_large_number kind attributes.now) }
{
    match kind {
        Kind::Length => has_large_value(attributes),
        Kind::MinLength => has_large_value(attributes),
        Kind::MaxLength => has_large_value(attributes),
        Kind::TotalDigits => has_large_value(attributes),
        Kind::FractionDigits => has_large_value(attributes),
        _ => Ok(false),
    }
}

/// The code of the first limit that an element passes.
#[tactic(auto, unfolding(crate::specs::Faults::limit_tests))]
pub(crate) fn limit_code(
    alloc: Global,
    kind: Kind,
    attributes: &[Attribute],
    tags: &[Tag],
) -> Result<Option<Code>, AllocError>
    ensures { IfOk result (λ code. code ≡ first_broken (limit_tests kind attributes.now tags.now)) }
{
    if has_schema_target(alloc, kind, attributes)? {
        return Ok(Some(Code::XUnsupportedTarget));
    }
    if is_past_limit(alloc, attributes)? {
        return Ok(Some(Code::XLimitOccurs));
    }
    if has_many_fields(kind, tags) {
        return Ok(Some(Code::XLimitFields));
    }
    if has_large_number(kind, attributes)? {
        return Ok(Some(Code::XLimitValue));
    }
    Ok(None)
}
