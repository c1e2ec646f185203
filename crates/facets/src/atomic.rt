//! Literals of the types that are derived from a built-in one by restriction.
ghost use Rattle.std.specs.Prelude.{◌≡◌, IfOk, Option};
ghost use Rattle.xs_codes.specs.declared.code.Code.{Code as AnyCode};
ghost use Rattle.facet_checks.specs.Check.{IsChecked};
ghost use Rattle.facets.specs.Atomic as spec;

use facet_checks::FacetList;
use simple_values::{Value, ValueFault, item_type, read_normalized};
use std::alloc::{AllocError, Global};
use xs_codes::{Builtin, Code};
use xs_names::{Scope, Text, WhiteSpace, count_items, normalized};

/// A value, and the text that it was read from, its white space treated.
#[derive(Drop)]
pub struct Accepted {
    pub value: Value,
    pub text: Text,
}

/// What a text reads to as a literal of a type that is derived from a built-in one and has these facets, or the code of why
/// it is none: that of a list with too many items, of a text that is no literal, of a value past the limits, or of the first
/// facet that is not met (Datatypes 4.1.4).
pub(crate) fn read_atomic(
    alloc: Global,
    kind: Builtin,
    list: &FacetList,
    text: &str,
    scope: &Scope,
) -> Result<Result<Accepted, Code>, AllocError>
    ensures { IfOk result (λ outcome. spec.IsAtomicRead kind list.now scope.now text.now outcome) }
{
    let treated = normalized(alloc, way_of(list), text)?;
    if has_too_many(kind, treated.as_str()) {
        return Ok(Err(Code::XLimitItems));
    }
    match read_normalized(alloc, kind, treated.as_str(), scope)? {
        Ok(value) => judged_value(alloc, list, value, treated),
        Err(fault) => Ok(Err(code_of(fault))),
    }
}

/// The most items that a list may have.
pub(crate) const MOST_ITEMS: usize = 65_536;

/// Whether the text has more items than a list may have, where the type is a list.
pub(crate) fn has_too_many(kind: Builtin, text: &str) -> bool
    ensures { result ≡ spec.has_too_many kind text.now }
{
    match item_type(kind) {
        Some(_) => count_items(text) > MOST_ITEMS,
        None => false,
    }
}

/// What the facets say of white space.
pub(crate) fn way_of(list: &FacetList) -> WhiteSpace
    ensures { result ≡ spec.way_of list.now }
{
    match list.white_space {
        Some(handling) => handling.value,
        None => WhiteSpace::Preserve,
    }
}

/// The value, if it meets the facets.
pub(crate) fn judged_value(
    alloc: Global,
    list: &FacetList,
    value: Value,
    text: Text,
) -> Result<Result<Accepted, Code>, AllocError>
    ensures { IfOk result (λ outcome. spec.IsJudged list.now value text outcome) }
{
    match list.check(alloc, &value, text.as_str())? {
        Some(code) => Ok(Err(code)),
        None => Ok(Ok(Accepted { value, text })),
    }
}

/// The code of why a text has no value.
pub(crate) fn code_of(fault: ValueFault) -> Code
    ensures { result ≡ spec.fault_code fault }
{
    match fault {
        ValueFault::NotLexical => Code::CvcDatatypeValid1,
        ValueFault::Limit => Code::XLimitValue,
    }
}
