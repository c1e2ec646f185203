//! Literals of built-in types, read without a list of their facets.
ghost use Rattle.std.specs.Prelude.{◌≡◌, IsTrue, IfOk, List, ℕ};
ghost use Rattle.xs_names.specs.WhiteSpace.{normalized};
ghost use Rattle.facet_checks.specs.Check.{is_up_to_value, is_from_value, unmet_code};
ghost use Rattle.facets.specs.BuiltIn.{bound_at, facets_of};
ghost use Rattle.facets.specs.Literal as spec;

use crate::atomic::{code_of, has_too_many};
use crate::builtin::bound_at;
use dec_value::Dec;
use facet_checks::is_at_most;
use simple_values::{Value, bounds_of, read_normalized, white_space_of};
use std::alloc::{AllocError, Global};
use xs_codes::{Builtin, Code};
use xs_names::{Scope, WhiteSpace, is_bare, normalized};

/// The value of a text as a literal of a built-in type, or the code of why it has none (Datatypes 4.1.4): what the facets of the
/// type come to, of which no list is made.
pub fn read_builtin(
    alloc: Global,
    kind: Builtin,
    text: &str,
    scope: &Scope,
) -> Result<Result<Value, Code>, AllocError>
    ensures { IfOk result (λ outcome. spec.IsBuiltinRead kind scope.now text.now outcome) }
{
    let way = white_space_of(kind);
    if is_left(way, text) {
        return read_treated(alloc, kind, text, scope);
    }
    let treated = normalized(alloc, way, text)?;
    read_treated(alloc, kind, treated.as_str(), scope)
}

// Whether it is seen at once that treating its white space leaves the text as it is.
fn is_left(way: WhiteSpace, text: &str) -> bool
    ensures { IsTrue result → normalized way text.now ≡ text.now }
{
    match way {
        WhiteSpace::Preserve => true,
        _ => is_bare(text),
    }
}

// The same of a text whose white space is treated.
fn read_treated(
    alloc: Global,
    kind: Builtin,
    text: &str,
    scope: &Scope,
) -> Result<Result<Value, Code>, AllocError>
    ensures { IfOk result (λ outcome. spec.IsTreatedRead kind scope.now text.now outcome) }
{
    if has_too_many(kind, text) {
        return Ok(Err(Code::XLimitItems));
    }
    match read_normalized(alloc, kind, text, scope)? {
        Ok(value) => Ok(within_bounds(kind, value)),
        Err(fault) => Ok(Err(code_of(fault))),
    }
}

// The value, if it meets the facets of the type.
fn within_bounds(kind: Builtin, value: Value) -> Result<Value, Code>
    ensures { result ≡ spec.value_unless value (unmet_code (facets_of kind) value) }
{
    match unmet_bound(kind, &value) {
        Some(code) => Err(code),
        None => Ok(value),
    }
}

// The code of the first facet of the type, behind white space, that a value does not meet: there are bounds alone.
#[tactic(auto, using(crate::proofs::Bounding::bounds_alone))]
fn unmet_bound(kind: Builtin, value: &Value) -> Option<Code>
    ensures { result ≡ unmet_code (facets_of kind) value.now }
{
    let bounds = bounds_of(kind);
    if !is_up_to(kind, bounds.greatest, value) {
        return Some(Code::CvcMaxInclusiveValid);
    }
    if !is_from(kind, bounds.least, value) {
        return Some(Code::CvcMinInclusiveValid);
    }
    None
}

// Whether a value is at most the greatest of its type.
fn is_up_to(kind: Builtin, greatest: Option<Dec>, value: &Value) -> bool
    ensures { result ≡ is_up_to_value (bound_at kind greatest) value.now }
{
    match bound_at(kind, greatest) {
        Some(bound) => is_at_most(value, &bound.value),
        None => true,
    }
}

// Whether a value is at least the least of its type.
fn is_from(kind: Builtin, least: Option<Dec>, value: &Value) -> bool
    ensures { result ≡ is_from_value (bound_at kind least) value.now }
{
    match bound_at(kind, least) {
        Some(bound) => is_at_most(&bound.value, value),
        None => true,
    }
}
