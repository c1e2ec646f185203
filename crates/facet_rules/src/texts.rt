//! What the texts of facets are read to.
ghost use Rattle.std.specs.Prelude.{◌≡◌, IfOk};
ghost use Rattle.facet_rules.specs.Texts as spec;

use crate::{FacetRead, Reading};
use facet_checks::PatternText;
use simple_values::{Atom, Value, ValueFault, read_builtin, read_normalized};
use std::alloc::{AllocError, Global};
use xs_codes::{Builtin, Code};
use xs_components::{FacetItem, FacetKind};
use xs_names::WhiteSpace;

/// What the text of a facet is read to that fits its base: bounds are literals of the built-in type that the base is or is
/// derived from. A value of an enumeration is left unread, since it is one by the base itself.
pub fn read_text(alloc: Global, kind: Builtin, item: &FacetItem) -> Result<FacetRead, AllocError>
    ensures { IfOk result (λ read. spec.IsTextRead item.now.kind kind item.now read) }
{
    match item.kind {
        FacetKind::Pattern => read_pattern(alloc, item),
        FacetKind::Enumeration => Ok(FacetRead::Plain(Reading::Unread)),
        FacetKind::WhiteSpace => Ok(FacetRead::Plain(read_way(item.text.as_str()))),
        FacetKind::TotalDigits => read_count(alloc, 1, item),
        FacetKind::Length => read_count(alloc, 0, item),
        FacetKind::MinLength => read_count(alloc, 0, item),
        FacetKind::MaxLength => read_count(alloc, 0, item),
        FacetKind::FractionDigits => read_count(alloc, 0, item),
        FacetKind::MaxInclusive => read_bound(alloc, kind, item),
        FacetKind::MaxExclusive => read_bound(alloc, kind, item),
        FacetKind::MinExclusive => read_bound(alloc, kind, item),
        FacetKind::MinInclusive => read_bound(alloc, kind, item),
    }
}

fn read_pattern(alloc: Global, item: &FacetItem) -> Result<FacetRead, AllocError>
    ensures { IfOk result (λ read. spec.IsPatternRead item.now.text read) }
{
    match PatternText::read(alloc, item.text.as_str())? {
        Ok(pattern) => Ok(FacetRead::Pattern(pattern)),
        Err(code) => Ok(FacetRead::Plain(Reading::Refused(code))),
    }
}

fn read_way(text: &str) -> Reading
    ensures { result ≡ spec.way_reading text.now }
{
    if text == "preserve" {
        Reading::Handling(WhiteSpace::Preserve)
    } else if text == "replace" {
        Reading::Handling(WhiteSpace::Replace)
    } else if text == "collapse" {
        Reading::Handling(WhiteSpace::Collapse)
    } else {
        Reading::Refused(Code::XFacetLiteral)
    }
}

// A number that is at least so much.
fn read_count(alloc: Global, least: i128, item: &FacetItem) -> Result<FacetRead, AllocError>
    ensures { IfOk result (λ read. read ≡ spec.count_read least item.now) }
{
    let read = read_normalized(alloc, Builtin::Integer, item.text.as_str(), &item.scope)?;
    Ok(FacetRead::Plain(match read {
        Ok(value) => count_of(least, &value),
        Err(fault) => Reading::Refused(literal_code(fault)),
    }))
}

// The number that a value is, where that is at least so much and not past the limit of counts.
fn count_of(least: i128, value: &Value) -> Reading
    ensures { result ≡ spec.count_of least value.now }
{
    let Value::Atom {
        atom: Atom::Number(number),
        ..
    } = value
    else {
        return Reading::Refused(Code::XFacetLiteral);
    };
    match number.as_integer() {
        Some(n) => count_at(least, n),
        None => Reading::Refused(Code::XFacetLiteral),
    }
}

fn count_at(least: i128, n: i128) -> Reading
    ensures { result ≡ spec.count_at least n }
{
    if n < least || n < 0 {
        return Reading::Refused(Code::XFacetLiteral);
    }
    if n > u32::MAX as i128 {
        return Reading::Refused(Code::XLimitValue);
    }
    Reading::Count(n as u32)
}

// A bound, which is a literal of the built-in type that the base is or is derived from.
fn read_bound(alloc: Global, kind: Builtin, item: &FacetItem) -> Result<FacetRead, AllocError>
    ensures { IfOk result (λ read. read ≡ spec.bound_read kind item.now) }
{
    let read = read_builtin(alloc, kind, item.text.as_str(), &item.scope)?;
    Ok(FacetRead::Plain(match read {
        Ok(value) => Reading::Limit(value),
        Err(fault) => Reading::Refused(literal_code(fault)),
    }))
}

// The code of a text that is no literal.
fn literal_code(fault: ValueFault) -> Code
    ensures { result ≡ spec.literal_code fault }
{
    match fault {
        ValueFault::NotLexical => Code::XFacetLiteral,
        ValueFault::Limit => Code::XLimitValue,
    }
}
