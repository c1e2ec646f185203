//! The tests by which the facets in force judge a value.
ghost use Rattle.std.specs.Prelude.{◌≡◌, IfOk};
ghost use Rattle.std.specs.Option.{option_copied};
ghost use Rattle.facet_checks.specs.Check as spec;

use crate::order::{is_at_most, is_below};
use crate::pattern::do_match_each;
use crate::{Bound, Count, FacetList, Shared, ValueSet};
use dec_value::Dec;
use simple_values::{Atom, Value, length};
use std::alloc::{AllocError, Global};
use xs_codes::Code;

impl FacetList {
    /// The code of the first facet that a value does not meet; `None` where it meets all. The text is the one that the value
    /// was read from, its white space treated. Memory for matching is taken meanwhile.
    ///
    /// The order is that of patterns, lengths, enumeration, bounds and digits. A bound is met only where the comparison is
    /// decided, and lengths are met by every value that has none.
    pub fn check(
        &self,
        alloc: Global,
        value: &Value,
        text: &str,
    ) -> Result<Option<Code>, AllocError>
        ensures { IfOk result (λ code. spec.IsChecked self.now value.now text.now code) }
    {
        if !do_match_each(alloc, self.patterns.as_slice(), text)? {
            return Ok(Some(Code::CvcPatternValid));
        }
        Ok(self.first_unmet(value))
    }

    // The code of the first facet, behind the patterns, that the value does not meet.
    fn first_unmet(&self, value: &Value) -> Option<Code>
        ensures { result ≡ spec.unmet_code self.now value.now }
    {
        if let Some(code) = self.unmet_length(length(value)) {
            return Some(code);
        }
        if !is_listed(self.enumeration.as_ref(), value) {
            return Some(Code::CvcEnumerationValid);
        }
        if let Some(code) = self.unmet_bound(value) {
            return Some(code);
        }
        self.unmet_digits(value)
    }

    // The code of the first facet of length that is not met.
    fn unmet_length(&self, length: Option<u32>) -> Option<Code>
        ensures { result ≡ spec.length_code self.now length }
    {
        let Some(length) = length else {
            return None;
        };
        if !is_exactly(self.length, length) {
            return Some(Code::CvcLengthValid);
        }
        if !is_from(self.min_length, length) {
            return Some(Code::CvcMinLengthValid);
        }
        if !is_up_to(self.max_length, length) {
            return Some(Code::CvcMaxLengthValid);
        }
        None
    }

    // The code of the first bound that is not met.
    fn unmet_bound(&self, value: &Value) -> Option<Code>
        ensures { result ≡ spec.bounds_code self.now value.now }
    {
        if !is_up_to_value(self.max_inclusive.as_ref(), value) {
            return Some(Code::CvcMaxInclusiveValid);
        }
        if !is_before_value(self.max_exclusive.as_ref(), value) {
            return Some(Code::CvcMaxExclusiveValid);
        }
        if !is_from_value(self.min_inclusive.as_ref(), value) {
            return Some(Code::CvcMinInclusiveValid);
        }
        if !is_past_value(self.min_exclusive.as_ref(), value) {
            return Some(Code::CvcMinExclusiveValid);
        }
        None
    }

    // The code of the first facet of digits that is not met.
    fn unmet_digits(&self, value: &Value) -> Option<Code>
        ensures { result ≡ spec.digits_code self.now (spec.number_of value.now) }
    {
        let Some(number) = number_of(value) else {
            return None;
        };
        if !is_up_to(self.total_digits, number.total_digits()) {
            return Some(Code::CvcTotalDigitsValid);
        }
        if !is_up_to(self.fraction_digits, number.fraction_digits()) {
            return Some(Code::CvcFractionDigitsValid);
        }
        None
    }
}

fn is_exactly(limit: Option<Count>, n: u32) -> bool
    ensures { result ≡ spec.is_exactly limit n }
{
    match limit {
        Some(limit) => n == limit.value,
        None => true,
    }
}

fn is_from(limit: Option<Count>, n: u32) -> bool
    ensures { result ≡ spec.is_from limit n }
{
    match limit {
        Some(limit) => limit.value <= n,
        None => true,
    }
}

fn is_up_to(limit: Option<Count>, n: u32) -> bool
    ensures { result ≡ spec.is_up_to limit n }
{
    match limit {
        Some(limit) => n <= limit.value,
        None => true,
    }
}

// Whether the value is one of those listed, if any are.
fn is_listed(values: Option<&Shared<ValueSet>>, value: &Value) -> bool
    ensures { result ≡ spec.is_listed (option_copied values.entry) value.now }
{
    match values {
        Some(values) => values.get().has(value),
        None => true,
    }
}

// Whether a value is at most the bound.
fn is_up_to_value(bound: Option<&Bound>, value: &Value) -> bool
    ensures { result ≡ spec.is_up_to_value (option_copied bound.entry) value.now }
{
    match bound {
        Some(bound) => is_at_most(value, &bound.value),
        None => true,
    }
}

// Whether a value is less than the bound.
fn is_before_value(bound: Option<&Bound>, value: &Value) -> bool
    ensures { result ≡ spec.is_before_value (option_copied bound.entry) value.now }
{
    match bound {
        Some(bound) => is_below(value, &bound.value),
        None => true,
    }
}

// Whether a value is at least the bound.
fn is_from_value(bound: Option<&Bound>, value: &Value) -> bool
    ensures { result ≡ spec.is_from_value (option_copied bound.entry) value.now }
{
    match bound {
        Some(bound) => is_at_most(&bound.value, value),
        None => true,
    }
}

// Whether a value is greater than the bound.
fn is_past_value(bound: Option<&Bound>, value: &Value) -> bool
    ensures { result ≡ spec.is_past_value (option_copied bound.entry) value.now }
{
    match bound {
        Some(bound) => is_below(&bound.value, value),
        None => true,
    }
}

// The number that a value is, if it is one.
fn number_of(value: &Value) -> Option<Dec>
    ensures { result ≡ spec.number_of value.now }
{
    match value {
        Value::Atom {
            atom: Atom::Number(number),
            ..
        } => Some(*number),
        _ => None,
    }
}
