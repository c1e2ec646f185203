//! The literals of `decimal` and of the types of integers.
ghost use Rattle.std.specs.Prelude.{◌≡◌};
ghost use Rattle.std.specs.List.{list_any};
ghost use Rattle.dec_value.specs.Literal as decimals;
ghost use Rattle.simple_values.specs.Literals as spec;

use crate::ValueFault;
use dec_value::{Dec, DecFault};

/// The number of a literal of `decimal` (Datatypes 3.2.3).
pub fn read_decimal(text: &str) -> Result<Dec, ValueFault>
    ensures { result ≡ spec.decimal_value text.now }
{
    match Dec::read(text) {
        Ok(number) => Ok(number),
        Err(DecFault::NotDecimal) => Err(ValueFault::NotLexical),
        Err(DecFault::TooWide) => Err(ValueFault::Limit),
    }
}

/// The number of a literal of `integer` and of the types derived from it, which is a literal of `decimal` without a point
/// (Datatypes 3.3.13).
pub fn read_integer(text: &str) -> Result<Dec, ValueFault>
    ensures { result ≡ spec.integer_value text.now }
{
    if has_point(text) {
        return Err(ValueFault::NotLexical);
    }
    read_decimal(text)
}

// Whether a point is among the characters.
fn has_point(text: &str) -> bool
    ensures { result ≡ list_any decimals.is_point text.now }
{
    text.bytes().any(|b| b == b'.')
}
