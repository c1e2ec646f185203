ghost use Rattle.std.specs.Prelude.{◌≡◌, ℕ, ◌^◌, ◌<◌, ◌≤◌, ◌↔◌, pos, ◌*ℤ◌, if◌then◌else◌, ◌==◌};
ghost use Rattle.std.specs.Ordering.{int_cmp};
ghost use Rattle.std.specs.declared.cmp.Ordering.TheVariants.{Equal};
ghost use Rattle.dec_value.specs.Decimal.{IsWithinTotalDigits, order_of, total_digits_of};
ghost use Rattle.dec_value.specs.Grammar.{Reads};
ghost use Rattle.dec_value.specs.Literal.{decimal_of};

mod whole;

use super::digits::{
    digit_count, is_literal, magnitude_of, power_of_ten, signed, split_at_point, split_sign,
    without_trailing_zeros,
};
use std::cmp::Ordering;
use std::marker::Model;

/// A decimal number: an integer of at most 38 digits over a power of ten, at most the 38th, the
/// least that serves (Datatypes 3.2.3).
#[derive(Clone, Copy, PartialEq, Eq, Hash)]
pub struct Dec {
    unscaled: i128,
    scale: u32,
}

impl Model for Dec {
    ghost use Rattle.dec_value.specs.Decimal.{Decimal, IsKept};

    ghost Value = { Decimal };

    ghost view = { λ d. record { unscaled = d.unscaled; scale = d.scale } };

    ghost invariant = { λ d. IsKept (record { unscaled = d.unscaled; scale = d.scale }) };

    ghost inverse = { λ d. record { unscaled = d.unscaled; scale = d.scale } };
}

/// Why a text is no `Dec`.
#[derive(Clone, Copy, Debug)]
pub enum DecFault {
    /// It is no literal of `decimal` (Datatypes 3.2.3.1).
    NotDecimal,
    /// Its value has more than 38 digits, or more than 38 of them behind the point. Zeros in front
    /// and zeros that end the fraction do not count.
    TooWide,
}

/// The most digits that the integer may have, and the most of them that may stand behind the point.
const MOST_DIGITS: usize = 38;

impl Dec {
    /// Reads a literal of `decimal`: an optional sign, and digits with at most one point, with no
    /// white space (Datatypes 3.2.3.1).
    ///
    /// # Errors
    ///
    /// `NotDecimal` where the text is no literal, else `TooWide` where its value is too wide.
    pub fn read(text: &str) -> Result<Dec, DecFault>
        ensures value { result ≡ decimal_of text.now }
        ensures grammar { Reads text.now result }
    {
        read_bytes(text.as_bytes())
    }

    /// The order of the numbers (Datatypes 3.2.3).
    pub fn cmp(&self, other: &Dec) -> Ordering
        ensures value { result ≡ order_of self.now other.now }
        ensures equal { (result ≡ Equal) ↔ (self.now ≡ other.now) }
    {
        if self.scale <= other.scale {
            compare_shifted(self.unscaled, other.scale - self.scale, other.unscaled)
        } else {
            compare_shifted(other.unscaled, self.scale - other.scale, self.unscaled).reverse()
        }
    }

    /// How many digits write the number: those of the integer, or those behind the point where
    /// these are more. A `totalDigits` of at least this number admits it (Datatypes 4.3.11).
    pub fn total_digits(&self) -> u32
        ensures value { result ≡ total_digits_of self.now }
        ensures admits { (n : ℕ) → 0 < n → (result ≤ n) ↔ IsWithinTotalDigits n self.now }
    {
        digit_count(self.unscaled.unsigned_abs()).max(self.scale)
    }

    /// How many digits stand behind the point. A `fractionDigits` of at least this number admits
    /// the number (Datatypes 4.3.12).
    pub fn fraction_digits(&self) -> u32
        ensures value { result ≡ self.now.scale }
        ensures bound { result ≤ 38 }
    {
        self.scale
    }

    /// The number, where it is an integer.
    pub fn as_integer(&self) -> Option<i128>
        ensures value { result ≡ (if self.now.scale == 0 then Some self.now.unscaled else None) }
    {
        if self.scale == 0 {
            Some(self.unscaled)
        } else {
            None
        }
    }
}

/// The value of a literal, from the bytes of its text.
fn read_bytes(text: &[u8]) -> Result<Dec, DecFault>
    ensures { result ≡ decimal_of text.now }
{
    let (negative, unsigned) = split_sign(text);
    let (whole, fraction) = split_at_point(unsigned);
    if !is_literal(whole, fraction) {
        return Err(DecFault::NotDecimal);
    }
    let places = without_trailing_zeros(fraction);
    if places.len() > MOST_DIGITS {
        return Err(DecFault::TooWide);
    }
    let Some(magnitude) = magnitude_of(whole, places) else {
        return Err(DecFault::TooWide);
    };
    Ok(Dec {
        unscaled: signed(negative, magnitude),
        scale: places.len() as u32,
    })
}

/// The order of `number` times ten to the `places` and of `other`.
fn compare_shifted(number: i128, places: u32, other: i128) -> Ordering
    requires { places ≤ 38 }
    ensures { result ≡ int_cmp (number *ℤ pos (10 ^ places)) other }
{
    match number.checked_mul(power_of_ten(places) as i128) {
        Some(product) => product.cmp(&other),
        // The product lies past every 128-bit integer, on the side of `number`.
        None if number < 0 => Ordering::Less,
        None => Ordering::Greater,
    }
}
