ghost use Rattle.std.specs.Prelude.{◌≡◌, ℕ, ◌+◌, ◌*◌, ◌^◌, ◌<◌, ◌≤◌, IsTrue, List, ◌++◌, length, position};
ghost use Rattle.std.specs.List.{before_first, after_first, list_all};
ghost use Rattle.std.specs.Option.{SomeIff};
ghost use Rattle.std.specs.Char.{is_ascii_digit};
ghost use Rattle.dec_value.specs.Decimal.{digit_count as digit_count_of};
ghost use Rattle.dec_value.specs.Literal.{is_negative, unsigned, is_point, are_digits, number, lowest, signed as signed_of};

/// Whether `-` stands in front of a text, and the text behind its sign.
pub fn split_sign(text: &[u8]) -> (bool, &[u8])
    ensures negative { result.0 ≡ is_negative text.now }
    ensures rest { result.1.now ≡ unsigned text.now }
{
    match text.split_first() {
        Some((b'-', rest)) => (true, rest),
        Some((b'+', rest)) => (false, rest),
        _ => (false, text),
    }
}

/// What stands before the first point of a text, and what stands behind it.
pub fn split_at_point(text: &[u8]) -> (&[u8], &[u8])
    ensures whole { result.0.now ≡ before_first is_point text.now }
    ensures fraction { result.1.now ≡ after_first is_point text.now }
{
    match point_place(text) {
        Some(point) => (&text[..point], &text[point + 1..]),
        None => (text, &[]),
    }
}

/// Where the first point stands.
fn point_place(text: &[u8]) -> Option<usize>
    ensures { result ≡ position is_point text.now }
{
    text.iter().position(|b| *b == b'.')
}

/// Whether these are the whole part and the fraction of a literal.
pub fn is_literal(whole: &[u8], fraction: &[u8]) -> bool
    ensures { result ≡ are_digits whole.now fraction.now }
{
    is_numeral(whole) && is_numeral(fraction) && !(whole.is_empty() && fraction.is_empty())
}

/// Whether these are digits alone.
fn is_numeral(text: &[u8]) -> bool
    ensures { result ≡ list_all is_ascii_digit text.now }
{
    text.iter().all(|b| b.is_ascii_digit())
}

/// The fraction without the zeros that end it.
pub fn without_trailing_zeros(fraction: &[u8]) -> &[u8]
    requires { IsTrue (list_all is_ascii_digit fraction.now) }
    ensures digits { IsTrue (list_all is_ascii_digit result.now) }
    // Behind whatever digits it stands, what is left is the fraction of the lowest form.
    ensures lowest { (whole : List ℕ) → lowest (number (whole ++ fraction.now)) (length fraction.now)
        ≡ record { over = number (whole ++ result.now); scale = length result.now } }
{
    let mut rest = fraction;
    'zeros: while let Some((last, front)) = rest.split_last() {
        if *last != b'0' {
            break;
        }
        rest = front;
    }
    rest
}

/// The least number of 38 digits: one digit more is too many.
const FULL: u128 = 10_000_000_000_000_000_000_000_000_000_000_000_000;

/// The number that is written by the digits of `start` and then by these, unless it has more than
/// 38 digits.
fn append_digits(start: u128, digits: &[u8]) -> Option<u128>
    requires digits { IsTrue (list_all is_ascii_digit digits.now) }
    requires narrow { start < 10 ^ 38 }
    ensures { SomeIff result (start * 10 ^ length digits.now + number digits.now < 10 ^ 38) (start * 10 ^ length digits.now + number digits.now) }
{
    let mut value = start;
    'digits: for digit in digits {
        if value >= FULL {
            return None;
        }
        value = value * 10 + u128::from(*digit - b'0');
    }
    Some(value)
}

/// The number that the digits of both parts write together, unless it has more than 38 digits.
pub fn magnitude_of(whole: &[u8], fraction: &[u8]) -> Option<u128>
    requires whole { IsTrue (list_all is_ascii_digit whole.now) }
    requires fraction { IsTrue (list_all is_ascii_digit fraction.now) }
    ensures { SomeIff result (number (whole.now ++ fraction.now) < 10 ^ 38) (number (whole.now ++ fraction.now)) }
{
    let high = append_digits(0, whole)?;
    append_digits(high, fraction)
}

/// The integer of this sign and magnitude.
pub fn signed(negative: bool, magnitude: u128) -> i128
    requires { magnitude < 10 ^ 38 }
    ensures { result ≡ signed_of negative magnitude }
{
    let integer = magnitude as i128;
    if negative { -integer } else { integer }
}

/// How many digits write the number.
pub fn digit_count(number: u128) -> u32
    requires { number < 10 ^ 38 }
    ensures { result ≡ digit_count_of number }
{
    let mut rest = number;
    let mut count = 1;
    'tens: while rest >= 10 {
        rest /= 10;
        count += 1;
    }
    count
}

/// Ten to this power.
pub fn power_of_ten(exponent: u32) -> u128
    requires { exponent ≤ 38 }
    ensures { result ≡ 10 ^ exponent }
{
    10u128.pow(exponent)
}
