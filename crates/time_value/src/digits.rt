//! Readers of the small pieces of literals. Each takes the front of a text, and gives what it found
//! and the text after it.
ghost use Rattle.std.specs.Prelude.{◌≡◌, ◌==◌, ◌<◌, ◌≤◌, IfSome, length};
ghost use Rattle.std.specs.Char.{is_ascii_digit};
ghost use Rattle.std.specs.List.{prefix_len, list_all};
ghost use Rattle.time_value.specs.Digits as spec;

/// The text after this character.
#[tactic(auto, unfolding(crate::specs::Digits::after))]
pub(crate) fn after(text: &[u8], character: u8) -> Option<&[u8]>
    ensures { spec.seen_rest result ≡ spec.after character text.now }
{
    match text {
        [first, rest @ ..] if *first == character => Some(rest),
        _ => None,
    }
}

/// Whether a minus sign stands at the front, and the text after it.
#[tactic(auto, unfolding(crate::specs::Digits::minus_at))]
pub(crate) fn minus_at(text: &[u8]) -> (bool, &[u8])
    ensures { spec.seen_always result ≡ spec.minus_at text.now }
{
    match text {
        [b'-', rest @ ..] => (true, rest),
        _ => (false, text),
    }
}

/// Two digits.
#[tactic(auto, unfolding(crate::specs::Digits::two_digits), using(crate::proofs::Numbers::pair_value))]
pub(crate) fn two_digits(text: &[u8]) -> Option<(u8, &[u8])>
    ensures value { spec.seen result ≡ spec.two_digits text.now }
    ensures bound { IfSome result (λ found. found.0 < 100) }
{
    match text {
        [tens @ b'0'..=b'9', ones @ b'0'..=b'9', rest @ ..] => {
            Some(((*tens - b'0') * 10 + (*ones - b'0'), rest))
        }
        _ => None,
    }
}

// How many digits stand at the front.
fn digit_count(text: &[u8]) -> usize
    ensures count { result ≡ prefix_len is_ascii_digit text.now }
    ensures within { result ≤ length text.now }
{
    text.iter().take_while(|byte| byte.is_ascii_digit()).count()
}

/// All the digits at the front.
#[tactic(auto, unfolding(crate::specs::Digits::digits_at))]
pub(crate) fn digits_at(text: &[u8]) -> (&[u8], &[u8])
    ensures value { (result.0.now, result.1.now) ≡ spec.digits_at text.now }
    ensures digits { spec.AreDigits result.0.now }
{
    text.split_at(digit_count(text))
}

// The number that at most four digits write.
pub(crate) fn year_number(digits: &[u8]) -> u16
    requires short { length digits.now ≤ 4 }
    requires digits { spec.AreDigits digits.now }
    ensures value { result ≡ spec.number digits.now }
    ensures bound { result < 10_000 }
{
    let mut number = 0;
    'digits: for digit in digits {
        number = number * 10 + (digit - b'0') as u16;
    }
    number
}

// Whether the digits are zeros alone.
fn are_zeros(digits: &[u8]) -> bool
    ensures { result ≡ list_all (λ digit. digit == 48) digits.now }
{
    digits.iter().all(|digit| *digit == b'0')
}

// At most nine digits as decimal places, in nanoseconds.
fn decimal_places(digits: &[u8]) -> u32
    requires short { length digits.now ≤ 9 }
    requires digits { spec.AreDigits digits.now }
    ensures value { result ≡ spec.decimal_places digits.now }
    ensures bound { result < 1_000_000_000 }
{
    let mut nanosecond = 0;
    let mut place = 1_000_000_000;
    'digits: for digit in digits {
        place /= 10;
        nanosecond += (digit - b'0') as u32 * place;
    }
    nanosecond
}

// The digits behind a point, where nine places hold them.
#[tactic(auto, unfolding(crate::specs::Digits::nanoseconds))]
fn nanoseconds(digits: &[u8]) -> Option<u32>
    requires { spec.AreDigits digits.now }
    ensures value { result ≡ spec.nanoseconds digits.now }
    ensures bound { IfSome result (λ nanosecond. nanosecond < 1_000_000_000) }
{
    let (places, past) = digits.split_at(digits.len().min(9));
    if are_zeros(past) {
        Some(decimal_places(places))
    } else {
        None
    }
}

/// A point and at least one digit, if a point stands at the front.
#[tactic(auto, unfolding(crate::specs::Digits::fraction_at))]
pub(crate) fn fraction_at(text: &[u8]) -> Option<(Option<u32>, &[u8])>
    ensures value { spec.seen result ≡ spec.fraction_at text.now }
    ensures bound { IfSome result (λ found. IfSome found.0 (λ nanosecond. nanosecond < 1_000_000_000)) }
{
    match text {
        [b'.', rest @ ..] => {
            let (digits, rest) = digits_at(rest);
            if digits.is_empty() {
                return None;
            }
            Some((nanoseconds(digits), rest))
        }
        _ => Some((Some(0), text)),
    }
}

/// The most seconds that a duration holds within the limits.
pub(crate) const MOST_SECONDS: u64 = 126_230_400_000;

/// The number that digits write, where it is at most [`MOST_SECONDS`].
#[tactic(auto, unfolding(crate::specs::Digits::count_of))]
pub(crate) fn count_of(digits: &[u8]) -> Option<u64>
    requires { spec.AreDigits digits.now }
    ensures value { result ≡ spec.count_of digits.now }
{
    let mut number = 0;
    'digits: for digit in digits {
        number = number * 10 + (digit - b'0') as u64;
        if number > MOST_SECONDS {
            return None;
        }
    }
    Some(number)
}
