ghost use Rattle.std.specs.Prelude.{◌≡◌, min};
ghost use Rattle.std.specs.Option.{option_map};
ghost use Rattle.schema_values.specs.Values as spec;

/// Numbers above this are not told apart.
pub const CAP: u64 = 4_294_967_296;

/// The boolean of a text (Datatypes 3.2.2.1); `None` where it is the literal of none.
pub fn boolean_of(text: &str) -> Option<bool>
    ensures { result ≡ spec.boolean_of text.now }
{
    match text {
        "true" | "1" => Some(true),
        "false" | "0" => Some(false),
        _ => None,
    }
}

/// The number of a text of digits, `CAP` where it is greater; `None` where the text is no digits.
pub fn digits_of(text: &str) -> Option<u64>
    ensures { result ≡ option_map (min CAP) (spec.digits_of text.now) }
{
    let bytes = text.as_bytes();
    if bytes.is_empty() {
        return None;
    }
    let mut number = 0;
    for b in bytes {
        if !b.is_ascii_digit() {
            return None;
        }
        number = CAP.min(number * 10 + u64::from(*b - b'0'));
    }
    Some(number)
}

/// Whether there is a number, and it is not 0.
pub(crate) fn is_positive(number: Option<u64>) -> bool
    ensures { result ≡ spec.is_positive number }
{
    match number {
        None => false,
        Some(n) => 0 < n,
    }
}
