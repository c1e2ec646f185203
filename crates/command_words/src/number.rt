ghost use Rattle.std.specs.Prelude.{◌≡◌, ◌≤◌, IfSome};
ghost use Rattle.std.specs.Char.{is_ascii_digit};
ghost use Rattle.std.specs.List.{list_all};
ghost use Rattle.command_words.specs.Numbers as numbers;

/// The most digits that a number has.
const MOST_DIGITS: usize = 20;

/// Whether a text is decimal digits alone.
fn is_digits(text: &str) -> bool
    ensures { result ≡ list_all is_ascii_digit text.now }
{
    text.as_bytes().iter().all(|b| b.is_ascii_digit())
}

/// The number that 1 to 20 decimal digits write, `None` where the text is something else or the number is above
/// 18,446,744,073,709,551,615.
pub fn read_number(text: &str) -> Option<u64>
    ensures { result ≡ numbers.number text.now }
{
    if text.len() > MOST_DIGITS {
        return None;
    }
    if !is_digits(text) {
        return None;
    }
    match text.parse() {
        Ok(number) => Some(number),
        Err(_) => None,
    }
}

/// The number that a text writes, where it is from `least` to `most`.
pub fn read_between(text: &str, least: u64, most: u32) -> Option<u32>
    ensures read { result ≡ numbers.between least most text.now }
    ensures least { IfSome result (λ n. least ≤ n) }
{
    match read_number(text) {
        Some(number) if least <= number && number <= most as u64 => Some(number as u32),
        _ => None,
    }
}
