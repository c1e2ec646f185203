//! Language tags.
ghost use Rattle.std.specs.Prelude.{◌≡◌};
ghost use Rattle.std.specs.List.{list_all};
ghost use Rattle.simple_values.specs.Language as spec;

/// Whether the text is a language tag: parts of one to eight letters or digits between hyphens, the first of letters alone
/// (Datatypes 3.3.3).
pub fn is_language(text: &str) -> bool
    ensures { result ≡ spec.is_language text.now }
{
    text.split('-')
        .enumerate()
        .all(|(place, part)| is_part(place == 0, part))
}

// Whether this is the first part of a language tag, or a later one.
fn is_part(is_first: bool, part: &str) -> bool
    ensures { result ≡ spec.is_part is_first part.now }
{
    is_part_length(part.len()) && are_part_chars(is_first, part)
}

fn is_part_length(length: usize) -> bool
    ensures { result ≡ spec.is_part_length length }
{
    1 <= length && length <= 8
}

fn are_part_chars(is_first: bool, part: &str) -> bool
    ensures { result ≡ list_all (spec.is_part_char is_first) part.now }
{
    part.bytes().all(|b| is_part_char(is_first, b))
}

fn is_part_char(is_first: bool, b: u8) -> bool
    ensures { result ≡ spec.is_part_char is_first b }
{
    if is_first {
        b.is_ascii_alphabetic()
    } else {
        b.is_ascii_alphanumeric()
    }
}
