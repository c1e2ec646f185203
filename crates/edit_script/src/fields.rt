ghost use Rattle.std.specs.Prelude.{◌≡◌, Some, None, Ok, Err, MatchOption};
ghost use Rattle.std.specs.Char.{is_ascii_digit};
ghost use Rattle.std.specs.List.{list_all, list_any};
ghost use Rattle.edit_script.specs.Fields as fields;

use crate::ScriptFault;

/// The parts of a text before and behind its first space; `None` where it has none.
pub fn split(text: &str) -> Option<(&str, &str)>
    ensures { MatchOption result (fields.split text.now ≡ None) (λ parts. fields.split text.now ≡ Some (parts.0.now, parts.1.now)) }
{
    text.split_once(' ')
}

/// Whether a field has a space, so that it is more than one.
pub fn has_space(field: &str) -> bool
    ensures { result ≡ list_any fields.is_space field.now }
{
    field.as_bytes().iter().any(|b| *b == b' ')
}

/// Whether a field is decimal digits alone.
fn is_digits(field: &str) -> bool
    ensures { result ≡ list_all is_ascii_digit field.now }
{
    field.as_bytes().iter().all(|b| b.is_ascii_digit())
}

/// The number that decimal digits write.
pub fn number(field: &str) -> Result<u32, ScriptFault>
    ensures { result ≡ fields.number field.now }
{
    if !is_digits(field) {
        return Err(ScriptFault::BadNumber);
    }
    match field.parse() {
        Ok(number) => Ok(number),
        Err(_) => Err(ScriptFault::BadNumber),
    }
}

/// The revision that decimal digits write.
pub fn revision(field: &str) -> Result<u64, ScriptFault>
    ensures { result ≡ fields.revision field.now }
{
    if !is_digits(field) {
        return Err(ScriptFault::BadNumber);
    }
    match field.parse() {
        Ok(number) => Ok(number),
        Err(_) => Err(ScriptFault::BadNumber),
    }
}
