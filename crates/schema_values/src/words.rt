ghost use Rattle.std.specs.Prelude.{◌≡◌, IfOk, bytes_eq};
ghost use Rattle.std.specs.List.{list_any};
ghost use Rattle.schema_values.specs.Words as spec;

use crate::ValueKind;
use std::alloc::{AllocError, Global};
use xs_components::Methods;
use xs_names::{Text, items};

/// Whether a value of the kind may be this word, or a list of such words.
pub(crate) fn is_word(kind: ValueKind, word: &str) -> bool
    ensures { result ≡ spec.is_word kind word.now }
{
    match kind {
        ValueKind::Form => matches!(word, "qualified" | "unqualified"),
        ValueKind::Use => matches!(word, "optional" | "prohibited" | "required"),
        ValueKind::Process => matches!(word, "strict" | "lax" | "skip"),
        ValueKind::WhiteSpace => matches!(word, "preserve" | "replace" | "collapse"),
        ValueKind::Block => matches!(word, "extension" | "restriction" | "substitution"),
        ValueKind::ComplexFinal => matches!(word, "extension" | "restriction"),
        ValueKind::SimpleFinal => matches!(word, "restriction" | "list" | "union"),
        ValueKind::AnyFinal => matches!(word, "extension" | "restriction" | "list" | "union"),
        _ => false,
    }
}

/// Whether each word may stand in a list of the kind.
fn are_words(kind: ValueKind, words: &[Text]) -> bool
    ensures { result ≡ spec.are_words kind words.now }
{
    for word in words {
        if !is_word(kind, word.as_str()) {
            return false;
        }
    }
    true
}

/// Whether the text is `#all` or a list of words of the kind.
pub(crate) fn is_set(alloc: Global, kind: ValueKind, text: &str) -> Result<bool, AllocError>
    ensures { IfOk result (λ found. found ≡ spec.is_set kind text.now) }
{
    if text == "#all" {
        return Ok(true);
    }
    let words = items(alloc, text)?;
    Ok(are_words(kind, words.as_slice()))
}

/// Whether the word is among the others.
fn has_word(words: &[Text], word: &str) -> bool
    ensures { result ≡ list_any (bytes_eq word.now) words.now }
{
    words.iter().any(|other| word == other.as_str())
}

/// The methods of a set; `#all` is each of them.
///
/// # Errors
///
/// `AllocError` is want of memory.
pub fn set_of(alloc: Global, text: &str) -> Result<Methods, AllocError>
    ensures { IfOk result (λ methods. methods ≡ spec.set_of text.now) }
{
    let all = text == "#all";
    let found = items(alloc, text)?;
    let words = found.as_slice();
    Ok(Methods {
        extension: all || has_word(words, "extension"),
        restriction: all || has_word(words, "restriction"),
        substitution: all || has_word(words, "substitution"),
        by_list: all || has_word(words, "list"),
        by_union: all || has_word(words, "union"),
    })
}
