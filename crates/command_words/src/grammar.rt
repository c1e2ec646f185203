ghost use Rattle.std.specs.Prelude.{◌≡◌, ◌∷◌, [], Some, is_some};
ghost use Rattle.std.specs.Option.{option_copied};
ghost use Rattle.command_words.specs.Requests as requests;

use crate::request::{read_generated, read_stream};
use xs_names::Text;

/// Whether a word is the option's name.
fn is_option(word: &str) -> bool
    ensures { result ≡ requests.is_option word.now }
{
    word == "--max-errors"
}

/// The value of the option, where it stands in one word with its name.
fn value_within(word: &str) -> Option<&str>
    ensures { option_copied result ≡ requests.value_within word.now }
{
    word.strip_prefix("--max-errors=")
}

/// Whether a stream is read, with the option.
fn is_read(command: &str, value: &str) -> bool
    ensures { result ≡ is_some (requests.read_by (requests.task command.now) (requests.most (Some value.now))) }
{
    read_stream(command, Some(value)).is_some()
}

/// Whether a word is a command that needs no other.
#[tactic(auto, using(crate::proofs::Lines::alone))]
fn is_one(word: &str) -> bool
    ensures { result ≡ is_some (requests.request (word.now ∷ [])) }
{
    read_stream(word, None).is_some()
}

/// Whether two words are a command and, in one word, the option.
#[tactic(auto, using(crate::proofs::Lines::glued_first, crate::proofs::Lines::glued_last, crate::proofs::Lines::no_two))]
fn are_two(first: &str, second: &str) -> bool
    ensures { result ≡ is_some (requests.request (first.now ∷ second.now ∷ [])) }
{
    match value_within(first) {
        Some(value) => is_read(second, value),
        None => match value_within(second) {
            Some(value) => is_read(first, value),
            None => false,
        },
    }
}

/// Whether three words are a command and the option, or ask for a stream to be generated.
#[tactic(auto, using(crate::proofs::Lines::apart_first, crate::proofs::Lines::apart_last, crate::proofs::Lines::made))]
fn are_three(first: &str, second: &str, third: &str) -> bool
    ensures { result ≡ is_some (requests.request (first.now ∷ second.now ∷ third.now ∷ [])) }
{
    if is_option(first) {
        is_read(third, second)
    } else if is_option(second) {
        is_read(first, third)
    } else {
        read_generated(first, second, third).is_some()
    }
}

/// Whether words are some of the program's:
///
/// - `check`, `assess` or `session`, and before or behind it perhaps `--max-errors` and a number in the next word or, behind an
///   equals sign, in the same;
/// - `generate` or `trial`, a number, and a count from 1 to 100,000.
#[tactic(auto, using(crate::proofs::Lines::too_many))]
pub fn are_accepted(words: &[Text]) -> bool
    ensures { result ≡ is_some (requests.request words.now) }
{
    match words {
        [word] => is_one(word.as_str()),
        [first, second] => are_two(first.as_str(), second.as_str()),
        [first, second, third] => are_three(first.as_str(), second.as_str(), third.as_str()),
        _ => false,
    }
}
