//! Reading a text as a pattern.

ghost use Rattle.std.specs.Prelude.{◌≡◌, IfOk};
ghost use Rattle.std.specs.Str.{chars};
ghost use Rattle.pattern_syntax.specs.Grammar.{RegExp};
ghost use Rattle.pattern_syntax.specs.Outcome.{outcome_of};
ghost use Rattle.pattern_syntax.specs.Reading.{IsWritten, answer_of, Reads};

use crate::building::Term;
use crate::fault::PatternFault;
use crate::reader::Reader;
use std::alloc::{AllocError, Global};

/// Reads a text as a pattern (Datatypes, appendix F), with the faults in this order: `Syntax` with its place in
/// characters where the text is no pattern, else the fault of the first class name that is not accepted, else `TooLarge`
/// where some number of a quantifier is above 4,096.
///
/// # Errors
/// When memory runs out.
pub fn read_pattern(alloc: Global, text: &str) -> Result<Result<Term, PatternFault>, AllocError>
    ensures reads { IfOk result (λ outcome. Reads (chars text.now) (outcome_of outcome)) }
    // Whichever expression the text is written as, its answer is this one.
    ensures only { IfOk result (λ outcome. (r : RegExp) → IsWritten (chars text.now) r → outcome_of outcome ≡ answer_of r) }
{
    let characters = characters_of(alloc, text)?;
    read_characters(alloc, &characters)
}

fn characters_of(alloc: Global, text: &str) -> Result<Vec<char>, AllocError>
    ensures { IfOk result (λ characters. characters.items ≡ chars text.now) }
{
    text.chars().collect(alloc)
}

/// The same of a text's characters.
fn read_characters(alloc: Global, text: &[char]) -> Result<Result<Term, PatternFault>, AllocError>
    ensures reads { IfOk result (λ outcome. Reads text.now (outcome_of outcome)) }
    ensures only { IfOk result (λ outcome. (r : RegExp) → IsWritten text.now r → outcome_of outcome ≡ answer_of r) }
{
    let mut reader = Reader::new(alloc)?;
    'characters: for (place, c) in text.iter().enumerate() {
        if !reader.step(*c)? {
            return Ok(Err(PatternFault::Syntax(place)));
        }
    }
    if !reader.is_end() {
        return Ok(Err(PatternFault::Syntax(text.len())));
    }
    reader.finish()
}
