ghost use Rattle.std.specs.Prelude.{◌≡◌, true, is_some, IfOk, IfErr, IfSome};
ghost use Rattle.command_words.specs.Requests.{HasCount, request};
ghost use Rattle.command_words.specs.inside.Command.{texts};

use crate::Request;
use crate::grammar::are_accepted;
use crate::parsing::{parse, requested};
use clap::error::ErrorKind;
use std::alloc::{AllocError, Global};
use xs_names::Text;

/// Why the words of a command line were not read.
#[derive(Clone, Copy)]
pub enum WordsFault {
    /// Memory was wanting.
    Memory,
    /// A word is not UTF-8.
    NotText,
}

/// The words as `clap` reads them.
fn texts_of(alloc: Global, words: &[Text]) -> Result<Vec<&str>, AllocError>
    ensures { IfOk result (λ read. texts read.items ≡ words.now) }
{
    let mut read = Vec::new(alloc);
    for word in words {
        read.push(word.as_str())?;
    }
    Ok(read)
}

/// What the program's words ask for, by what `clap` finds in them.
fn read_accepted(alloc: Global, words: &[Text]) -> Result<Option<Request>, AllocError>
    requires { is_some (request words.now) ≡ true }
    ensures asked { IfOk result (λ asked. asked ≡ request words.now) }
    ensures counted { IfOk result (λ asked. IfSome asked HasCount) }
{
    let read = texts_of(alloc, words)?;
    match parse(alloc, read.as_slice()) {
        Ok(matches) => Ok(requested(&matches)),
        Err(error) => match error.kind() {
            ErrorKind::OutOfMemory => Err(AllocError),
            _ => Ok(None),
        },
    }
}

/// What the words behind the program's name ask for, `None` where they are none of the program's:
///
/// - `check`, `assess` or `session`, and before or behind it perhaps `--max-errors` and a number in the next word or, behind an
///   equals sign, in the same;
/// - `generate` or `trial`, a number, and a count from 1 to 100,000.
///
/// # Errors
///
/// `AllocError` where the program's words find no memory.
pub fn read_words(alloc: Global, words: &[Text]) -> Result<Option<Request>, AllocError>
    ensures asked { IfOk result (λ asked. asked ≡ request words.now) }
    ensures counted { IfOk result (λ asked. IfSome asked HasCount) }
    ensures memory { IfErr result (λ _. is_some (request words.now) ≡ true) }
{
    if !are_accepted(words) {
        return Ok(None);
    }
    read_accepted(alloc, words)
}
