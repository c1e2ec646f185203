ghost use Rattle.std.specs.Prelude.{◌≡◌, IfSome};
ghost use Rattle.std.specs.Option.{option_copied};
ghost use Rattle.command_words.specs.Requests as requests;
ghost use Rattle.command_words.specs.Requests.{HasCount};
ghost use Rattle.command_words.specs.inside.Command.{given_by};

use crate::number::{read_between, read_number};

/// How many record lines `errors` writes at most where the option is not given.
pub const USUAL_MOST: u32 = 100;

/// The most items of a generated stream.
const MOST_ITEMS: u32 = 100_000;

/// What a stream is read for.
#[derive(Clone, Copy, PartialEq)]
pub enum Task {
    /// Whether the schema is accepted.
    Check,
    /// A report on the document.
    Assess,
    /// The replies to the edits of the document.
    Session,
}

/// What the words of a command line ask for.
#[derive(Clone, Copy, PartialEq)]
pub enum Request {
    /// A stream is read; `errors` writes so many record lines at most.
    Read(Task, u32),
    /// A stream is generated from a number, with so many items.
    Generate(u64, u32),
    /// A session runs over the stream that is generated from a number, with so many items.
    Trial(u64, u32),
}

/// The task that a word names.
fn read_task(word: &str) -> Option<Task>
    ensures { result ≡ requests.task word.now }
{
    if word == "check" {
        Some(Task::Check)
    } else if word == "assess" {
        Some(Task::Assess)
    } else if word == "session" {
        Some(Task::Session)
    } else {
        None
    }
}

/// How many record lines are written at most, by the value of the option.
fn read_most(value: Option<&str>) -> Option<u32>
    ensures { result ≡ requests.most (option_copied value.entry) }
{
    match value {
        None => Some(USUAL_MOST),
        Some(value) => read_between(value, 0, u32::MAX),
    }
}

/// A stream is read.
pub fn read_stream(command: &str, value: Option<&str>) -> Option<Request>
    ensures asked { result ≡ requests.read_by (requests.task command.now) (requests.most (option_copied value.entry)) }
    ensures counted { IfSome result HasCount }
{
    let task = read_task(command)?;
    let most = read_most(value)?;
    Some(Request::Read(task, most))
}

/// A stream is generated.
pub fn read_generated(command: &str, number: &str, count: &str) -> Option<Request>
    ensures asked { result ≡ requests.generated command.now number.now count.now }
    ensures counted { IfSome result HasCount }
{
    let number = read_number(number)?;
    let count = read_between(count, 1, MOST_ITEMS)?;
    if command == "generate" {
        Some(Request::Generate(number, count))
    } else if command == "trial" {
        Some(Request::Trial(number, count))
    } else {
        None
    }
}

/// What a command asks for, with a number and a count, or with the value of the option.
pub fn read_request(
    command: Option<&str>,
    number: Option<&str>,
    count: Option<&str>,
    value: Option<&str>,
) -> Option<Request>
    ensures asked { result ≡ given_by (option_copied command.entry) (option_copied number.entry)
        (option_copied count.entry) (option_copied value.entry) }
    ensures counted { IfSome result HasCount }
{
    let command = command?;
    match number {
        None => read_stream(command, value),
        Some(number) => read_generated(command, number, count?),
    }
}
