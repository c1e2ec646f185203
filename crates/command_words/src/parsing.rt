ghost use Rattle.std.specs.Prelude.{◌≡◌, true, IfOk, IfErr, IfSome, codes};
ghost use Rattle.clap.specs.Words.{HasMatchesOf, app_of, first_value, found_of, kind_of, takes};
ghost use Rattle.command_words.specs.Requests.{HasCount};
ghost use Rattle.command_words.specs.inside.Command.{given_by, texts, xsv};

use crate::Request;
use crate::request::read_request;
use clap::error::ErrorKind;
use clap::{Arg, ArgMatches, Command, Error};
use std::alloc::{AllocError, Global};

/// The one command: a command word, a number, a count, and an option with a value.
fn command<'a>(alloc: Global) -> Result<Command<'a>, AllocError>
    ensures { IfOk result (λ c. app_of c ≡ xsv) }
{
    Command::new(alloc, "xsv")
        .no_binary_name(true)
        .disable_help_flag(true)
        .disable_version_flag(true)
        .arg(Arg::new(alloc, "COMMAND").required(true))?
        .arg(Arg::new(alloc, "NUMBER"))?
        .arg(Arg::new(alloc, "COUNT"))?
        .arg(Arg::new(alloc, "max-errors").long("max-errors"))
}

/// Parses words by the one command.
pub fn parse<'a>(alloc: Global, words: &'a [&'a str]) -> Result<ArgMatches<'a>, Error>
    ensures matches { IfOk result (HasMatchesOf xsv (texts words.entry.now)) }
    ensures memory { IfErr result (λ e. takes xsv (texts words.entry.now) ≡ true → kind_of e ≡ ErrorKind.OutOfMemory) }
{
    command(alloc)?.try_get_matches_from(words)
}

/// What the matches ask for.
pub fn requested(matches: &ArgMatches<'_>) -> Option<Request>
    ensures asked { result ≡ given_by (first_value (found_of matches.now) (codes "COMMAND")) (first_value (found_of matches.now) (codes "NUMBER"))
        (first_value (found_of matches.now) (codes "COUNT")) (first_value (found_of matches.now) (codes "max-errors")) }
    ensures counted { IfSome result HasCount }
{
    read_request(
        matches.get_str("COMMAND"),
        matches.get_str("NUMBER"),
        matches.get_str("COUNT"),
        matches.get_str("max-errors"),
    )
}
