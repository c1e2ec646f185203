ghost use Rattle.std.specs.Prelude.{◌≡◌, ◌∷◌, ◌<◌, Ok, IfOk};
ghost use Rattle.item_listing.specs.declared.line.LineError.TheVariants.{Memory};
ghost use Rattle.item_listing.specs.Items as listed;
ghost use Rattle.item_listing.specs.Items.{Gives};

use crate::escape::{after_first_byte, unescape};
use crate::locations::read_locations;
use crate::names::RecentNames;
use crate::{Item, Reason};
use std::alloc::{AllocError, Global};
use std::str;
use xs_names::Text;

/// Why a line gave no item.
#[derive(Clone, Copy)]
pub enum LineError {
    Memory,
    Refused(Reason),
}

impl From<AllocError> for LineError {
    ghost from_gives = { λ _ e. e ≡ Memory };

    fn from(_: AllocError) -> Self {
        LineError::Memory
    }
}

fn read_name(names: &mut RecentNames, name: &str) -> Result<Text, LineError>
    ensures { Gives result (listed.name_of name.now) }
{
    if name.is_empty() {
        return Err(LineError::Refused(Reason::NoName));
    }
    Ok(names.text(name)?)
}

fn read_text(alloc: Global, text: &str) -> Result<Text, LineError>
    ensures { Gives result (listed.text_of text.now) }
{
    match unescape(alloc, text)? {
        Some(text) => Ok(text),
        None => Err(LineError::Refused(Reason::BadEscape)),
    }
}

/// The parts of a text before and behind its first space, the whole and nothing where there is none.
fn split_at_space(text: &str) -> (&str, &str)
    ensures name { result.0.now ≡ listed.attribute_name text.now }
    ensures value { result.1.now ≡ listed.attribute_value text.now }
{
    match text.split_once(' ') {
        Some((name, value)) => (name, value),
        None => (text, ""),
    }
}

#[tactic(auto, unfolding(crate::specs::Items::attribute))]
fn read_attribute(names: &mut RecentNames, tag_open: bool, rest: &str) -> Result<Item, LineError>
    ensures { Gives result (listed.attribute tag_open rest.now) }
{
    let (name, value) = split_at_space(rest);
    let name = read_name(names, name)?;
    let value = read_text(names.alloc(), value)?;
    if tag_open {
        Ok(Item::Attr(name, value))
    } else {
        Err(LineError::Refused(Reason::BadAttributePlace))
    }
}

fn read_word(alloc: Global, line: &str) -> Result<Item, LineError>
    ensures { Gives result (Ok (listed.worded line.now)) }
{
    if line == "document" {
        Ok(Item::Document)
    } else if line == "edits" {
        Ok(Item::Edits)
    } else if line == "end" {
        Ok(Item::End)
    } else {
        match line.strip_prefix("schema\t") {
            Some(locations) => Ok(Item::Schema(read_locations(alloc, locations)?)),
            None => Ok(Item::Command(Text::new(alloc, line)?)),
        }
    }
}

#[tactic(auto, unfolding(crate::specs::Items::by_first))]
fn read_by_first(
    names: &mut RecentNames,
    tag_open: bool,
    line: &str,
    first: u8,
    rest: &str,
) -> Result<Item, LineError>
    requires { line.now ≡ first ∷ rest.now }
    ensures { Gives result (listed.by_first tag_open line.now first rest.now) }
{
    match first {
        b'(' => Ok(Item::Start(read_name(names, rest)?)),
        b'A' => read_attribute(names, tag_open, rest),
        b'-' => Ok(Item::Chars(read_text(names.alloc(), rest)?)),
        b')' => Ok(Item::Close(read_name(names, rest)?)),
        b'?' => Ok(Item::Instruction),
        b'.' if rest.is_empty() => Ok(Item::Dot),
        b'a'..=b'z' => read_word(names.alloc(), line),
        _ => Err(LineError::Refused(Reason::BadStart)),
    }
}

fn read_started(names: &mut RecentNames, tag_open: bool, line: &str) -> Result<Item, LineError>
    ensures { Gives result (listed.started tag_open line.now) }
{
    match line.as_bytes().first() {
        Some(first) if *first < 128 => read_by_first(
            names,
            tag_open,
            line,
            *first,
            after_first_byte(line),
        ),
        Some(_) => Err(LineError::Refused(Reason::BadStart)),
        None => Err(LineError::Refused(Reason::BadStart)),
    }
}

/// What a line says, by its text.
pub fn read_line(names: &mut RecentNames, tag_open: bool, line: &[u8]) -> Result<Item, LineError>
    ensures { Gives result (listed.item tag_open line.now) }
{
    match str::from_utf8(line) {
        Ok(text) => read_started(names, tag_open, text),
        Err(_) => Err(LineError::Refused(Reason::NotUtf8)),
    }
}

/// What a line says, without its line feed, or the first reason why it is refused. The line before it
/// was a start or an attribute if `tag_open`.
///
/// # Errors
///
/// `AllocError` is want of memory; a `Reason` is the line's.
pub fn read_item(
    alloc: Global,
    tag_open: bool,
    line: &[u8],
) -> Result<Result<Item, Reason>, AllocError>
    ensures { IfOk result (λ read. read ≡ listed.item tag_open line.now) }
{
    let mut names = RecentNames::new(alloc);
    match read_line(&mut names, tag_open, line) {
        Ok(item) => Ok(Ok(item)),
        Err(LineError::Memory) => Err(AllocError),
        Err(LineError::Refused(reason)) => Ok(Err(reason)),
    }
}
