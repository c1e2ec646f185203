ghost use Rattle.std.specs.Prelude.{◌≡◌, true, Result, IfOk};
ghost use Rattle.tree_building.specs.Blocks as building;
ghost use Rattle.std.specs.Option.{option_copied};
ghost use Rattle.item_listing.specs.Escapes.{unescaped};
ghost use Rattle.edit_script.specs.declared.script.ScriptError.TheVariants as errors;
ghost use Rattle.edit_script.specs.Fields as fields;
ghost use Rattle.edit_script.specs.Commands as script;
ghost use Rattle.edit_script.specs.Faults.{Gives};
ghost use Rattle.edit_script.specs.declared.command.ScriptFault.{ScriptFault as Fault};
ghost use Rattle.tree_edits.specs.Edits.{can_be_made};
ghost use Rattle.tree_edits.specs.declared.edit.Edit.{Edit as EditData};

use crate::fields::{has_space, number, revision, split};
use crate::next::read_next;
use crate::{Command, ScriptFault};
use item_listing::{Items, unescape};
use std::alloc::{AllocError, Global};
use tree_building::is_one_element;
use tree_edits::Edit;
use xs_names::Text;

/// Why a line gave no command.
#[derive(Clone, Copy)]
pub enum ScriptError {
    Memory,
    Refused(ScriptFault),
}

impl From<AllocError> for ScriptError {
    ghost from_gives = { λ _ e. e ≡ errors.Memory };

    fn from(_: AllocError) -> Self {
        ScriptError::Memory
    }
}

impl From<ScriptFault> for ScriptError {
    ghost from_gives = { λ fault e. e ≡ errors.Refused fault };

    fn from(fault: ScriptFault) -> Self {
        ScriptError::Refused(fault)
    }
}

/// A node and a name.
#[derive(Drop)]
pub struct NodeAndName {
    pub node: u32,
    pub name: Text,
}

/// A text, with its escapes replaced.
fn read_text(alloc: Global, text: &str) -> Result<Text, ScriptError>
    ensures { Gives result (script.escaped (unescaped text.now)) }
{
    match unescape(alloc, text)? {
        Some(text) => Ok(text),
        None => Err(ScriptError::Refused(ScriptFault::BadEscape)),
    }
}

/// The items of a block that is one element.
fn read_block(alloc: Global, block: Option<Items>) -> Result<Items, ScriptError>
    ensures gives { Gives result (script.whole block) }
    ensures one { IfOk result (λ items. building.one_element items ≡ true) }
{
    let Some(items) = block else {
        return Err(ScriptError::Refused(ScriptFault::BadBlock));
    };
    if !is_one_element(alloc, items.as_slice())? {
        return Err(ScriptError::Refused(ScriptFault::BadBlock));
    }
    Ok(items)
}

/// A number that is the only field.
fn only_number(rest: Option<&str>) -> Result<u32, ScriptFault>
    ensures { result ≡ script.only_number (option_copied rest.entry) }
{
    let Some(field) = rest else {
        return Err(ScriptFault::WrongFields);
    };
    if has_space(field) {
        return Err(ScriptFault::WrongFields);
    }
    number(field)
}

fn read_insert(alloc: Global, rest: Option<&str>, block: Option<Items>) -> Result<Edit, ScriptError>
    ensures gives { Gives result (script.insert (option_copied rest.entry) block) }
    ensures ready { IfOk result (λ edit. can_be_made edit ≡ true) }
{
    let Some(rest) = rest else {
        return Err(ScriptError::Refused(ScriptFault::WrongFields));
    };
    let Some((parent, index)) = split(rest) else {
        return Err(ScriptError::Refused(ScriptFault::WrongFields));
    };
    if has_space(index) {
        return Err(ScriptError::Refused(ScriptFault::WrongFields));
    }
    let parent = number(parent)?;
    let index = number(index)?;
    let items = read_block(alloc, block)?;
    Ok(Edit::Insert {
        parent,
        index,
        items,
    })
}

fn read_add_text(alloc: Global, rest: Option<&str>) -> Result<Edit, ScriptError>
    ensures gives { Gives result (script.add_text (option_copied rest.entry)) }
    ensures ready { IfOk result (λ edit. can_be_made edit ≡ true) }
{
    let Some(rest) = rest else {
        return Err(ScriptError::Refused(ScriptFault::WrongFields));
    };
    let Some((parent, rest)) = split(rest) else {
        return Err(ScriptError::Refused(ScriptFault::WrongFields));
    };
    let Some((index, text)) = split(rest) else {
        return Err(ScriptError::Refused(ScriptFault::WrongFields));
    };
    let parent = number(parent)?;
    let index = number(index)?;
    let text = read_text(alloc, text)?;
    Ok(Edit::AddText {
        parent,
        index,
        text,
    })
}

fn read_set_text(alloc: Global, rest: Option<&str>) -> Result<Edit, ScriptError>
    ensures gives { Gives result (script.set_text (option_copied rest.entry)) }
    ensures ready { IfOk result (λ edit. can_be_made edit ≡ true) }
{
    let Some(rest) = rest else {
        return Err(ScriptError::Refused(ScriptFault::WrongFields));
    };
    let Some((field, text)) = split(rest) else {
        return Err(ScriptError::Refused(ScriptFault::WrongFields));
    };
    let node = number(field)?;
    let text = read_text(alloc, text)?;
    Ok(Edit::SetText { node, text })
}

/// A number and a name behind it, which are the only fields.
fn number_and_name(alloc: Global, rest: Option<&str>) -> Result<NodeAndName, ScriptError>
    ensures { Gives result (script.number_and_name (option_copied rest.entry)) }
{
    let Some(rest) = rest else {
        return Err(ScriptError::Refused(ScriptFault::WrongFields));
    };
    let Some((node, name)) = split(rest) else {
        return Err(ScriptError::Refused(ScriptFault::WrongFields));
    };
    if has_space(name) {
        return Err(ScriptError::Refused(ScriptFault::WrongFields));
    }
    let node = number(node)?;
    let name = Text::new(alloc, name)?;
    Ok(NodeAndName { node, name })
}

fn read_rename(alloc: Global, rest: Option<&str>) -> Result<Edit, ScriptError>
    ensures gives { Gives result (script.rename (option_copied rest.entry)) }
    ensures ready { IfOk result (λ edit. can_be_made edit ≡ true) }
{
    let NodeAndName { node, name } = number_and_name(alloc, rest)?;
    Ok(Edit::Rename { node, name })
}

fn read_set(alloc: Global, rest: Option<&str>) -> Result<Edit, ScriptError>
    ensures gives { Gives result (script.set (option_copied rest.entry)) }
    ensures ready { IfOk result (λ edit. can_be_made edit ≡ true) }
{
    let Some(rest) = rest else {
        return Err(ScriptError::Refused(ScriptFault::WrongFields));
    };
    let Some((node, rest)) = split(rest) else {
        return Err(ScriptError::Refused(ScriptFault::WrongFields));
    };
    let Some((name, value)) = split(rest) else {
        return Err(ScriptError::Refused(ScriptFault::WrongFields));
    };
    let node = number(node)?;
    let value = read_text(alloc, value)?;
    let name = Text::new(alloc, name)?;
    Ok(Edit::SetAttr { node, name, value })
}

fn read_unset(alloc: Global, rest: Option<&str>) -> Result<Edit, ScriptError>
    ensures gives { Gives result (script.unset (option_copied rest.entry)) }
    ensures ready { IfOk result (λ edit. can_be_made edit ≡ true) }
{
    let NodeAndName { node, name } = number_and_name(alloc, rest)?;
    Ok(Edit::UnsetAttr { node, name })
}

/// Whether nothing stands behind the word.
fn no_field(rest: Option<&str>) -> Result<(), ScriptFault>
    ensures { result ≡ script.no_field (option_copied rest.entry) }
{
    match rest {
        Some(_) => Err(ScriptFault::WrongFields),
        None => Ok(()),
    }
}

/// What a line says whose word is not that of an edit: a question, a step in the history, or another set.
fn read_other(word: &str, rest: Option<&str>) -> Result<Command, ScriptFault>
    ensures gives { result ≡ script.by_other_word word.now (option_copied rest.entry) }
    ensures ready { IfOk result script.IsReady }
{
    if word == "assess" {
        Ok(Command::Assess(only_number(rest)?))
    } else if word == "errors" {
        no_field(rest)?;
        Ok(Command::Errors)
    } else if word == "report" {
        no_field(rest)?;
        Ok(Command::Report)
    } else if word == "total" {
        no_field(rest)?;
        Ok(Command::Total)
    } else if word == "undo" {
        no_field(rest)?;
        Ok(Command::Undo)
    } else if word == "redo" {
        no_field(rest)?;
        Ok(Command::Redo)
    } else if word == "next" {
        read_next(rest)
    } else if word == "swap" {
        Ok(Command::Swap(only_number(rest)?))
    } else {
        Err(ScriptFault::UnknownCommand)
    }
}

/// Whether a word is that of an edit.
fn is_edit(word: &str) -> bool
    ensures { result ≡ script.is_edit word.now }
{
    word == "insert"
        || word == "addtext"
        || word == "text"
        || word == "remove"
        || word == "rename"
        || word == "set"
        || word == "unset"
}

/// The edit of a word with its fields and its block.
fn read_edit(
    alloc: Global,
    word: &str,
    rest: Option<&str>,
    block: Option<Items>,
) -> Result<Edit, ScriptError>
    ensures gives { Gives result (script.edit_of word.now (option_copied rest.entry) block) }
    ensures ready { IfOk result (λ edit. can_be_made edit ≡ true) }
{
    if word == "insert" {
        read_insert(alloc, rest, block)
    } else if word == "addtext" {
        read_add_text(alloc, rest)
    } else if word == "text" {
        read_set_text(alloc, rest)
    } else if word == "remove" {
        let node = only_number(rest)?;
        Ok(Edit::Remove { node })
    } else if word == "rename" {
        read_rename(alloc, rest)
    } else if word == "set" {
        read_set(alloc, rest)
    } else if word == "unset" {
        read_unset(alloc, rest)
    } else {
        Err(ScriptError::Refused(ScriptFault::UnknownCommand))
    }
}

/// The edit of a line with its block.
fn read_edit_line(alloc: Global, line: &str, block: Option<Items>) -> Result<Edit, ScriptError>
    ensures gives { Gives result (script.edit_on line.now block) }
    ensures ready { IfOk result (λ edit. can_be_made edit ≡ true) }
{
    match split(line) {
        Some((word, rest)) => read_edit(alloc, word, Some(rest), block),
        None => read_edit(alloc, line, None, block),
    }
}

/// An edit by an author, where the numbers in front of it are read; its own first faults come before theirs.
fn turn_by(
    author: Result<u32, ScriptFault>,
    seen: Result<u64, ScriptFault>,
    edit: Result<Edit, ScriptError>,
) -> Result<Command, ScriptError>
    ensures gives { (read : Result EditData Fault) → Gives edit read → Gives result (script.turn_by author seen read) }
    ensures ready { IfOk edit (λ edit. can_be_made edit ≡ true) → IfOk result script.IsReady }
{
    match edit {
        Err(ScriptError::Memory) => Err(ScriptError::Memory),
        Err(ScriptError::Refused(ScriptFault::UnknownCommand)) => {
            Err(ScriptError::Refused(ScriptFault::UnknownCommand))
        }
        Err(ScriptError::Refused(ScriptFault::WrongFields)) => {
            Err(ScriptError::Refused(ScriptFault::WrongFields))
        }
        edit => {
            let author = author?;
            let seen = seen?;
            let edit = edit?;
            Ok(Command::Turn { author, seen, edit })
        }
    }
}

fn read_turn(
    alloc: Global,
    rest: Option<&str>,
    block: Option<Items>,
) -> Result<Command, ScriptError>
    ensures gives { Gives result (script.turn (option_copied rest.entry) block) }
    ensures ready { IfOk result script.IsReady }
{
    let Some(rest) = rest else {
        return Err(ScriptError::Refused(ScriptFault::WrongFields));
    };
    let Some((author, rest)) = split(rest) else {
        return Err(ScriptError::Refused(ScriptFault::WrongFields));
    };
    let Some((seen, rest)) = split(rest) else {
        return Err(ScriptError::Refused(ScriptFault::WrongFields));
    };
    let edit = read_edit_line(alloc, rest, block);
    turn_by(number(author), revision(seen), edit)
}

fn read_by_word(
    alloc: Global,
    word: &str,
    rest: Option<&str>,
    block: Option<Items>,
) -> Result<Command, ScriptError>
    ensures gives { Gives result (script.by_word word.now (option_copied rest.entry) block) }
    ensures ready { IfOk result script.IsReady }
{
    if is_edit(word) {
        let edit = read_edit(alloc, word, rest, block)?;
        Ok(Command::Change(edit))
    } else if word == "as" {
        read_turn(alloc, rest, block)
    } else {
        Ok(read_other(word, rest)?)
    }
}

fn read_line(alloc: Global, line: &str, block: Option<Items>) -> Result<Command, ScriptError>
    ensures gives { Gives result (script.command line.now block) }
    ensures ready { IfOk result script.IsReady }
{
    match split(line) {
        Some((word, rest)) => read_by_word(alloc, word, Some(rest), block),
        None => read_by_word(alloc, line, None, block),
    }
}

/// What a line of a script says, without its line feed, or its first fault. `block` has the items of the
/// block that follows an `insert` line, by an author or not; other commands drop it. A change that is answered can be made,
/// where the tree takes it.
///
/// # Errors
///
/// `AllocError` is want of memory; a `ScriptFault` is the line's or the block's.
pub fn read_command(
    alloc: Global,
    line: &Text,
    block: Option<Items>,
) -> Result<Result<Command, ScriptFault>, AllocError>
    ensures command { IfOk result (λ read. read ≡ script.command line.now block) }
    ensures ready { IfOk result script.IsReadyOr }
{
    match read_line(alloc, line.as_str(), block) {
        Ok(command) => Ok(Ok(command)),
        Err(ScriptError::Memory) => Err(AllocError),
        Err(ScriptError::Refused(fault)) => Ok(Err(fault)),
    }
}
