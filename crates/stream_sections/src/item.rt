ghost use Rattle.std.specs.Prelude.{◌≡◌};
ghost use Rattle.stream_sections.specs.Lines as lines;

use crate::Asked;
use item_listing::Item;

/// Whether an item is one of a tree: it may stand in a schema section, in the document section and in a block.
pub fn is_listing(item: &Item) -> bool
    ensures { result ≡ lines.is_listing item.now }
{
    matches!(
        item,
        Item::Start(_) | Item::Attr(..) | Item::Chars(_) | Item::Close(_) | Item::Instruction
    )
}

/// Whether an item ends the schema sections: `end` where no document is asked for, else `document`.
pub fn ends_schemas(asked: Asked, item: &Item) -> bool
    ensures { result ≡ lines.ends_schemas asked item.now }
{
    match asked {
        Asked::Check => matches!(item, Item::End),
        Asked::Assess | Asked::Session => matches!(item, Item::Document),
    }
}

/// The first word of a text.
fn first_word(text: &str) -> &str
    ensures { result.now ≡ lines.first_word text.now }
{
    match text.split_once(' ') {
        Some((word, _)) => word,
        None => text,
    }
}

/// What is behind the first word of a text and its space; nothing where it has no space.
fn behind_word(text: &str) -> &str
    ensures { result.now ≡ lines.behind_word text.now }
{
    match text.split_once(' ') {
        Some((_, rest)) => rest,
        None => "",
    }
}

/// Whether a block follows a command: its first word is `insert`, or its first is `as` and its fourth is `insert`.
pub fn opens_block(line: &str) -> bool
    ensures { result ≡ lines.opens_block line.now }
{
    let word = first_word(line);
    if word == "insert" {
        return true;
    }
    let edit = behind_word(behind_word(behind_word(line)));
    word == "as" && first_word(edit) == "insert"
}
