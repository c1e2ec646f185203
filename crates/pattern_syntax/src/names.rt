//! The characters that have a part in the grammar, and the class names.

ghost use Rattle.std.specs.Prelude.{◌≡◌};
ghost use Rattle.pattern_syntax.specs.Characters as grammar;
ghost use Rattle.pattern_syntax.specs.Names as named;

use crate::{Block, CharSet, ClassItem, GeneralCategory, GeneralCategoryGroup};

/// Whether the character stands for itself outside classes.
pub(crate) fn is_normal(c: char) -> bool
    ensures { result ≡ grammar.is_normal c }
{
    !matches!(
        c,
        '.' | '\\' | '?' | '*' | '+' | '(' | ')' | '|' | '[' | ']' | '{'
    )
}

/// Whether the character stands for itself in a class, wherever it stands.
pub(crate) fn is_plain(c: char) -> bool
    ensures { result ≡ grammar.is_plain c }
{
    !matches!(c, '[' | ']' | '\\' | '-')
}

/// Whether the character may stand behind the backslash of an escape of one character.
pub(crate) fn is_single(c: char) -> bool
    ensures { result ≡ grammar.is_single c }
{
    matches!(
        c,
        'n' | 'r'
            | 't'
            | '\\'
            | '|'
            | '.'
            | '?'
            | '*'
            | '+'
            | '('
            | ')'
            | '{'
            | '}'
            | '-'
            | '['
            | ']'
            | '^'
    )
}

/// The character that such an escape stands for.
pub(crate) fn single_value(c: char) -> char
    ensures { result ≡ grammar.single_value c }
{
    match c {
        'n' => '\n',
        'r' => '\r',
        't' => '\t',
        _ => c,
    }
}

/// What an escape of several characters stands for.
pub(crate) fn several_item(c: char) -> Option<ClassItem>
    ensures { result ≡ grammar.several_item c }
{
    match c {
        's' => Some(ClassItem::In(CharSet::Space)),
        'S' => Some(ClassItem::NotIn(CharSet::Space)),
        'i' => Some(ClassItem::In(CharSet::NameStart)),
        'I' => Some(ClassItem::NotIn(CharSet::NameStart)),
        'c' => Some(ClassItem::In(CharSet::NameChar)),
        'C' => Some(ClassItem::NotIn(CharSet::NameChar)),
        'd' => Some(ClassItem::In(CharSet::Digit)),
        'D' => Some(ClassItem::NotIn(CharSet::Digit)),
        'w' => Some(ClassItem::In(CharSet::Word)),
        'W' => Some(ClassItem::NotIn(CharSet::Word)),
        _ => None,
    }
}

/// Whether the character may stand in a class name.
pub(crate) fn is_word(c: char) -> bool
    ensures { result ≡ grammar.is_word c }
{
    matches!(c, 'A'..='Z' | 'a'..='z' | '0'..='9' | '-')
}

/// The characters of the class of a name, where it is an accepted one.
pub(crate) fn set_named(name: &[u8]) -> Option<CharSet>
    ensures { result ≡ named.set_named name.now }
{
    match name {
        [] => None,
        [group] => group_named(*group),
        [group, category] => category_named(*group, *category),
        _ => block_named(name),
    }
}

fn group_named(group: u8) -> Option<CharSet>
    ensures { result ≡ named.group_named group }
{
    match group {
        b'L' => Some(CharSet::InGroup(GeneralCategoryGroup::Letter)),
        b'M' => Some(CharSet::InGroup(GeneralCategoryGroup::Mark)),
        b'N' => Some(CharSet::InGroup(GeneralCategoryGroup::Number)),
        b'P' => Some(CharSet::InGroup(GeneralCategoryGroup::Punctuation)),
        b'Z' => Some(CharSet::InGroup(GeneralCategoryGroup::Separator)),
        b'S' => Some(CharSet::InGroup(GeneralCategoryGroup::Symbol)),
        b'C' => Some(CharSet::InGroup(GeneralCategoryGroup::Other)),
        _ => None,
    }
}

fn category_named(group: u8, category: u8) -> Option<CharSet>
    ensures { result ≡ named.category_named group category }
{
    match group {
        b'L' => letter_named(category),
        b'M' => mark_named(category),
        b'N' => number_named(category),
        b'P' => punctuation_named(category),
        b'Z' => separator_named(category),
        b'S' => symbol_named(category),
        b'C' => other_named(category),
        _ => None,
    }
}

fn letter_named(category: u8) -> Option<CharSet>
    ensures { result ≡ named.letter_named category }
{
    match category {
        b'u' => Some(CharSet::InCategory(GeneralCategory::UppercaseLetter)),
        b'l' => Some(CharSet::InCategory(GeneralCategory::LowercaseLetter)),
        b't' => Some(CharSet::InCategory(GeneralCategory::TitlecaseLetter)),
        b'm' => Some(CharSet::InCategory(GeneralCategory::ModifierLetter)),
        b'o' => Some(CharSet::InCategory(GeneralCategory::OtherLetter)),
        _ => None,
    }
}

fn mark_named(category: u8) -> Option<CharSet>
    ensures { result ≡ named.mark_named category }
{
    match category {
        b'n' => Some(CharSet::InCategory(GeneralCategory::NonspacingMark)),
        b'c' => Some(CharSet::InCategory(GeneralCategory::SpacingMark)),
        b'e' => Some(CharSet::InCategory(GeneralCategory::EnclosingMark)),
        _ => None,
    }
}

fn number_named(category: u8) -> Option<CharSet>
    ensures { result ≡ named.number_named category }
{
    match category {
        b'd' => Some(CharSet::InCategory(GeneralCategory::DecimalNumber)),
        b'l' => Some(CharSet::InCategory(GeneralCategory::LetterNumber)),
        b'o' => Some(CharSet::InCategory(GeneralCategory::OtherNumber)),
        _ => None,
    }
}

fn punctuation_named(category: u8) -> Option<CharSet>
    ensures { result ≡ named.punctuation_named category }
{
    match category {
        b'c' => Some(CharSet::InCategory(GeneralCategory::ConnectorPunctuation)),
        b'd' => Some(CharSet::InCategory(GeneralCategory::DashPunctuation)),
        b's' => Some(CharSet::InCategory(GeneralCategory::OpenPunctuation)),
        b'e' => Some(CharSet::InCategory(GeneralCategory::ClosePunctuation)),
        b'i' => Some(CharSet::InCategory(GeneralCategory::InitialPunctuation)),
        b'f' => Some(CharSet::InCategory(GeneralCategory::FinalPunctuation)),
        b'o' => Some(CharSet::InCategory(GeneralCategory::OtherPunctuation)),
        _ => None,
    }
}

fn separator_named(category: u8) -> Option<CharSet>
    ensures { result ≡ named.separator_named category }
{
    match category {
        b's' => Some(CharSet::InCategory(GeneralCategory::SpaceSeparator)),
        b'l' => Some(CharSet::InCategory(GeneralCategory::LineSeparator)),
        b'p' => Some(CharSet::InCategory(GeneralCategory::ParagraphSeparator)),
        _ => None,
    }
}

fn symbol_named(category: u8) -> Option<CharSet>
    ensures { result ≡ named.symbol_named category }
{
    match category {
        b'm' => Some(CharSet::InCategory(GeneralCategory::MathSymbol)),
        b'c' => Some(CharSet::InCategory(GeneralCategory::CurrencySymbol)),
        b'k' => Some(CharSet::InCategory(GeneralCategory::ModifierSymbol)),
        b'o' => Some(CharSet::InCategory(GeneralCategory::OtherSymbol)),
        _ => None,
    }
}

fn other_named(category: u8) -> Option<CharSet>
    ensures { result ≡ named.other_named category }
{
    match category {
        b'c' => Some(CharSet::InCategory(GeneralCategory::Control)),
        b'f' => Some(CharSet::InCategory(GeneralCategory::Format)),
        b'o' => Some(CharSet::InCategory(GeneralCategory::PrivateUse)),
        b'n' => Some(CharSet::InCategory(GeneralCategory::Unassigned)),
        _ => None,
    }
}

fn block_named(name: &[u8]) -> Option<CharSet>
    ensures { result ≡ named.block_named name.now }
{
    if name == b"IsBasicLatin".as_slice() {
        Some(CharSet::InBlock(Block::BasicLatin))
    } else if name == b"IsLatin-1Supplement".as_slice() {
        Some(CharSet::InBlock(Block::LatinOneSupplement))
    } else if name == b"IsLatinExtended-A".as_slice() {
        Some(CharSet::InBlock(Block::LatinExtendedA))
    } else if name == b"IsLatinExtended-B".as_slice() {
        Some(CharSet::InBlock(Block::LatinExtendedB))
    } else {
        None
    }
}
