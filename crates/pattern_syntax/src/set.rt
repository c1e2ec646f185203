//! The sets of characters that have an escape of their own, and the wildcard.

ghost use Rattle.std.specs.Prelude.{◌≡◌};
ghost use Rattle.xs_names.specs.Characters.{is_name_start as starts_name, is_name_char as continues_name};
ghost use Rattle.pattern_syntax.specs.Sets.{in_set, in_block};

use ucd_category::{GeneralCategory, GeneralCategoryGroup};

/// A set of characters that an escape or the wildcard stands for (Datatypes, appendix F.1.1).
#[derive(Clone, Copy)]
pub enum CharSet {
    /// The wildcard `.`: every character but line feed and carriage return.
    NotLineEnd,
    /// `\s`: space, tab, line feed and carriage return.
    Space,
    /// `\i`: the characters that may begin a name.
    NameStart,
    /// `\c`: the characters of names.
    NameChar,
    /// `\d`: the decimal digits.
    Digit,
    /// `\w`: every character but punctuation, separators and others.
    Word,
    /// `\p{Lu}` and the like: the characters of a general category.
    InCategory(GeneralCategory),
    /// `\p{L}` and the like: the characters of a group of general categories.
    InGroup(GeneralCategoryGroup),
    /// `\p{IsBasicLatin}` and the like: the characters of a block.
    InBlock(Block),
}

/// A block of characters.
#[derive(Clone, Copy)]
pub enum Block {
    /// `IsBasicLatin`
    BasicLatin,
    /// `IsLatin-1Supplement`
    LatinOneSupplement,
    /// `IsLatinExtended-A`
    LatinExtendedA,
    /// `IsLatinExtended-B`
    LatinExtendedB,
}

impl CharSet {
    /// Whether the character is in the set.
    pub fn contains(self, c: char) -> bool
        ensures { result ≡ in_set self c }
    {
        match self {
            CharSet::NotLineEnd => c != '\n' && c != '\r',
            CharSet::Space => matches!(c, ' ' | '\t' | '\n' | '\r'),
            CharSet::NameStart => is_name_start(c),
            CharSet::NameChar => is_name_char(c),
            CharSet::Digit => GeneralCategory::for_char(c) == GeneralCategory::DecimalNumber,
            CharSet::Word => is_word_char(c),
            CharSet::InCategory(category) => GeneralCategory::for_char(c) == category,
            CharSet::InGroup(group) => group.contains(GeneralCategory::for_char(c)),
            CharSet::InBlock(block) => block.contains(c),
        }
    }
}

impl Block {
    fn contains(self, c: char) -> bool
        ensures { result ≡ in_block self c }
    {
        match self {
            Block::BasicLatin => matches!(c, '\0'..='\u{7F}'),
            Block::LatinOneSupplement => matches!(c, '\u{80}'..='\u{FF}'),
            Block::LatinExtendedA => matches!(c, '\u{100}'..='\u{17F}'),
            Block::LatinExtendedB => matches!(c, '\u{180}'..='\u{24F}'),
        }
    }
}

fn is_word_char(c: char) -> bool
    ensures { result ≡ in_set CharSet.Word c }
{
    let category = GeneralCategory::for_char(c);
    !GeneralCategoryGroup::Punctuation.contains(category)
        && !GeneralCategoryGroup::Separator.contains(category)
        && !GeneralCategoryGroup::Other.contains(category)
}

fn is_name_start(c: char) -> bool
    ensures { result ≡ starts_name c }
{
    matches!(c, ':' | 'A'..='Z' | '_' | 'a'..='z' | '\u{C0}'..='\u{D6}' | '\u{D8}'..='\u{F6}'
        | '\u{F8}'..='\u{2FF}' | '\u{370}'..='\u{37D}' | '\u{37F}'..='\u{1FFF}'
        | '\u{200C}'..='\u{200D}' | '\u{2070}'..='\u{218F}' | '\u{2C00}'..='\u{2FEF}'
        | '\u{3001}'..='\u{D7FF}' | '\u{F900}'..='\u{FDCF}' | '\u{FDF0}'..='\u{FFFD}'
        | '\u{10000}'..='\u{EFFFF}')
}

fn is_name_char(c: char) -> bool
    ensures { result ≡ continues_name c }
{
    is_name_start(c)
        || matches!(c, '-'..='.' | '0'..='9' | '\u{B7}' | '\u{300}'..='\u{36F}' | '\u{203F}'..='\u{2040}')
}
