use xs_lists::Listed;
use xs_names::{Text, Texts};

/// The locations of a schema section.
pub type Locations = Texts;

/// What a line says.
#[derive(Drop)]
pub enum Item {
    /// `(name`: the start of an element.
    Start(Text),
    /// `Aname value`: an attribute of the element whose start came last.
    Attr(Text, Text),
    /// `-text`: characters.
    Chars(Text),
    /// `)name`: the end of an element.
    Close(Text),
    /// `?rest`: a processing instruction, which is not kept.
    Instruction,
    /// `schema`, and behind it a tab and a location, once or more: the start of a schema section.
    Schema(Locations),
    /// `document`: the start of the document section.
    Document,
    /// `edits`: the start of the edits section.
    Edits,
    /// `end`: the end of the stream.
    End,
    /// `.`: the end of a block.
    Dot,
    /// Any other line that begins with a letter from `a` to `z`, whole.
    Command(Text),
}

/// Items in the order of their lines.
pub type Items = Listed<Item>;

/// Why a line is refused.
#[derive(Clone, Copy)]
pub enum Reason {
    /// Its bytes are not UTF-8.
    NotUtf8,
    /// It is of no kind.
    BadStart,
    /// The name of an element or an attribute is empty.
    NoName,
    /// A backslash in a value or a text begins no escape.
    BadEscape,
    /// An attribute does not follow the start of an element or another attribute.
    BadAttributePlace,
    /// The source ended before the line `end`.
    EndMissing,
    /// A byte follows the line `end`.
    AfterEnd,
    /// The stream has more than 67,108,864 bytes.
    TooManyBytes,
    /// The line has more than 1,048,576 bytes before its line feed.
    LineTooLong,
}
