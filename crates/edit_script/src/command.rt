ghost use Rattle.std.specs.Prelude.{◌≡◌};
ghost use Rattle.edit_script.specs.Faults.{number_of, name_of};

use tree_edits::Edit;

/// A command of a script.
#[derive(Drop)]
pub enum Command {
    /// `insert`, `addtext`, `text`, `remove`, `rename`, `set` or `unset`: a change of the tree.
    Change(Edit),
    /// `assess N`: a question for the record of an element.
    Assess(u32),
    /// `errors`: a question for the records that have a code, and the number of codes.
    Errors,
    /// `report`: a question for all records, and the number of codes.
    Report,
    /// `total`: a question for the number of codes.
    Total,
    /// `undo`: back to the tree from before the last change.
    Undo,
    /// `redo`: on to the tree that was left by the last undo.
    Redo,
    /// `next P I`: a question for the names that may stand before the child at a place of an element.
    Next { parent: u32, index: u32 },
    /// `swap K`: another schema set, which starts at a schema section.
    Swap(u32),
    /// `as A V EDIT`: a change of the tree by an author who had seen a revision.
    Turn { author: u32, seen: u64, edit: Edit },
}

/// Why a line is no command.
#[derive(Clone, Copy)]
pub enum ScriptFault {
    /// The first word is that of no command.
    UnknownCommand,
    /// There are too few fields, or too many.
    WrongFields,
    /// A number is not decimal digits, or it is above 4,294,967,295, a revision above 18,446,744,073,709,551,615.
    BadNumber,
    /// A backslash in the text begins no escape.
    BadEscape,
    /// The block is not one whole element.
    BadBlock,
}

impl ScriptFault {
    /// The number by which refusals are ordered and printed.
    pub fn number(self) -> u8
        ensures { result ≡ number_of self }
    {
        match self {
            ScriptFault::UnknownCommand => 20,
            ScriptFault::WrongFields => 21,
            ScriptFault::BadNumber => 22,
            ScriptFault::BadEscape => 23,
            ScriptFault::BadBlock => 24,
        }
    }

    /// The name as it is printed.
    pub fn name(self) -> &'static str
        ensures { result.now ≡ name_of self }
    {
        match self {
            ScriptFault::UnknownCommand => "UnknownCommand",
            ScriptFault::WrongFields => "WrongFields",
            ScriptFault::BadNumber => "BadNumber",
            ScriptFault::BadEscape => "BadEscape",
            ScriptFault::BadBlock => "BadBlock",
        }
    }
}
