ghost use Rattle.std.specs.Prelude.{◌≡◌, ◌+◌};

use item_listing::Reason;
use tree_building::{TreeFault, TreeReason};

/// Why a line of a stream is refused.
#[derive(Clone, Copy)]
pub enum Refusal {
    /// By its text, or by its place among the bytes.
    Line(Reason),
    /// Its item cannot stand in the section.
    BadSection,
    /// There are more than 256 schema sections.
    TooManySchemas,
    /// By the tree that it belongs to.
    Tree(TreeReason),
}

/// A line that is refused, by its number from 1.
#[derive(Clone, Copy)]
pub struct RefusedLine {
    pub line: u64,
    pub refusal: Refusal,
}

/// The item of this line cannot stand where it does.
pub fn misplaced(line: u32) -> RefusedLine
    ensures { result ≡ record { line = line; refusal = Refusal.BadSection } }
{
    RefusedLine {
        line: line as u64,
        refusal: Refusal::BadSection,
    }
}

/// A fault of the tree of a section that began at line `start`: its item names the line.
pub fn bad_tree(start: u32, fault: TreeFault) -> RefusedLine
    ensures { result ≡ record { line = start + 1 + fault.item; refusal = Refusal.Tree fault.reason } }
{
    RefusedLine {
        line: start as u64 + 1 + fault.item as u64,
        refusal: Refusal::Tree(fault.reason),
    }
}
