ghost use Rattle.std.specs.Prelude.{◌≡◌, ℕ, ◌+◌, ◌≤◌, ◌<◌, List, length};
ghost use Rattle.item_listing.specs.declared.limits.TheConstants.{MOST_BYTES};
ghost use Rattle.item_listing.specs.Listing.{and_line, at_next, opens, ends};
ghost use Rattle.item_listing.specs.State.{nothing_past};

use crate::{Item, Reason};

/// A line that is refused, by its number from 1.
#[derive(Clone, Copy)]
pub struct ListingFault {
    pub line: u32,
    pub reason: Reason,
}

/// What was read of a stream: how many bytes with the line feeds, how many lines, whether the line that was
/// read last was a start or an attribute, and whether it was `end`.
#[derive(Clone, Copy)]
pub struct Past {
    pub bytes: usize,
    pub lines: u32,
    pub tag_open: bool,
    pub ended: bool,
}

fn opens_tag(item: &Item) -> bool
    ensures { result ≡ opens item.now }
{
    matches!(item, Item::Start(_) | Item::Attr(..))
}

fn ends_stream(item: &Item) -> bool
    ensures { result ≡ ends item.now }
{
    matches!(item, Item::End)
}

impl Past {
    pub fn nothing() -> Self
        ensures { result ≡ nothing_past }
    {
        Past {
            bytes: 0,
            lines: 0,
            tag_open: false,
            ended: false,
        }
    }

    /// A further line, of this many bytes before its line feed.
    pub fn and_line(self, count: usize, item: &Item) -> Self
        requires bytes { self.bytes + count < MOST_BYTES }
        requires lines { self.lines ≤ self.bytes }
        ensures { (line : List ℕ) → length line ≡ count → result ≡ and_line self line item.now }
    {
        Past {
            bytes: self.bytes + count + 1,
            lines: self.lines + 1,
            tag_open: opens_tag(item),
            ended: ends_stream(item),
        }
    }

    /// A fault of the line that comes next.
    pub fn at_next(self, reason: Reason) -> ListingFault
        requires bytes { self.bytes ≤ MOST_BYTES }
        requires lines { self.lines ≤ self.bytes }
        ensures { result ≡ at_next self reason }
    {
        ListingFault {
            line: self.lines + 1,
            reason,
        }
    }
}
