ghost use Rattle.std.specs.Prelude.{◌≡◌, ℕ, ◌≤◌, List, length};
ghost use Rattle.item_listing.specs.Limits.{past_limit, whole_past, byte_after_end};

use crate::Reason;

/// Bytes of a stream, at most.
pub const MOST_BYTES: usize = 67_108_864;

/// Bytes of a line before its line feed, at most.
pub const MOST_LINE: usize = 1_048_576;

/// The limit that so many bytes of a line pass, its line feed apart, behind so many bytes of the stream.
pub fn begun_limit(before: usize, count: usize) -> Option<Reason>
    requires { before ≤ MOST_BYTES }
    ensures { (line : List ℕ) → length line ≡ count → result ≡ past_limit before 0 line }
{
    let room = MOST_BYTES - before;
    if room <= MOST_LINE {
        if room < count {
            Some(Reason::TooManyBytes)
        } else {
            None
        }
    } else if MOST_LINE < count {
        Some(Reason::LineTooLong)
    } else {
        None
    }
}

/// The limit that a line of so many bytes passes with its line feed, behind so many bytes of the stream.
pub fn whole_limit(before: usize, count: usize) -> Option<Reason>
    requires { before ≤ MOST_BYTES }
    ensures { (line : List ℕ) → length line ≡ count → result ≡ whole_past before line }
{
    match begun_limit(before, count) {
        Some(reason) => Some(reason),
        None if MOST_BYTES - before <= count => Some(Reason::TooManyBytes),
        None => None,
    }
}

/// Why a byte after `end` is refused, behind so many bytes of the stream.
pub fn byte_after_end(before: usize) -> Reason
    ensures { result ≡ byte_after_end before }
{
    if MOST_BYTES <= before {
        Reason::TooManyBytes
    } else {
        Reason::AfterEnd
    }
}
