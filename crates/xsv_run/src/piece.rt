ghost use Rattle.std.specs.Prelude.{◌≡◌, ◌<◌, ◌≤◌, ◌+◌, length, false};
ghost use Rattle.xsv_io.specs.Causes.{KeepsCount};
ghost use Rattle.item_listing.specs.Listing.{bytes_taken};
ghost use Rattle.told.specs.Going.{trace};
ghost use Rattle.stream_answers.specs.inside.Turning.{IsStanding};
ghost use Rattle.xsv_run.specs.inside.Progress.{Pieces, StaysOpen, FailsRead, FailsWrite};

use crate::reader::Reader;
use item_listing::MOST_BYTES;
use std::alloc::Global;
use told::{BreakOff, Ending};
use xsv_io::{Sink, Source};
use xsv_steps::{Ledger, Steps};

/// One byte more than a stream has.
pub const ENOUGH: usize = MOST_BYTES + 1;

/// What a read has done.
#[derive(Clone, Copy)]
pub enum Piece {
    /// So many bytes came and were answered.
    Goes(usize),
    /// The source has ended.
    AtEnd,
    /// The read failed.
    Failed,
    /// The stream has ended, or the run was broken off.
    Ends(Result<Ending, BreakOff>),
}

/// Reads a piece of at most `room` bytes, and answers its lines.
pub fn take_piece<S: Source, W: Sink, L: Ledger>(
    alloc: Global,
    source: &mut S,
    reader: &mut Reader,
    buf: &mut [u8],
    room: usize,
    sink: &mut W,
    steps: &mut Steps<L>,
) -> Piece
    requires open { IsStanding reader.old.stream }
    requires going { reader.old.listing.finished ≡ false }
    requires room { bytes_taken reader.old.listing + room ≡ MOST_BYTES + 1 }
    requires some { 0 < room }
    requires buf { 0 < length buf.old }
    ensures takes { Pieces reader.old (S.rest source.old) (trace (W.taken sink.old) steps.old) reader.new (S.rest source.new) (trace (W.taken sink.new) steps.new) result }
    ensures stays { StaysOpen reader.new result }
    ensures reads { KeepsCount S.faults S.fault_bound source.old source.new (FailsRead result) }
    ensures writes { KeepsCount W.faults W.fault_bound sink.old sink.new (FailsWrite result) }
    ensures later { steps.old ≤ steps.new }
{
    let most = room.min(buf.len());
    match source.read(&mut buf[..most]) {
        Ok(0) => Piece::AtEnd,
        Ok(count) => match reader.take_bytes(alloc, &buf[..count], sink, steps) {
            Ok(None) => Piece::Goes(count),
            Ok(Some(ending)) => Piece::Ends(Ok(ending)),
            Err(why) => Piece::Ends(Err(why)),
        },
        Err(_) => Piece::Failed,
    }
}
