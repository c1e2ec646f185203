ghost use Rattle.std.specs.Prelude.{◌≡◌, ◌+◌, Some, IfSome};
ghost use Rattle.item_listing.specs.declared.limits.TheConstants.{MOST_BYTES};
ghost use Rattle.item_listing.specs.State.{unread};
ghost use Rattle.told.specs.Going.{trace};
ghost use Rattle.stream_answers.specs.inside.Turns.{unbegun};
ghost use Rattle.stream_answers.specs.inside.Turning.{IsStanding, stands};
ghost use Rattle.xsv_run.specs.Output.{Answers, BreaksOff, Reads};
ghost use Rattle.xsv_run.specs.Sides.{HasCauses};
ghost use Rattle.xsv_run.specs.Taking.{TakesAtMost};

use crate::Status;
use crate::piece::{ENOUGH, Piece, take_piece};
use crate::reader::Reader;
use std::alloc::Global;
use std::mem::ManuallyDrop;
use stream_answers::{Wanted, places_answer_sections};
use xsv_io::{Sink, Source};
use xsv_steps::{Ledger, Steps};

/// Answers a stream of which nothing was read, line by line.
fn take_pieces<S: Source, W: Sink, L: Ledger>(
    alloc: Global,
    source: &mut S,
    reader: &mut Reader,
    sink: &mut W,
    steps: &mut Steps<L>,
) -> Status
    requires unread { reader.old.listing ≡ unread }
    requires unbegun { stands reader.old.stream ≡ unbegun }
    requires open { IsStanding reader.old.stream }
    ensures output { IfSome (S.rest source.old) (λ bytes. Answers reader.old.stream.wanted bytes result (trace (W.taken sink.old) steps.old) (trace (W.taken sink.new) steps.new)) }
    ensures broken { result ≡ Status.ReadFault → BreaksOff reader.old.stream.wanted (S.rest source.old) (S.rest source.new) (W.taken sink.old) (W.taken sink.new) }
    ensures answered { result ≡ Status.Words → ⊥ }
    ensures few { TakesAtMost (MOST_BYTES + 1) (S.rest source.old) (S.rest source.new) }
    ensures causes { HasCauses S.faults S.fault_bound W.faults W.fault_bound source.old source.new sink.old sink.new steps.old steps.new result }
{
    places_answer_sections();
    let mut room = ENOUGH;
    let mut buf = [0u8; 4096];
    'pieces: loop {
        match take_piece(alloc, source, reader, &mut buf, room, sink, steps) {
            Piece::Goes(count) => room -= count,
            Piece::AtEnd => return Status::of_stream(reader.finish(alloc, sink, steps)),
            Piece::Failed => return Status::ReadFault,
            Piece::Ends(ended) => return Status::of_stream(ended),
        }
    }
}

/// Answers a stream, line by line.
pub fn answer_stream<S: Source, W: Sink, L: Ledger>(
    alloc: Global,
    wanted: Wanted,
    source: &mut S,
    sink: &mut W,
    steps: &mut Steps<L>,
) -> Status
    ensures reads { Reads wanted result (trace (W.taken sink.old) steps.old) (trace (W.taken sink.new) steps.new) (S.rest source.old) (S.rest source.new) }
    ensures few { TakesAtMost (MOST_BYTES + 1) (S.rest source.old) (S.rest source.new) }
    ensures causes { HasCauses S.faults S.fault_bound W.faults W.fault_bound source.old source.new sink.old sink.new steps.old steps.new result }
{
    // The reader is held here, where there is one way out, and the loop only changes it.
    let mut reader = Reader::new(alloc, wanted);
    let status = take_pieces(alloc, source, &mut reader, sink, steps);
    // The program ends behind this, and its memory with it: to let go of each node and each record would take a tenth of the time.
    let _left = ManuallyDrop::new(reader);
    status
}
