ghost use Rattle.std.specs.Prelude.{◌≡◌, ◌≤◌, [], true, false, IfOk};
ghost use Rattle.xsv_io.specs.Causes.{KeepsCount};
ghost use Rattle.item_listing.specs.Listing.{bytes_taken};
ghost use Rattle.item_listing.specs.State.{unread};
ghost use Rattle.told.specs.Going.{Ends, trace};
ghost use Rattle.told.specs.Tells.{IsWriteFault};
ghost use Rattle.stream_answers.specs.inside.Turns.{unbegun};
ghost use Rattle.stream_answers.specs.inside.Turning.{IsStanding, stands};
ghost use Rattle.xsv_run.specs.inside.Progress.{TakesNext, Holds, Progresses, PausesBy, FeedsOn, PausesFedBy, to_tell};

use crate::next::{Next, next_of, refuse_line};
use item_listing::Listing;
use std::alloc::Global;
use stream_answers::{Stream, Wanted};
use told::{BreakOff, Ending};
use xsv_io::Sink;
use xsv_steps::{Ledger, Steps};

/// A stream that is read: the listing of its lines, and what answers them.
#[derive(Drop)]
pub struct Reader {
    pub listing: Listing,
    pub stream: Stream,
}

impl Reader {
    /// Nothing was read.
    pub fn new(alloc: Global, wanted: Wanted) -> Self
        ensures wanted { result.stream.wanted ≡ wanted }
        ensures unread { result.listing ≡ unread }
        ensures unbegun { stands result.stream ≡ unbegun }
        ensures open { IsStanding result.stream }
    {
        Reader {
            listing: Listing::new(alloc),
            stream: Stream::new(alloc, wanted),
        }
    }

    /// Answers the next item that the listing gives.
    fn take_next<W: Sink, L: Ledger>(
        &mut self,
        alloc: Global,
        sink: &mut W,
        steps: &mut Steps<L>,
    ) -> Result<Next, BreakOff>
        requires { IsStanding self.old.stream }
        ensures takes { TakesNext self.old (trace (W.taken sink.old) steps.old) self.new (trace (W.taken sink.new) steps.new) result }
        ensures holds { IfOk result (Holds self.old self.new) }
        ensures counted { bytes_taken self.new.listing ≡ bytes_taken self.old.listing }
        ensures finished { self.new.listing.finished ≡ self.old.listing.finished }
        ensures writes { KeepsCount W.faults W.fault_bound sink.old sink.new (IsWriteFault result) }
        ensures later { steps.old ≤ steps.new }
    {
        match self.listing.next_item() {
            Err(_) => Err(BreakOff::Memory),
            Ok(Err(fault)) => refuse_line(fault, sink),
            Ok(Ok(None)) => Ok(Next::Waits),
            Ok(Ok(Some(item))) => {
                let line = self.listing.line_count();
                next_of(self.stream.answer(alloc, line, item, sink, steps))
            }
        }
    }

    /// Answers all the items that the listing gives, each before it asks for the next, and answers how the stream ended, where it
    /// has.
    fn take_lines<W: Sink, L: Ledger>(
        &mut self,
        alloc: Global,
        sink: &mut W,
        steps: &mut Steps<L>,
    ) -> Result<Option<Ending>, BreakOff>
        requires { IsStanding self.old.stream }
        ensures progress { Progresses self.old (trace (W.taken sink.old) steps.old) self.new (trace (W.taken sink.new) steps.new) result }
        ensures pauses { IfOk result (PausesBy self.new) }
        ensures counted { bytes_taken self.new.listing ≡ bytes_taken self.old.listing }
        ensures finished { self.new.listing.finished ≡ self.old.listing.finished }
        ensures writes { KeepsCount W.faults W.fault_bound sink.old sink.new (IsWriteFault result) }
        ensures later { steps.old ≤ steps.new }
    {
        'lines: loop {
            match self.take_next(alloc, sink, steps) {
                Ok(Next::Goes) => {}
                Ok(Next::Waits) => return Ok(None),
                Ok(Next::Ends(ending)) => return Ok(Some(ending)),
                Err(why) => return Err(why),
            }
        }
    }

    /// Answers the lines of a piece that was read.
    pub fn take_bytes<W: Sink, L: Ledger>(
        &mut self,
        alloc: Global,
        bytes: &[u8],
        sink: &mut W,
        steps: &mut Steps<L>,
    ) -> Result<Option<Ending>, BreakOff>
        requires open { IsStanding self.old.stream }
        requires going { self.old.listing.finished ≡ false }
        ensures takes { FeedsOn self.old (trace (W.taken sink.old) steps.old) bytes.now self.new (trace (W.taken sink.new) steps.new) result }
        ensures pauses { IfOk result (PausesFedBy self.old bytes.now self.new) }
        ensures writes { KeepsCount W.faults W.fault_bound sink.old sink.new (IsWriteFault result) }
        ensures later { steps.old ≤ steps.new }
    {
        match self.listing.feed(bytes) {
            Ok(()) => self.take_lines(alloc, sink, steps),
            Err(_) => Err(BreakOff::Memory),
        }
    }

    /// The source has ended: answers what is left.
    pub fn finish<W: Sink, L: Ledger>(
        &mut self,
        alloc: Global,
        sink: &mut W,
        steps: &mut Steps<L>,
    ) -> Result<Ending, BreakOff>
        requires { IsStanding self.old.stream }
        ensures ends { Ends (to_tell self.old [] true) result (trace (W.taken sink.old) steps.old) (trace (W.taken sink.new) steps.new) }
        ensures writes { KeepsCount W.faults W.fault_bound sink.old sink.new (IsWriteFault result) }
        ensures later { steps.old ≤ steps.new }
    {
        self.listing.finish();
        match self.take_lines(alloc, sink, steps) {
            Ok(None) => self.stream.finish(self.listing.line_count(), sink),
            Ok(Some(ending)) => Ok(ending),
            Err(why) => Err(why),
        }
    }
}
