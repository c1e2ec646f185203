ghost use Rattle.std.specs.Prelude.{◌≡◌, ◌≤◌, ℕ, None, IfOk};
ghost use Rattle.xsv_io.specs.Causes.{KeepsCount};
ghost use Rattle.told.specs.Told.{Told};
ghost use Rattle.told.specs.Going.{Answers, Ends, trace};
ghost use Rattle.told.specs.Tells.{Tells, IsWriteFault};
ghost use Rattle.stream_answers.specs.Output as output;
ghost use Rattle.stream_answers.specs.inside.Turns.{Spot, turned, finished, unbegun};
ghost use Rattle.stream_answers.specs.inside.Turning.{IsStanding, stands, behind, moved, MovesOpen};

use crate::commands::answer_commands;
use crate::document::answer_document;
use crate::ending::ending_of;
use crate::refusal::write_refusal;
use crate::schemas::answer_schemas;
use crate::turn::{Turn, refuse, settle};
use crate::{Place, Wanted};
use item_listing::{Item, Reason};
use open_document::{Verdict, Workspace, write_answer};
use report_text::validity_word;
use std::alloc::Global;
use stream_sections::{Refusal, RefusedLine, SchemaReader};
use told::{BreakOff, Ending};
use xsv_io::{Part, Sink};
use xsv_steps::{Ledger, Steps};

/// A stream that is answered: what it is read for, where it stands, and what it works on.
#[derive(Drop)]
pub struct Stream {
    pub wanted: Wanted,
    pub place: Place,
    pub work: Workspace,
}

/// Writes the last line.
fn write_verdict<W: Sink>(sink: &mut W, verdict: &Verdict) -> Result<Ending, BreakOff>
    ensures tells { Tells W.taken W.faults W.fault_bound sink.old sink.new result (output.end_line verdict.now) }
    ensures ending { IfOk result (λ ending. ending ≡ output.ending_of verdict.now.validity) }
{
    write_answer(
        sink,
        &[
            Part::Text("end "),
            Part::Text(validity_word(verdict.validity)),
            Part::Text(" "),
            Part::Number(verdict.total),
            Part::Text("\n"),
        ],
    )?;
    Ok(ending_of(verdict.validity))
}

impl Stream {
    /// A stream of which nothing was read.
    pub fn new(alloc: Global, wanted: Wanted) -> Self
        ensures wanted { result.wanted ≡ wanted }
        ensures stands { stands result ≡ unbegun }
        ensures open { IsStanding result }
    {
        Stream {
            wanted,
            place: Place::Schemas(SchemaReader::new(alloc)),
            work: Workspace::new(),
        }
    }

    /// Answers an item, where the stream stands.
    fn take<W: Sink, L: Ledger>(
        &mut self,
        alloc: Global,
        line: u32,
        item: Item,
        sink: &mut W,
        steps: &mut Steps<L>,
    ) -> Result<Turn, BreakOff>
        requires { IsStanding self.old }
        ensures takes { (next : Spot → Told) → Answers (turned self.old.wanted line (stands self.old) item next) result
            (trace (W.taken sink.old) steps.old) (trace (W.taken sink.new) steps.new) (moved next self.new.place self.new.work) }
        ensures open { IfOk result (MovesOpen self.new.place self.new.work) }
        ensures wanted { self.new.wanted ≡ self.old.wanted }
        ensures writes { KeepsCount W.faults W.fault_bound sink.old sink.new (IsWriteFault result) }
        ensures later { steps.old ≤ steps.new }
    {
        match &mut self.place {
            Place::Schemas(reader) => match reader.take(alloc, self.wanted.asked, line, item) {
                Ok(turn) => {
                    answer_schemas(alloc, self.wanted.asked, line, turn, &mut self.work, sink)
                }
                Err(_) => Err(BreakOff::Memory),
            },
            Place::Document(reader) => match reader.take(alloc, self.wanted.asked, line, item) {
                Ok(turn) => answer_document(alloc, self.wanted, turn, &mut self.work, sink, steps),
                Err(_) => Err(BreakOff::Memory),
            },
            Place::Commands(reader) => match reader.take(alloc, line, item) {
                Ok(turn) => answer_commands(alloc, turn, &mut self.work, sink, steps),
                Err(_) => Err(BreakOff::Memory),
            },
            Place::Ended(_) => refuse(
                sink,
                RefusedLine {
                    line: line as u64,
                    refusal: Refusal::BadSection,
                },
            ),
        }
    }

    /// Answers the item of a line, by its number from 1, and answers how the stream ended, where it has.
    ///
    /// # Errors
    ///
    /// `Memory` is want of memory, and nothing was written. `WriteFault` where the sink failed; a front of the answer was then
    /// written. The stream is then of no use.
    pub fn answer<W: Sink, L: Ledger>(
        &mut self,
        alloc: Global,
        line: u32,
        item: Item,
        sink: &mut W,
        steps: &mut Steps<L>,
    ) -> Result<Option<Ending>, BreakOff>
        requires { IsStanding self.old }
        ensures takes { (next : Spot → Told) → Answers (turned self.old.wanted line (stands self.old) item next) result
            (trace (W.taken sink.old) steps.old) (trace (W.taken sink.new) steps.new) (behind next (stands self.new)) }
        ensures open { IfOk result (λ ended. ended ≡ None → IsStanding self.new) }
        ensures wanted { self.new.wanted ≡ self.old.wanted }
        ensures writes { KeepsCount W.faults W.fault_bound sink.old sink.new (IsWriteFault result) }
        ensures later { steps.old ≤ steps.new }
    {
        match self.take(alloc, line, item, sink, steps) {
            Ok(turn) => Ok(settle(&mut self.place, turn)),
            Err(why) => Err(why),
        }
    }

    /// Writes the last line, where the source has ended behind so many lines, and answers how the stream ended. Where the word
    /// `end` has not come, the line that would be next is refused.
    ///
    /// # Errors
    ///
    /// `WriteFault` where the sink failed; a front was then written.
    pub fn finish<W: Sink>(&self, lines: u32, sink: &mut W) -> Result<Ending, BreakOff>
        requires { IsStanding self.now }
        ensures ends { (n : ℕ) → Ends (finished lines (stands self.now)) result (trace (W.taken sink.old) n) (trace (W.taken sink.new) n) }
        ensures writes { KeepsCount W.faults W.fault_bound sink.old sink.new (IsWriteFault result) }
    {
        match &self.place {
            Place::Ended(None) => Ok(Ending::Valid),
            Place::Ended(Some(verdict)) => write_verdict(sink, verdict),
            Place::Schemas(_) | Place::Document(_) | Place::Commands(_) => write_refusal(
                sink,
                RefusedLine {
                    line: lines as u64 + 1,
                    refusal: Refusal::Line(Reason::EndMissing),
                },
            ),
        }
    }
}
