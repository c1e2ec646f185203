ghost use Rattle.std.specs.Prelude.{◌≡◌, ◌≤◌, Some};
ghost use Rattle.xsv_io.specs.Causes.{KeepsCount};
ghost use Rattle.generated_stream.specs.Lines.{stream_text};
ghost use Rattle.told.specs.Going.{trace};
ghost use Rattle.xsv_run.specs.Statuses.{is_broken};
ghost use Rattle.xsv_run.specs.Output.{Answers, Tries, usual_session};
ghost use Rattle.xsv_run.specs.inside.Trying.{EndsSession, WritesLines};

use crate::Status;
use crate::stream::answer_stream;
use crate::wanted::wanted_of;
use command_words::{Task, USUAL_MOST};
use generated_stream::{GeneratedSource, KeptText, generated_lines, summary_of, write_summary};
use std::alloc::Global;
use xsv_io::Sink;
use xsv_steps::{Ledger, Steps};

/// Runs a session over the stream of a number and a count of items, and keeps its output.
fn keep_replies<L: Ledger>(
    alloc: Global,
    start: u64,
    items: u32,
    replies: &mut KeptText,
    steps: &mut Steps<L>,
) -> Status
    requires { 1 ≤ items }
    ensures answers { Answers usual_session (stream_text start items) result (trace (Some replies.old.text.items) steps.old) (trace (Some replies.new.text.items) steps.new) }
    ensures later { steps.old ≤ steps.new }
{
    let mut source = GeneratedSource::new(alloc, start, items);
    let wanted = wanted_of(Task::Session, USUAL_MOST);
    let status = answer_stream(alloc, wanted, &mut source, replies, steps);
    drop(source);
    status
}

/// Writes the lines of a trial, by the output of its session.
fn write_trial<W: Sink>(start: u64, items: u32, output: &[u8], sink: &mut W) -> Status
    requires { 1 ≤ items }
    ensures writes { WritesLines start items output.now result (W.taken sink.old) (W.taken sink.new) }
    ensures counts { KeepsCount W.faults W.fault_bound sink.old sink.new (result ≡ Status.WriteFault) }
    ensures not_read { result ≡ Status.ReadFault → ⊥ }
{
    let lines = generated_lines(start, items);
    match write_summary(sink, lines, &summary_of(output)) {
        Ok(()) => Status::Valid,
        Err(_) => Status::WriteFault,
    }
}

/// What a trial ends with, by how its session ended: its lines are written where the session came to its end. Where it was broken
/// off memory was wanting, since its source and its sink fail for that alone.
fn conclude<W: Sink>(ended: Status, start: u64, items: u32, output: &[u8], sink: &mut W) -> Status
    requires { 1 ≤ items }
    ensures writes { EndsSession (is_broken ended) start items output.now result (W.taken sink.old) (W.taken sink.new) }
    ensures counts { KeepsCount W.faults W.fault_bound sink.old sink.new (result ≡ Status.WriteFault) }
    ensures not_read { result ≡ Status.ReadFault → ⊥ }
{
    if ended.is_broken() {
        Status::Memory
    } else {
        write_trial(start, items, output, sink)
    }
}

/// Makes a trial of the session: runs it over the stream of a number and a count of items, which is made while it is read, and
/// writes how many lines that stream has, how many edits were accepted and refused, and the line of the end.
pub fn run_trial<W: Sink, L: Ledger>(
    alloc: Global,
    start: u64,
    items: u32,
    sink: &mut W,
    steps: &mut Steps<L>,
) -> Status
    requires { 1 ≤ items }
    ensures tries { Tries start items result (trace (W.taken sink.old) steps.old) (trace (W.taken sink.new) steps.new) }
    ensures writes { KeepsCount W.faults W.fault_bound sink.old sink.new (result ≡ Status.WriteFault) }
    ensures not_read { result ≡ Status.ReadFault → ⊥ }
    ensures later { steps.old ≤ steps.new }
{
    let mut replies = KeptText::new(alloc);
    let ended = keep_replies(alloc, start, items, &mut replies, steps);
    let status = conclude(ended, start, items, replies.text.as_slice(), sink);
    drop(replies);
    status
}
