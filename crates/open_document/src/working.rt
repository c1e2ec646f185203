//! What is written of a document that is open. This module and `held` name the session that is behind.

ghost use Rattle.std.specs.Prelude.{◌≡◌, ◌≤◌, false, OnOk};
ghost use Rattle.xsv_io.specs.Causes.{KeepsCount};
ghost use Rattle.told.specs.Going.{Answers, trace};
ghost use Rattle.told.specs.Tells.{Wrote, IsWriteFault};
ghost use Rattle.told.specs.Told.{Told};
ghost use Rattle.open_document.specs.Answers as answers;
ghost use Rattle.open_document.specs.Held.{state_of, IsLogged};
ghost use Rattle.open_document.specs.State.{OpenState};

use crate::Verdict;
use crate::held::OpenDocument;
use crate::line::answer_read;
use crate::reply::{answer_made, answer_report};
use edit_script::read_command;
use item_listing::Items;
use session_model::Session;
use std::alloc::Global;
use told::BreakOff;
use xs_names::Text;
use xsv_io::Sink;
use xsv_steps::{Ledger, Steps};

/// Writes the report on a document: the record lines of its elements and attributes, and the number of all codes.
pub(crate) fn tell_report<W: Sink>(document: &OpenDocument, sink: &mut W) -> Result<(), BreakOff>
    requires { document.now.session.closed ≡ false }
    ensures wrote { Wrote result (W.taken sink.old) (W.taken sink.new) (answers.report (state_of document.now)) }
    ensures writes { KeepsCount W.faults W.fault_bound sink.old sink.new (IsWriteFault result) }
{
    answer_report(&document.session, None, sink)
}

/// Writes the revision of a document, and the number of codes.
pub(crate) fn tell_first<W: Sink>(document: &OpenDocument, sink: &mut W) -> Result<(), BreakOff>
    requires { document.now.session.closed ≡ false }
    ensures wrote { Wrote result (W.taken sink.old) (W.taken sink.new) (answers.first_line (state_of document.now)) }
    ensures writes { KeepsCount W.faults W.fault_bound sink.old sink.new (IsWriteFault result) }
{
    answer_made(&document.session, sink)
}

// Answers a command, where there is room for a turn.
fn answer_line<W: Sink, L: Ledger>(
    alloc: Global,
    document: &mut OpenDocument,
    line: &Text,
    block: Option<Items>,
    sink: &mut W,
    steps: &mut Steps<L>,
) -> Result<(), BreakOff>
    requires live { document.old.session.closed ≡ false }
    requires logged { IsLogged document.old }
    requires room { 2 ≤ document.old.turns.spare }
    ensures answers { (next : OpenState → Told) → Answers (answers.command_told (state_of document.old) line.now block next)
        result (trace (W.taken sink.old) steps.old) (trace (W.taken sink.new) steps.new) (λ done. next (state_of document.new)) }
    ensures open { OnOk result (document.new.session.closed ≡ false) }
    ensures logged { document.new.session.closed ≡ false → IsLogged document.new }
    ensures writes { KeepsCount W.faults W.fault_bound sink.old sink.new (IsWriteFault result) }
    ensures later { steps.old ≤ steps.new }
{
    match read_command(alloc, line, block) {
        Ok(read) => answer_read(alloc, document, read, sink, steps),
        Err(_) => Err(BreakOff::Memory),
    }
}

/// Answers a command, with the items of its block where it begins one. There is room for a turn before it is made.
pub(crate) fn answer<W: Sink, L: Ledger>(
    alloc: Global,
    document: &mut OpenDocument,
    line: &Text,
    block: Option<Items>,
    sink: &mut W,
    steps: &mut Steps<L>,
) -> Result<(), BreakOff>
    requires live { document.old.session.closed ≡ false }
    requires logged { IsLogged document.old }
    ensures answers { (next : OpenState → Told) → Answers (answers.command_told (state_of document.old) line.now block next)
        result (trace (W.taken sink.old) steps.old) (trace (W.taken sink.new) steps.new) (λ done. next (state_of document.new)) }
    ensures open { OnOk result (document.new.session.closed ≡ false) }
    ensures logged { document.new.session.closed ≡ false → IsLogged document.new }
    ensures writes { KeepsCount W.faults W.fault_bound sink.old sink.new (IsWriteFault result) }
    ensures later { steps.old ≤ steps.new }
{
    match document.turns.reserve() {
        Ok(()) => answer_line(alloc, document, line, block, sink, steps),
        Err(_) => Err(BreakOff::Memory),
    }
}

/// What the last line tells of a document: the validity of the root, and the number of codes.
pub(crate) fn verdict(document: &OpenDocument) -> Verdict
    requires { document.now.session.closed ≡ false }
    ensures { result ≡ answers.verdict (state_of document.now) }
{
    Verdict {
        validity: document.session.root_validity(),
        total: document.session.code_total(),
    }
}
