ghost use Rattle.std.specs.Prelude.{◌≡◌, ◌≤◌, false, OnOk};
ghost use Rattle.xsv_io.specs.Causes.{KeepsCount};
ghost use Rattle.edit_script.specs.Commands as script;
ghost use Rattle.told.specs.Going.{Answers, trace};
ghost use Rattle.told.specs.Tells.{IsWriteFault};
ghost use Rattle.told.specs.Told.{Told};
ghost use Rattle.open_document.specs.Held.{state_of, IsLogged};
ghost use Rattle.open_document.specs.Replies.{line_told};
ghost use Rattle.open_document.specs.State.{OpenState};

use crate::changing::{answer_change, answer_redo, answer_undo};
use crate::held::OpenDocument;
use crate::next::answer_next;
use crate::reply::{answer_assess, answer_report, answer_total, write_refusal};
use crate::swapping::answer_swap;
use crate::turning::answer_turn;
use edit_script::{Command, ScriptFault};
use std::alloc::Global;
use told::BreakOff;
use xsv_io::Sink;
use xsv_steps::{Ledger, Steps};

/// Answers a command that was read, or tells the fault of its line.
///
/// # Errors
///
/// `Memory` is want of memory, and nothing was written. `WriteFault` where the sink failed; a front of the reply was then
/// written.
pub(crate) fn answer_read<W: Sink, L: Ledger>(
    alloc: Global,
    document: &mut OpenDocument,
    read: Result<Command, ScriptFault>,
    sink: &mut W,
    steps: &mut Steps<L>,
) -> Result<(), BreakOff>
    requires live { document.old.session.closed ≡ false }
    requires logged { IsLogged document.old }
    requires room { 2 ≤ document.old.turns.spare }
    requires ready { script.IsReadyOr read }
    // What is told of the line was written, whatever is told behind it; or the answer was broken off on the way.
    ensures answers { (next : OpenState → Told) → Answers (line_told (state_of document.old) read next)
        result (trace (W.taken sink.old) steps.old) (trace (W.taken sink.new) steps.new) (λ done. next (state_of document.new)) }
    ensures open { OnOk result (document.new.session.closed ≡ false) }
    ensures logged { document.new.session.closed ≡ false → IsLogged document.new }
    ensures writes { KeepsCount W.faults W.fault_bound sink.old sink.new (IsWriteFault result) }
    ensures later { steps.old ≤ steps.new }
{
    match read {
        Ok(Command::Change(edit)) => answer_change(document, 0, &edit, sink, steps),
        Ok(Command::Assess(node)) => answer_assess(&document.session, node, sink),
        Ok(Command::Errors) => answer_report(&document.session, Some(document.most), sink),
        Ok(Command::Report) => answer_report(&document.session, None, sink),
        Ok(Command::Total) => answer_total(&document.session, sink),
        Ok(Command::Undo) => answer_undo(document, sink, steps),
        Ok(Command::Redo) => answer_redo(document, sink, steps),
        Ok(Command::Next { parent, index }) => { answer_next(document, parent, index, sink, steps) }
        Ok(Command::Swap(section)) => answer_swap(alloc, document, section, sink, steps),
        Ok(Command::Turn { author, seen, edit }) => {
            answer_turn(document, author, seen, &edit, sink, steps)
        }
        Err(fault) => write_refusal(sink, fault.number(), fault.name()),
    }
}
