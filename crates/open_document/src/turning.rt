//! Edits of authors by turns.

ghost use Rattle.std.specs.Prelude.{◌≡◌, ◌≤◌, true, false, OnOk};
ghost use Rattle.xsv_io.specs.Causes.{KeepsCount};
ghost use Rattle.tree_edits.specs.Edits.{can_be_made};
ghost use Rattle.told.specs.Going.{Answers, trace};
ghost use Rattle.told.specs.Tells.{Tells, IsWriteFault};
ghost use Rattle.told.specs.Told.{Told};
ghost use Rattle.open_document.specs.Held.{state_of, IsLogged};
ghost use Rattle.open_document.specs.Replies.{turn_refusal, turn_told};
ghost use Rattle.open_document.specs.State.{OpenState};
ghost use Rattle.open_document.specs.Touches as touches;

use crate::changing::answer_change;
use crate::held::OpenDocument;
use crate::reply::{write_answer, write_refusal};
use crate::touches::{TurnFault, turn_fault};
use told::BreakOff;
use tree_edits::Edit;
use xsv_io::{Part, Sink};
use xsv_steps::{Ledger, Steps};

// Writes why an edit by an author is not looked at.
fn refuse_turn<W: Sink>(sink: &mut W, fault: TurnFault) -> Result<(), BreakOff>
    ensures tells { Tells W.taken W.faults W.fault_bound sink.old sink.new result (turn_refusal fault) }
{
    match fault {
        TurnFault::BadRevision => write_refusal(sink, 35, "BadRevision"),
        TurnFault::Stale(revision) => write_answer(
            sink,
            &[
                Part::Text("no 36 Stale "),
                Part::Number(revision),
                Part::Text("\n"),
            ],
        ),
    }
}

/// Makes an edit by an author who had seen a revision, where it has no fault, and writes the reply.
pub(crate) fn answer_turn<W: Sink, L: Ledger>(
    document: &mut OpenDocument,
    author: u32,
    seen: u64,
    edit: &Edit,
    sink: &mut W,
    steps: &mut Steps<L>,
) -> Result<(), BreakOff>
    requires made { can_be_made edit.now ≡ true }
    requires live { document.old.session.closed ≡ false }
    requires logged { IsLogged document.old }
    requires room { 2 ≤ document.old.turns.spare }
    ensures answers { (next : OpenState → Told)
        → Answers (turn_told (state_of document.old) author edit.now (touches.turn_fault (state_of document.old) author seen edit.now) next)
        result (trace (W.taken sink.old) steps.old) (trace (W.taken sink.new) steps.new) (λ done. next (state_of document.new)) }
    ensures open { OnOk result (document.new.session.closed ≡ false) }
    ensures logged { document.new.session.closed ≡ false → IsLogged document.new }
    ensures writes { KeepsCount W.faults W.fault_bound sink.old sink.new (IsWriteFault result) }
    ensures later { steps.old ≤ steps.new }
{
    match turn_fault(document, author, seen, edit) {
        Some(fault) => refuse_turn(sink, fault),
        None => answer_change(document, author, edit, sink, steps),
    }
}
