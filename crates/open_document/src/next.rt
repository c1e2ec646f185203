//! Which names may stand at a place of a document that is open.

ghost use Rattle.std.specs.Prelude.{◌≡◌, ◌≤◌, ℕ, false};
ghost use Rattle.xsv_io.specs.Causes.{KeepsCount};
ghost use Rattle.told.specs.Going.{Answers, trace};
ghost use Rattle.told.specs.Tells.{IsWriteFault};
ghost use Rattle.told.specs.Told.{Told};
ghost use Rattle.edit_session.specs.Around.{IsAroundAt, asked_at};
ghost use Rattle.open_document.specs.Held.{state_of, IsLogged};
ghost use Rattle.open_document.specs.Replies.{child_count, next_told};
ghost use Rattle.open_document.specs.State.{OpenState};

use crate::held::OpenDocument;
use crate::reply::write_refusal;
use edit_session::AroundError;
use kept_next::{AroundAt, write_answers};
use session_model::Session;
use told::BreakOff;
use xsv_io::Sink;
use xsv_steps::{Ledger, Steps};

// Writes a line for each symbol that fits at a place, and how many there are.
fn tell_names<W: Sink, L: Ledger>(
    document: &OpenDocument,
    place: &AroundAt<'_>,
    sink: &mut W,
    steps: &mut Steps<L>,
) -> Result<(), BreakOff>
    requires live { document.now.session.closed ≡ false }
    requires around { (node : ℕ) × (index : ℕ) × IsAroundAt document.now.session node index place.now }
    ensures answers { (node index : ℕ) (next : OpenState → Told) → IsAroundAt document.now.session node index place.now →
        Answers (next_told (state_of document.now) (child_count document.now.session node) (asked_at document.now.session node index) next)
        result (trace (W.taken sink.old) steps.old) (trace (W.taken sink.new) steps.new) (λ done. next (state_of document.now)) }
    ensures writes { KeepsCount W.faults W.fault_bound sink.old sink.new (IsWriteFault result) }
    ensures later { steps.old ≤ steps.new }
{
    match write_answers(sink, &document.session.compiled().names, place, steps) {
        Ok(()) => Ok(()),
        Err(_) => Err(BreakOff::WriteFault),
    }
}

/// Writes which names may stand before the child at a place of an element, or why there is no such place.
pub(crate) fn answer_next<W: Sink, L: Ledger>(
    document: &OpenDocument,
    node: u32,
    index: u32,
    sink: &mut W,
    steps: &mut Steps<L>,
) -> Result<(), BreakOff>
    requires live { document.now.session.closed ≡ false }
    requires logged { IsLogged document.now }
    ensures answers { (next : OpenState → Told) → Answers (next_told (state_of document.now) (child_count document.now.session node) (asked_at document.now.session node index) next)
        result (trace (W.taken sink.old) steps.old) (trace (W.taken sink.new) steps.new) (λ done. next (state_of document.now)) }
    ensures writes { KeepsCount W.faults W.fault_bound sink.old sink.new (IsWriteFault result) }
    ensures later { steps.old ≤ steps.new }
{
    match document.session.around(node, index) {
        Ok(place) => tell_names(document, &place, sink, steps),
        Err(AroundError::Memory) => Err(BreakOff::Memory),
        Err(refusal) => write_refusal(sink, refusal.number(), refusal.name()),
    }
}
