//! Another schema set for a document that is open.

ghost use Rattle.std.specs.Prelude.{◌≡◌, ◌≤◌, ℕ, true, false, OnOk, IfOk};
ghost use Rattle.xsv_io.specs.Causes.{KeepsCount};
ghost use Rattle.xs_names.specs.Names.{IsSound};
ghost use Rattle.compiled_schema.specs.Usable.{IsUsable, set_of};
ghost use Rattle.kept_next.specs.Spaces.{HasSpacesNamed};
ghost use Rattle.schema_compile.specs.Outcomes.{IsOutcome};
ghost use Rattle.session_model.specs.Spending.{Counts};
ghost use Rattle.edit_session.specs.Reopened.{IsReopened, swap_cost};
ghost use Rattle.told.specs.Going.{Answers, trace};
ghost use Rattle.told.specs.Outcomes.{accepted, told_of};
ghost use Rattle.told.specs.Tells.{Tells, IsWriteFault};
ghost use Rattle.told.specs.Told.{Told};
ghost use Rattle.open_document.specs.Held.{state_of, IsLogged, IsReadySet};
ghost use Rattle.open_document.specs.Replies.{set_refused, is_section, swap_told, swapped_told};
ghost use Rattle.open_document.specs.State.{OpenState};
ghost use Rattle.open_document.specs.Steps.{with_swap};

use crate::compiling::outcome_of;
use crate::held::OpenDocument;
use crate::reply::{answer_made, write_answer, write_refusal};
use compiled_schema::Compiled;
use plain_session::let_go;
use schema_compile::Outcome;
use schema_set::SchemaInput;
use std::alloc::{AllocError, Global};
use told::{BreakOff, wildcards_name_spaces_of_their_table};
use xs_codes::{Fault, code_text};
use xs_names::NsId;
use xsv_io::{Part, Sink};
use xsv_steps::{Ledger, Steps};

// Writes the first constraint that a set breaks.
fn refuse_set<W: Sink>(sink: &mut W, fault: Fault) -> Result<(), BreakOff>
    ensures tells { Tells W.taken W.faults W.fault_bound sink.old sink.new result (set_refused fault) }
{
    write_answer(
        sink,
        &[
            Part::Text("no 34 SetRefused "),
            Part::Number(fault.document as u64),
            Part::Text(" "),
            Part::Number(fault.item as u64),
            Part::Text(" "),
            Part::Text(code_text(fault.code)),
            Part::Text("\n"),
        ],
    )
}

// Assesses the document by another set from then on, and forgets the steps that led to it.
fn swap<L: Ledger>(
    document: &mut OpenDocument,
    set: Box<Compiled>,
    steps: &mut Steps<L>,
) -> Result<(), AllocError>
    requires ready { IsReadySet set.value }
    requires live { document.old.session.closed ≡ false }
    requires logged { IsLogged document.old }
    ensures reopened { OnOk result (IsReopened document.old.session (set_of set.value) document.new.session) }
    ensures behind { OnOk result (state_of document.new ≡ with_swap (state_of document.old) (set_of set.value) document.new.session.found) }
    ensures logged { document.new.session.closed ≡ false → IsLogged document.new }
    ensures spends { Counts steps.old steps.new (swap_cost document.old.session) }
{
    match document.session.reopen(set, steps) {
        Ok(()) => {
            document.log.clear();
            Ok(())
        }
        Err(_) => Err(AllocError),
    }
}

// Swaps to a set, and writes the reply.
fn answer_set<W: Sink, L: Ledger>(
    document: &mut OpenDocument,
    set: Box<Compiled>,
    sink: &mut W,
    steps: &mut Steps<L>,
) -> Result<(), BreakOff>
    requires ready { IsReadySet set.value }
    requires live { document.old.session.closed ≡ false }
    requires logged { IsLogged document.old }
    ensures answers { (next : OpenState → Told) → Answers (swapped_told (state_of document.old) next (accepted (set_of set.value)))
        result (trace (W.taken sink.old) steps.old) (trace (W.taken sink.new) steps.new) (λ done. next (state_of document.new)) }
    ensures open { OnOk result (document.new.session.closed ≡ false) }
    ensures logged { document.new.session.closed ≡ false → IsLogged document.new }
    ensures writes { KeepsCount W.faults W.fault_bound sink.old sink.new (IsWriteFault result) }
    ensures later { steps.old ≤ steps.new }
{
    match swap(document, set, steps) {
        Ok(()) => answer_made(&document.session, sink),
        Err(_) => Err(BreakOff::Memory),
    }
}

// A set that was compiled, boxed; for want of memory it is let go of.
fn boxed_set(alloc: Global, set: Compiled) -> Result<Box<Compiled>, AllocError>
    ensures { IfOk result (λ boxed. boxed.value ≡ set) }
{
    match Box::new(alloc, set) {
        Ok(set) => Ok(set),
        Err(failed) => {
            let_go(failed.value);
            Err(AllocError)
        }
    }
}

// Swaps to a set that schema documents were compiled to, and writes the reply.
fn answer_accepted<W: Sink, L: Ledger>(
    alloc: Global,
    document: &mut OpenDocument,
    set: Compiled,
    sink: &mut W,
    steps: &mut Steps<L>,
) -> Result<(), BreakOff>
    requires usable { IsUsable set }
    requires spaced { IsSound set.names → HasSpacesNamed (set_of set) }
    requires live { document.old.session.closed ≡ false }
    requires logged { IsLogged document.old }
    ensures answers { (next : OpenState → Told) → Answers (swapped_told (state_of document.old) next (accepted (set_of set)))
        result (trace (W.taken sink.old) steps.old) (trace (W.taken sink.new) steps.new) (λ done. next (state_of document.new)) }
    ensures open { OnOk result (document.new.session.closed ≡ false) }
    ensures logged { document.new.session.closed ≡ false → IsLogged document.new }
    ensures writes { KeepsCount W.faults W.fault_bound sink.old sink.new (IsWriteFault result) }
    ensures later { steps.old ≤ steps.new }
{
    // Who reads a table of names is told that it is sound.
    let _sound = set.names.lookup(NsId::ABSENT, "");
    match boxed_set(alloc, set) {
        Ok(set) => answer_set(document, set, sink, steps),
        Err(_) => Err(BreakOff::Memory),
    }
}

// Swaps to what schema documents come to, where it is a set, and writes the reply.
fn answer_outcome<W: Sink, L: Ledger>(
    alloc: Global,
    document: &mut OpenDocument,
    outcome: Outcome,
    sink: &mut W,
    steps: &mut Steps<L>,
) -> Result<(), BreakOff>
    requires outcome { (start : ℕ) × IsOutcome document.old.documents.items start outcome }
    requires live { document.old.session.closed ≡ false }
    requires logged { IsLogged document.old }
    ensures answers { (next : OpenState → Told) → Answers (swapped_told (state_of document.old) next (told_of outcome))
        result (trace (W.taken sink.old) steps.old) (trace (W.taken sink.new) steps.new) (λ done. next (state_of document.new)) }
    ensures open { OnOk result (document.new.session.closed ≡ false) }
    ensures logged { document.new.session.closed ≡ false → IsLogged document.new }
    ensures writes { KeepsCount W.faults W.fault_bound sink.old sink.new (IsWriteFault result) }
    ensures later { steps.old ≤ steps.new }
{
    wildcards_name_spaces_of_their_table();
    match outcome {
        Outcome::Broken(fault) => refuse_set(sink, fault),
        Outcome::Accepted(set) => answer_accepted(alloc, document, set, sink, steps),
    }
}

// Whether a schema section has the number.
fn has_section(documents: &[SchemaInput], number: u32) -> bool
    ensures { result ≡ is_section documents.now number }
{
    0 < number && number as usize <= documents.len()
}

// Swaps to the set that starts at the schema section of this number, where it breaks no constraint, and writes the reply.
fn answer_section<W: Sink, L: Ledger>(
    alloc: Global,
    document: &mut OpenDocument,
    number: u32,
    sink: &mut W,
    steps: &mut Steps<L>,
) -> Result<(), BreakOff>
    requires there { is_section document.old.documents.items number ≡ true }
    requires live { document.old.session.closed ≡ false }
    requires logged { IsLogged document.old }
    ensures answers { (next : OpenState → Told) → Answers (swap_told (state_of document.old) number true next)
        result (trace (W.taken sink.old) steps.old) (trace (W.taken sink.new) steps.new) (λ done. next (state_of document.new)) }
    ensures open { OnOk result (document.new.session.closed ≡ false) }
    ensures logged { document.new.session.closed ≡ false → IsLogged document.new }
    ensures writes { KeepsCount W.faults W.fault_bound sink.old sink.new (IsWriteFault result) }
    ensures later { steps.old ≤ steps.new }
{
    match outcome_of(alloc, document.documents.as_slice(), number - 1) {
        Ok(outcome) => answer_outcome(alloc, document, outcome, sink, steps),
        Err(_) => Err(BreakOff::Memory),
    }
}

/// Assesses the document by the set that starts at the schema section of this number, from 1, where it breaks no constraint, and
/// writes the reply.
///
/// # Errors
///
/// `Memory` is want of memory, and nothing was written. `WriteFault` where the sink failed; a front of the reply was then
/// written.
pub(crate) fn answer_swap<W: Sink, L: Ledger>(
    alloc: Global,
    document: &mut OpenDocument,
    number: u32,
    sink: &mut W,
    steps: &mut Steps<L>,
) -> Result<(), BreakOff>
    requires live { document.old.session.closed ≡ false }
    requires logged { IsLogged document.old }
    ensures answers { (next : OpenState → Told) → Answers (swap_told (state_of document.old) number (is_section document.old.documents.items number) next)
        result (trace (W.taken sink.old) steps.old) (trace (W.taken sink.new) steps.new) (λ done. next (state_of document.new)) }
    ensures open { OnOk result (document.new.session.closed ≡ false) }
    ensures logged { document.new.session.closed ≡ false → IsLogged document.new }
    ensures writes { KeepsCount W.faults W.fault_bound sink.old sink.new (IsWriteFault result) }
    ensures later { steps.old ≤ steps.new }
{
    if has_section(document.documents.as_slice(), number) {
        answer_section(alloc, document, number, sink, steps)
    } else {
        write_refusal(sink, 33, "NoSection")
    }
}
