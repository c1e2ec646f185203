//! Edits, and steps along the history of a document that is open.

ghost use Rattle.std.specs.Prelude.{◌≡◌, ◌≤◌, true, false, IfOk, OnOk, OnErr};
ghost use Rattle.xsv_io.specs.Causes.{KeepsCount};
ghost use Rattle.tree_edits.specs.Edits.{can_be_made};
ghost use Rattle.tree_edits.specs.Tests.{edited};
ghost use Rattle.tree_edits.specs.Inverses as law;
ghost use Rattle.doc_tree.specs.Changes.{Means};
ghost use Rattle.what_is_found.specs.IsFound.{IsFound};
ghost use Rattle.session_model.specs.Applying.{Applies};
ghost use Rattle.session_model.specs.Spending.{Counts, Spends};
ghost use Rattle.edit_session.specs.Changed.{IsChanged, TakesWithin};
ghost use Rattle.edit_session.specs.Costs.{edit_cost, change_cost};
ghost use Rattle.told.specs.Going.{Answers, trace};
ghost use Rattle.told.specs.Tells.{IsWriteFault};
ghost use Rattle.told.specs.Told.{Told};
ghost use Rattle.open_document.specs.Held.{state_of, IsLogged};
ghost use Rattle.open_document.specs.Replies.{edit_told, step_told, no_past, no_future};
ghost use Rattle.open_document.specs.State.{OpenState};
ghost use Rattle.open_document.specs.Stepping.{Makes};
ghost use Rattle.open_document.specs.Steps.{undo_of, redo_of, with_edit};

use crate::held::OpenDocument;
use crate::reply::{answer_made, write_refusal};
use crate::touches::{touched_by, touched_on};
use doc_tree::Change;
use edit_history::Turn;
use edit_session::EditSession;
use session_model::{Session, SessionError};
use std::alloc::AllocError;
use told::BreakOff;
use tree_edits::Edit;
use xsv_io::Sink;
use xsv_steps::{Ledger, Steps};

// What is found of the document of a session: a law.
fn is_found(session: &EditSession)
    requires { session.now.closed ≡ false }
    ensures { IsFound session.now.set session.now.document session.now.found }
{
    let _set = session.compiled();
}

// Makes an edit, and notes the change that undoes it, and the turn.
fn change<L: Ledger>(
    document: &mut OpenDocument,
    author: u32,
    edit: &Edit,
    steps: &mut Steps<L>,
) -> Result<(), SessionError>
    requires made { can_be_made edit.now ≡ true }
    requires live { document.old.session.closed ≡ false }
    requires logged { IsLogged document.old }
    requires room { 2 ≤ document.old.turns.spare }
    ensures applies { Applies document.old.session edit.now result document.new.session }
    ensures spends { Spends edit_cost document.old.session edit.now result document.new.session steps.old steps.new }
    ensures behind { OnOk result (state_of document.new ≡ with_edit (state_of document.old) author edit.now document.new.session.document document.new.session.found) }
    ensures alone { OnErr result (document.new ≡ record document.old { session = document.new.session }) }
    ensures logged { document.new.session.closed ≡ false → IsLogged document.new }
{
    is_found(&document.session);
    let keys = touched_by(&document.session, edit);
    match document.session.apply_keeping(edit, steps) {
        Ok(back) => {
            document.log.did(back);
            let revision = document.session.revision();
            document.turns.note(Turn {
                revision,
                author,
                keys,
            });
            Ok(())
        }
        Err(error) => Err(error),
    }
}

/// Makes an edit by an author, and writes the reply.
pub(crate) fn answer_change<W: Sink, L: Ledger>(
    document: &mut OpenDocument,
    author: u32,
    edit: &Edit,
    sink: &mut W,
    steps: &mut Steps<L>,
) -> Result<(), BreakOff>
    requires made { can_be_made edit.now ≡ true }
    requires live { document.old.session.closed ≡ false }
    requires logged { IsLogged document.old }
    requires room { 2 ≤ document.old.turns.spare }
    ensures answers { (next : OpenState → Told) → Answers (edit_told (state_of document.old) author edit.now (edited document.old.session.document edit.now) next)
        result (trace (W.taken sink.old) steps.old) (trace (W.taken sink.new) steps.new) (λ done. next (state_of document.new)) }
    ensures open { OnOk result (document.new.session.closed ≡ false) }
    ensures logged { document.new.session.closed ≡ false → IsLogged document.new }
    ensures writes { KeepsCount W.faults W.fault_bound sink.old sink.new (IsWriteFault result) }
    ensures later { steps.old ≤ steps.new }
{
    match change(document, author, edit, steps) {
        Ok(()) => answer_made(&document.session, sink),
        Err(SessionError::Refused(refused)) => write_refusal(
            sink,
            refused.number(),
            refused.name(),
        ),
        Err(SessionError::Memory) => Err(BreakOff::Memory),
        Err(SessionError::Closed) => unreachable!(),
    }
}

// Makes a change that a log gave, and answers the change that undoes it.
fn make<L: Ledger>(
    session: &mut EditSession,
    change: Change,
    steps: &mut Steps<L>,
) -> Result<Change, AllocError>
    requires live { session.old.closed ≡ false }
    requires can { (c : law.Change) × Means session.old.set.names change c × law.Fits session.old.document c }
    ensures changed { OnOk result ((c : law.Change) → Means session.old.set.names change c → law.Fits session.old.document c → IsChanged session.old c session.new) }
    ensures counted { OnOk result ((c : law.Change) → Means session.old.set.names change c → law.Fits session.old.document c
        → Counts steps.old steps.new (change_cost session.old c session.new)) }
    ensures inverse { IfOk result (λ back. (c : law.Change) → Means session.old.set.names change c → law.Fits session.old.document c
        → Means session.new.set.names back (law.inverse_of session.old.document c)) }
    ensures closed { OnErr result (session.new.closed ≡ true) }
    ensures broken { OnErr result ((c : law.Change) → Means session.old.set.names change c → law.Fits session.old.document c
        → (steps.old ≤ steps.new) × TakesWithin session.old c steps.old steps.new) }
    ensures later { steps.old ≤ steps.new }
{
    match session.apply_change(change, steps) {
        Ok(back) => Ok(back),
        Err(_) => Err(AllocError),
    }
}

// Goes back to the tree that was before the present one. False where there is none.
fn undo<L: Ledger>(document: &mut OpenDocument, steps: &mut Steps<L>) -> Result<bool, AllocError>
    requires live { document.old.session.closed ≡ false }
    requires logged { IsLogged document.old }
    requires room { 2 ≤ document.old.turns.spare }
    ensures makes { Makes (state_of document.old) (undo_of (state_of document.old)) result (state_of document.new) steps.old steps.new }
    ensures open { OnOk result (document.new.session.closed ≡ false) }
    ensures logged { document.new.session.closed ≡ false → IsLogged document.new }
    ensures later { steps.old ≤ steps.new }
{
    is_found(&document.session);
    match document.log.take_undo() {
        None => Ok(false),
        Some(step) => match make(&mut document.session, step, steps) {
            Ok(back) => {
                let keys = touched_on(&document.session, &back);
                document.log.undone(back);
                let revision = document.session.revision();
                document.turns.note(Turn {
                    revision,
                    author: 0,
                    keys,
                });
                Ok(true)
            }
            Err(error) => Err(error),
        },
    }
}

// Goes on to the tree that was left last by undoing. False where there is none.
fn redo<L: Ledger>(document: &mut OpenDocument, steps: &mut Steps<L>) -> Result<bool, AllocError>
    requires live { document.old.session.closed ≡ false }
    requires logged { IsLogged document.old }
    requires room { 2 ≤ document.old.turns.spare }
    ensures makes { Makes (state_of document.old) (redo_of (state_of document.old)) result (state_of document.new) steps.old steps.new }
    ensures open { OnOk result (document.new.session.closed ≡ false) }
    ensures logged { document.new.session.closed ≡ false → IsLogged document.new }
    ensures later { steps.old ≤ steps.new }
{
    is_found(&document.session);
    match document.log.take_redo() {
        None => Ok(false),
        Some(step) => {
            let keys = touched_on(&document.session, &step);
            match make(&mut document.session, step, steps) {
                Ok(back) => {
                    document.log.redone(back);
                    let revision = document.session.revision();
                    document.turns.note(Turn {
                        revision,
                        author: 0,
                        keys,
                    });
                    Ok(true)
                }
                Err(error) => Err(error),
            }
        }
    }
}

/// Goes back to the tree that was before the present one, and writes the reply.
pub(crate) fn answer_undo<W: Sink, L: Ledger>(
    document: &mut OpenDocument,
    sink: &mut W,
    steps: &mut Steps<L>,
) -> Result<(), BreakOff>
    requires live { document.old.session.closed ≡ false }
    requires logged { IsLogged document.old }
    requires room { 2 ≤ document.old.turns.spare }
    ensures answers { (next : OpenState → Told) → Answers (step_told (state_of document.old) (undo_of (state_of document.old)) no_past next)
        result (trace (W.taken sink.old) steps.old) (trace (W.taken sink.new) steps.new) (λ done. next (state_of document.new)) }
    ensures open { OnOk result (document.new.session.closed ≡ false) }
    ensures logged { document.new.session.closed ≡ false → IsLogged document.new }
    ensures writes { KeepsCount W.faults W.fault_bound sink.old sink.new (IsWriteFault result) }
    ensures later { steps.old ≤ steps.new }
{
    match undo(document, steps) {
        Ok(true) => answer_made(&document.session, sink),
        Ok(false) => write_refusal(sink, 30, "NothingToUndo"),
        Err(_) => Err(BreakOff::Memory),
    }
}

/// Goes on to the tree that was left last by undoing, and writes the reply.
pub(crate) fn answer_redo<W: Sink, L: Ledger>(
    document: &mut OpenDocument,
    sink: &mut W,
    steps: &mut Steps<L>,
) -> Result<(), BreakOff>
    requires live { document.old.session.closed ≡ false }
    requires logged { IsLogged document.old }
    requires room { 2 ≤ document.old.turns.spare }
    ensures answers { (next : OpenState → Told) → Answers (step_told (state_of document.old) (redo_of (state_of document.old)) no_future next)
        result (trace (W.taken sink.old) steps.old) (trace (W.taken sink.new) steps.new) (λ done. next (state_of document.new)) }
    ensures open { OnOk result (document.new.session.closed ≡ false) }
    ensures logged { document.new.session.closed ≡ false → IsLogged document.new }
    ensures writes { KeepsCount W.faults W.fault_bound sink.old sink.new (IsWriteFault result) }
    ensures later { steps.old ≤ steps.new }
{
    match redo(document, steps) {
        Ok(true) => answer_made(&document.session, sink),
        Ok(false) => write_refusal(sink, 31, "NothingToRedo"),
        Err(_) => Err(BreakOff::Memory),
    }
}
