//! What is logged is remembered.

ghost use Rattle.std.specs.Prelude.{◌≡◌, ℕ, [], Ok, true, slice_get};
ghost use Rattle.circular_buffer.specs.Buffer.{last_item};
ghost use Rattle.xs_names.specs.Names.{NameTable, IsSound, Grown};
ghost use Rattle.tree_rows.specs.Forest.{Document};
ghost use Rattle.tree_rows.specs.Whole.{IsTree};
ghost use Rattle.tree_edits.specs.Edits.{can_be_made};
ghost use Rattle.tree_edits.specs.Tests.{edited};
ghost use Rattle.tree_edits.specs.declared.edit.Edit.{Edit};
ghost use Rattle.tree_edits.specs.Inverses.{inverse_of};
ghost use Rattle.tree_edits.specs.EditChanges.{change_of};
ghost use Rattle.doc_tree.specs.Changes.{Means};
ghost use Rattle.doc_tree.specs.declared.change.Change.{Change};
ghost use Rattle.edit_history.specs.Log.{Log, log_of, noted, with_undo_taken, with_undo_answered, with_redo_taken, with_redo_answered};
ghost use Rattle.edit_history.specs.History as histories;
ghost use Rattle.edit_history.specs.History.{undone, redone};
ghost use Rattle.edit_history.specs.declared.log.Taken.TheVariants.{Nothing};
ghost use Rattle.edit_history.specs.Meant.{meant_log};
ghost use Rattle.edit_history.specs.Through.{history_through, IsLogged, Remembers, Gives};

/// A document that was opened has no other documents in its history; and an edit that is made and noted by the inverse of the
/// change that it is, is remembered.
pub fn edits_are_remembered()
    ensures opened { (t : NameTable) (d : Document) (depth : ℕ) → Remembers t d (log_of depth [] [] Nothing) (histories.opened d.forest) (log_of depth [] [] Nothing) }
    ensures edited { (t u : NameTable) (log : Log Change) (d e : Document) (edit : Edit) (back : Change) → IsSound t → Grown t u → can_be_made edit ≡ true
        → IsTree d → IsLogged t d log → edited d edit ≡ Ok e → Means u back (inverse_of d (change_of d edit))
        → Remembers u e (noted log back) (histories.edited log.depth (history_through d (meant_log t log)) e.forest) (noted (meant_log t log) (inverse_of d (change_of d edit))) }
{}

/// The step that a log gives to be undone leads to the document right before, and is remembered once it is answered; there is none
/// exactly where no document is past.
pub fn undos_are_remembered()
    ensures { (t : NameTable) (log : Log Change) (d : Document) → IsTree d → IsLogged t d log
        → Gives t d (with_undo_answered (with_undo_taken log)) (with_undo_answered (with_undo_taken (meant_log t log)))
        (last_item log.past) (undone (history_through d (meant_log t log))) (last_item (meant_log t log).past) }
{}

/// The step that a log gives to be redone leads to the document that was undone last, and is remembered once it is answered; there
/// is none exactly where none was undone since the last edit.
pub fn redos_are_remembered()
    ensures { (t : NameTable) (log : Log Change) (d : Document) → IsTree d → IsLogged t d log
        → Gives t d (with_redo_answered (with_redo_taken log)) (with_redo_answered (with_redo_taken (meant_log t log)))
        (slice_get log.future 0) (redone (history_through d (meant_log t log))) (slice_get (meant_log t log).future 0) }
{}
