//! What is logged goes on to lead through the history of a document.

ghost use Rattle.std.specs.Prelude.{◌≡◌, ◌≤◌, ℕ, None, Some, Ok, true, slice_get, MatchOption};
ghost use Rattle.circular_buffer.specs.Buffer.{last_item};
ghost use Rattle.xs_names.specs.Names.{NameTable, IsSound, Grown};
ghost use Rattle.tree_rows.specs.Forest.{Forest, Document};
ghost use Rattle.tree_rows.specs.Whole.{IsTree};
ghost use Rattle.tree_edits.specs.Edits.{can_be_made};
ghost use Rattle.tree_edits.specs.Tests.{edited};
ghost use Rattle.tree_edits.specs.declared.edit.Edit.{Edit};
ghost use Rattle.tree_edits.specs.Inverses.{inverse_of};
ghost use Rattle.tree_edits.specs.EditChanges.{change_of};
ghost use Rattle.doc_tree.specs.Changes.{Means};
ghost use Rattle.doc_tree.specs.Leads.{Leads};
ghost use Rattle.doc_tree.specs.declared.change.Change.{Change};
ghost use Rattle.edit_history.specs.Log.{Log, noted, with_undo_taken, with_undo_answered, with_redo_taken, with_redo_answered};
ghost use Rattle.edit_history.specs.History as histories;
ghost use Rattle.edit_history.specs.History.{History, IsLogOf, undone, redone};
ghost use Rattle.edit_history.specs.Steps.{GoesTo};

/// A log leads through a history still where the table has more names and more numbers of nodes were given out.
pub fn logs_lead_on()
    ensures { (t u : NameTable) (free more : ℕ) (log : Log Change) (h : History Forest) → IsSound t → Grown t u → free ≤ more
        → IsLogOf (Leads t free) log h → IsLogOf (Leads u more) log h }
{}

/// An edit that is made is noted by the inverse of the change that it is.
pub fn edits_are_logged()
    ensures { (t u : NameTable) (log : Log Change) (h : History Forest) (d e : Document) (edit : Edit) (back : Change) → IsSound t → Grown t u
        → can_be_made edit ≡ true → IsTree d → h.present ≡ d.forest → IsLogOf (Leads t d.next_free) log h → edited d edit ≡ Ok e
        → Means u back (inverse_of d (change_of d edit)) → IsLogOf (Leads u e.next_free) (noted log back) (histories.edited log.depth h e.forest) }
{}

/// The step that a log gives to be undone can be made of the present document, gives the one right before, and is answered by its
/// inverse; there is none exactly where no document is past.
pub fn undos_are_logged()
    ensures { (t : NameTable) (log : Log Change) (h : History Forest) (d : Document) → IsTree d → h.present ≡ d.forest → IsLogOf (Leads t d.next_free) log h
        → MatchOption (last_item log.past) (undone h ≡ None) (λ step. (g : History Forest) × (undone h ≡ Some g)
        × GoesTo t d step g (λ back. IsLogOf (Leads t d.next_free) (with_undo_answered (with_undo_taken log) back) g)) }
{}

/// The step that a log gives to be redone can be made of the present document, gives the one that was undone last, and is answered
/// by its inverse; there is none exactly where none was undone since the last edit.
pub fn redos_are_logged()
    ensures { (t : NameTable) (log : Log Change) (h : History Forest) (d : Document) → IsTree d → h.present ≡ d.forest → IsLogOf (Leads t d.next_free) log h
        → MatchOption (slice_get log.future 0) (redone h ≡ None) (λ step. (g : History Forest) × (redone h ≡ Some g)
        × GoesTo t d step g (λ back. IsLogOf (Leads t d.next_free) (with_redo_answered (with_redo_taken log) back) g)) }
{}
