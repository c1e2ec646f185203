//! What changes and their inverses come to.

ghost use Rattle.std.specs.Prelude.{◌≡◌, Ok, true};
ghost use Rattle.tree_rows.specs.Forest.{Document};
ghost use Rattle.tree_rows.specs.Whole.{IsTree};
ghost use Rattle.tree_edits.specs.Edits.{can_be_made};
ghost use Rattle.tree_edits.specs.Tests.{edited};
ghost use Rattle.tree_edits.specs.declared.edit.Edit.{Edit};
ghost use Rattle.tree_edits.specs.Inverses.{Change, changed, inverse_of, Fits};
ghost use Rattle.tree_edits.specs.EditChanges.{change_of};

/// A change and then its inverse give the document from before. The next free number is another only by edits, and never goes
/// back.
pub fn inverses_undo()
    ensures { (d : Document) (c : Change) → IsTree d → Fits d c → changed (changed d c) (inverse_of d c) ≡ d }
{}

/// A changed document is a tree, and the inverse of the change can be made of it.
pub fn inverses_fit()
    ensures tree { (d : Document) (c : Change) → IsTree d → Fits d c → IsTree (changed d c) }
    ensures fits { (d : Document) (c : Change) → IsTree d → Fits d c → Fits (changed d c) (inverse_of d c) }
{}

/// An edit is a change, once the numbers of its new nodes were given out; the inverse of that change gives the document from before
/// the edit, where those numbers stay given out.
pub fn undone_edits()
    ensures edit { (d e : Document) (edit : Edit) → edited d edit ≡ Ok e → changed (record d { next_free = e.next_free }) (change_of d edit) ≡ e }
    ensures fits { (d e : Document) (edit : Edit) → can_be_made edit ≡ true → IsTree d → edited d edit ≡ Ok e → Fits (record d { next_free = e.next_free }) (change_of d edit) }
    ensures undone { (d e : Document) (edit : Edit) → can_be_made edit ≡ true → IsTree d → edited d edit ≡ Ok e → changed e (inverse_of d (change_of d edit)) ≡ record d { next_free = e.next_free } }
{}
