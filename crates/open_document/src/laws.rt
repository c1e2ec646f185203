//! The law of what is touched.

ghost use Rattle.std.specs.Prelude.{◌≡◌};
ghost use Rattle.tree_rows.specs.Forest.{Document, Forest};
ghost use Rattle.tree_edits.specs.declared.edit.Edit.{Edit};
ghost use Rattle.tree_edits.specs.EditChanges.{change_of};
ghost use Rattle.open_document.specs.Touches.{touched, touches};

/// An edit touches what the change touches that it is, by which it is undone and redone.
pub fn edits_touch_what_their_changes_do()
    ensures { (d : Document) (edit : Edit) (f : Forest) → touches (change_of d edit) f ≡ touched edit f }
{}
