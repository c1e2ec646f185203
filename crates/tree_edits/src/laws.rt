ghost use Rattle.std.specs.Prelude.{◌≡◌, Ok};
ghost use Rattle.tree_rows.specs.Forest.{Document};
ghost use Rattle.tree_rows.specs.Whole.{IsTree};
ghost use Rattle.tree_edits.specs.Keeping.{KeepsTree};
ghost use Rattle.tree_edits.specs.Tests.{edited};
ghost use Rattle.tree_edits.specs.declared.edit.Edit.{Edit};

/// A tree is a tree after an edit, and no number is given again.
pub fn edits_keep_trees()
    ensures { (d : Document) (edit : Edit) (e : Document) → IsTree d → edited d edit ≡ Ok e → KeepsTree d e }
{}
