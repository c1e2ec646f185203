//! The names of a document after an edit.

ghost use Rattle.std.specs.Prelude.{◌≡◌, Ok};
ghost use Rattle.xs_names.specs.Names.{NameTable};
ghost use Rattle.tree_rows.specs.Forest.{Document};
ghost use Rattle.tree_edits.specs.Tests.{edited};
ghost use Rattle.tree_edits.specs.declared.edit.Edit.{Edit};
ghost use Rattle.plain_tree.specs.Found.{HasNames};
ghost use Rattle.plain_tree.specs.Table.{document_table};
ghost use Rattle.plain_tree.specs.Names.{table_with};

/// A table that has the names of a document gets, from the document after an edit, the names that the edit brings, and no others:
/// the new ones have the numbers that they would have if all names of the document were put there again.
pub fn edits_add_their_names()
    ensures { (t : NameTable) (d : Document) (edit : Edit) (e : Document) → HasNames t d.forest → edited d edit ≡ Ok e → document_table t e.forest ≡ table_with t d edit }
{}
