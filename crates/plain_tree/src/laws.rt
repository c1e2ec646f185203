//! The names of a document are found in the table that they were put into.

ghost use Rattle.std.specs.Prelude.{◌≡◌, ◌<◌, length};
ghost use Rattle.xs_names.specs.Names.{NameTable, Grown};
ghost use Rattle.tree_rows.specs.Forest.{Forest};
ghost use Rattle.tree_rows.specs.declared.name.Expanded.{Expanded};
ghost use Rattle.plain_tree.specs.Numbers.{name_in};
ghost use Rattle.plain_tree.specs.Table.{document_table};
ghost use Rattle.plain_tree.specs.Found.{HasName, HasNames};

/// The table with a document's names in it has grown, and it has them; so has each table that has grown from it, under the same
/// numbers. These are numbers of the table. A table that has the names is as it was with them.
pub fn document_names_are_found()
    ensures grows { (t : NameTable) (f : Forest) → Grown t (document_table t f) }
    ensures found { (t : NameTable) (f : Forest) → HasNames (document_table t f) f }
    ensures still { (old new : NameTable) (f : Forest) → Grown old new → HasNames old f → HasNames new f }
    ensures stays { (t : NameTable) (f : Forest) → HasNames t f → document_table t f ≡ t }
    ensures numbers { (t : NameTable) (name : Expanded) → HasName t name → name_in t name < length t.names }
    ensures alike { (old new : NameTable) (name : Expanded) → Grown old new → HasName old name → name_in new name ≡ name_in old name }
{}
