//! What nodes show is what the document shows that they stand for.

ghost use Rattle.std.specs.Prelude.{◌≡◌, ℕ, ◌++◌, List, Some};
ghost use Rattle.xs_names.specs.Names.{NameTable};
ghost use Rattle.tree_rows.specs.Forest.{Forest, Document};
ghost use Rattle.tree_rows.specs.declared.row.NodeKind.TheVariants as kinds;
ghost use Rattle.assess_records.specs.Numbered.{Scope, name_in, named_texts, scope_in};
ghost use Rattle.assessment.specs.Local.{AreRead};
ghost use Rattle.elem_governing.specs.declared.head.ElementHead.{ElementHead};
ghost use Rattle.elem_governing.specs.Heads.{IsHead};
ghost use Rattle.doc_nodes.specs.Nodes.{Nodes};
ghost use Rattle.doc_changes.specs.Stands.{StandFor, StandsFor};
ghost use Rattle.doc_changes.specs.Held.{kind_at};
ghost use Rattle.doc_changes.specs.Readers.{name_at, own_scope};
ghost use Rattle.doc_readers.specs.Heads.{readers_of, texts_named, IsHeadAt};

/// Nodes by number read as the elements of the tree that they stand for.
pub fn nodes_are_readers()
    ensures { (t : NameTable) (ns : Nodes) (f : Forest) → StandFor t ns f → AreRead (readers_of t ns) f }
{}

/// What an element of a document shows by the numbers of names is what it shows by its names: its name, its attributes, its scope
/// (Namespaces in XML 1.0, 6.1) and its head.
pub fn nodes_show_elements()
    ensures name { (t : NameTable) (ns : Nodes) (d : Document) (n : ℕ) → StandsFor t ns d → kind_at ns n ≡ Some kinds.Element → name_in t ((readers_of t ns).name n) ≡ name_at ns n }
    ensures attributes { (t : NameTable) (ns : Nodes) (d : Document) (n : ℕ) → StandsFor t ns d → named_texts t ((readers_of t ns).attributes n) ≡ texts_named ns n }
    ensures scope { (t : NameTable) (ns : Nodes) (d : Document) (n : ℕ) (outer : Scope) → StandsFor t ns d → scope_in t ((readers_of t ns).bindings n) outer ≡ own_scope ns n ++ outer }
    ensures head { (t : NameTable) (ns : Nodes) (d : Document) (n : ℕ) (outer : Scope) (h : ElementHead) → StandsFor t ns d → kind_at ns n ≡ Some kinds.Element → IsHeadAt ns n outer h
        → IsHead t outer ((readers_of t ns).name n) ((readers_of t ns).bindings n) ((readers_of t ns).attributes n) h }
{}
