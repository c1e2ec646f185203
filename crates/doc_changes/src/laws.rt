//! What nodes stand for.

ghost use Rattle.std.specs.Prelude.{◌≡◌, ℕ, ◌<◌, ◌++◌, length, Some};
ghost use Rattle.xs_names.specs.Scope.{first_scope};
ghost use Rattle.xs_names.specs.Names.{NameTable, Grown, IsSound as AreNames};
ghost use Rattle.tree_rows.specs.Forest.{Document};
ghost use Rattle.plain_tree.specs.Numbers.{name_in};
ghost use Rattle.plain_tree.specs.Found.{HasNames};
ghost use Rattle.doc_nodes.specs.Nodes.{Node, Nodes, IsNode};
ghost use Rattle.doc_changes.specs.Stands.{StandsFor, expanded_of};
ghost use Rattle.doc_changes.specs.Held.{parent_at};
ghost use Rattle.doc_changes.specs.Documents.{document_of};
ghost use Rattle.doc_changes.specs.Readers.{AreRead, own_scope, scope_at};

/// The document that nodes stand for is the one that is read off them, so there is no other.
pub fn nodes_give_their_document()
    ensures { (t : NameTable) (ns : Nodes) (d : Document) → StandsFor t ns d → document_of t ns ≡ d }
{}

/// Nodes stand for the same document where the table of names grows.
pub fn documents_keep_their_nodes()
    ensures { (t u : NameTable) (ns : Nodes) (d : Document) → Grown t u → AreNames u → StandsFor t ns d → StandsFor u ns d }
{}

/// The table has the names of a document for which nodes stand; a number of the table is that of its name.
pub fn documents_have_their_names()
    ensures names { (t : NameTable) (ns : Nodes) (d : Document) → StandsFor t ns d → HasNames t d.forest }
    ensures numbers { (t : NameTable) (n : ℕ) → AreNames t → n < length t.names → name_in t (expanded_of t n) ≡ n }
{}

/// The nodes say of each element of the document that they stand for what the document says of it: its name, bindings and attributes,
/// the characters of its texts and its child elements.
pub fn nodes_are_read()
    ensures { (t : NameTable) (ns : Nodes) (d : Document) → StandsFor t ns d → AreRead t ns d.forest }
{}

/// The scope in an element is what it binds, and then the scope in its parent; of the root, what is bound outside of all elements.
pub fn scopes_go_down()
    ensures below { (t : NameTable) (ns : Nodes) (d : Document) (p c : ℕ) → StandsFor t ns d → parent_at ns c ≡ Some p → scope_at ns c ≡ own_scope ns c ++ scope_at ns p }
    ensures root { (t : NameTable) (ns : Nodes) (d : Document) (it : Node) → StandsFor t ns d → IsNode ns 1 it → scope_at ns 1 ≡ own_scope ns 1 ++ first_scope }
{}
