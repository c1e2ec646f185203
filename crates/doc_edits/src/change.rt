//! Changes of a document by the numbers of nodes and names.

ghost use Rattle.std.specs.Prelude.{◌≡◌, OnOk, OnErr};
ghost use Rattle.tree_rows.specs.Forest.{Document};
ghost use Rattle.doc_changes.specs.Stands.{StandsFor};
ghost use Rattle.doc_edits.specs.Changes.{changed, CanMake, IsMade};

use doc_tree::DocTree;
use plain_tree::Tree;
use std::alloc::AllocError;
use xs_names::{NameId, Names, Text};

/// A change of a document that nothing refuses. Its names are resolved: they go by the numbers of a table.
#[derive(Drop)]
pub enum Change {
    /// Puts the nodes of a tree below an element, before the child of this place.
    Insert {
        parent: u32,
        index: u32,
        part: Tree,
    },
    /// Puts a text, which may be empty, before the child of this place.
    AddText {
        parent: u32,
        index: u32,
        text: Text,
    },
    /// Gives a text other characters, maybe none.
    SetText {
        node: u32,
        text: Text,
    },
    /// Takes a node that is not the root away with all that is below it.
    Remove {
        node: u32,
    },
    /// Gives an element another name.
    Rename {
        node: u32,
        name: NameId,
    },
    /// Gives an attribute of an element a value; where there is none of the name, it is put behind the others.
    SetAttr {
        node: u32,
        name: NameId,
        value: Text,
    },
    /// Takes an attribute of an element away.
    UnsetAttr {
        node: u32,
        name: NameId,
    },
}

/// Makes a change of a document. The table has its names, and stays as it is.
///
/// # Errors
///
/// `AllocError` is want of memory. The document is then as it was.
pub fn make_change(doc: &mut DocTree, names: &mut Names, change: Change) -> Result<(), AllocError>
    requires can { (d : Document) × StandsFor names.old doc.old d × CanMake names.old doc.old d change }
    ensures made { OnOk result ((d : Document) → StandsFor names.old doc.old d → StandsFor names.new doc.new (changed names.new d change)) }
    ensures nodes { OnOk result (IsMade names.new doc.old doc.new change) }
    ensures err { OnErr result (doc.new ≡ doc.old) }
    ensures names { names.new ≡ names.old }
{
    match change {
        Change::Insert {
            parent,
            index,
            part,
        } => {
            doc.insert(names, parent, index, &part)?;
            Ok(())
        }
        Change::AddText {
            parent,
            index,
            text,
        } => {
            doc.add_text(parent, index, text)?;
            Ok(())
        }
        Change::SetText { node, text } => {
            doc.set_text(node, text);
            Ok(())
        }
        Change::Remove { node } => {
            doc.remove(node);
            Ok(())
        }
        Change::Rename { node, name } => {
            doc.rename(node, name);
            Ok(())
        }
        Change::SetAttr { node, name, value } => doc.set_attr(node, name, value),
        Change::UnsetAttr { node, name } => {
            doc.unset_attr(node, name);
            Ok(())
        }
    }
}
