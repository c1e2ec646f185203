//! The change that undoes the change that an edit is.

ghost use Rattle.std.specs.Prelude.{◌≡◌, true, IfOk};
ghost use Rattle.xs_names.specs.Names.{NameTable};
ghost use Rattle.tree_rows.specs.Forest.{Document};
ghost use Rattle.tree_rows.specs.declared.row.NodeKind.TheVariants as kinds;
ghost use Rattle.tree_edits.specs.Edits.{can_be_made};
ghost use Rattle.tree_edits.specs.declared.edit.Edit.{Edit};
ghost use Rattle.tree_edits.specs.Inverses as law;
ghost use Rattle.tree_edits.specs.EditChanges.{change_of};
ghost use Rattle.tree_edits.specs.Sites.{name_of, chars_of, node_of};
ghost use Rattle.doc_changes.specs.Held.{kind_at};
ghost use Rattle.doc_changes.specs.Stands.{StandsFor};
ghost use Rattle.doc_edits.specs.Changes.{CanMake, IsPrepared};
ghost use Rattle.doc_tree.specs.Changes.{Means};

use crate::Change;
use crate::attributes::attribute_again;
use doc_tree::{Change as Inverse, DocTree};
use std::alloc::{AllocError, Global};

/// The characters of a text.
fn chars_again(doc: &DocTree, node: u32) -> Result<Inverse, AllocError>
    requires { kind_at doc.now node ≡ Some kinds.Chars }
    ensures { IfOk result (λ back. (t : NameTable) (d : Document) → StandsFor t doc.now d → Means t back (law.reword node (chars_of (node_of node d.forest)))) }
{
    match doc.chars(node) {
        Some(text) => {
            let text = text.try_clone()?;
            Ok(Inverse::Chars { node, text })
        }
        None => unreachable!(),
    }
}

/// The name of an element.
fn name_again(doc: &DocTree, node: u32) -> Inverse
    requires { kind_at doc.now node ≡ Some kinds.Element }
    ensures { (t : NameTable) (d : Document) → StandsFor t doc.now d → Means t result (law.rename node (name_of (node_of node d.forest))) }
{
    match doc.name(node) {
        Some(name) => Inverse::Name { node, name },
        None => unreachable!(),
    }
}

/// The change that undoes the change that an edit of this document is. It is read before that is made.
///
/// # Errors
///
/// `AllocError` is want of memory.
pub fn inverse_of(alloc: Global, doc: &DocTree, change: &Change) -> Result<Inverse, AllocError>
    requires can { (t : NameTable) × (d : Document) × StandsFor t doc.now d × CanMake t doc.now d change.now }
    ensures { IfOk result (λ back. (t u : NameTable) (d : Document) (edit : Edit) → StandsFor u doc.now d → can_be_made edit ≡ true → IsPrepared t u doc.now d edit change.now
        → Means u back (law.inverse_of d (change_of d edit))) }
{
    match change {
        Change::Insert { .. } | Change::AddText { .. } => Ok(Inverse::Take {
            node: doc.next_free(),
        }),
        Change::SetText { node, .. } => chars_again(doc, *node),
        Change::Remove { node } => doc.put_back_of(*node),
        Change::Rename { node, .. } => Ok(name_again(doc, *node)),
        Change::SetAttr { node, name, .. } | Change::UnsetAttr { node, name } => {
            attribute_again(doc, *node, *name)
        }
    }
}
