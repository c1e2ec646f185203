//! Edits of a document, each made beside that of the plain tree which it is to be.

ghost use Rattle.std.specs.Prelude.{◌≡◌, Ok, true, false, IfOk, OnOk, OnErr};
ghost use Rattle.tree_rows.specs.Forest.{Document};
ghost use Rattle.tag_names.specs.Scopes.{first_scope};
ghost use Rattle.tree_building.specs.Building.{block};
ghost use Rattle.tree_edits.specs.Edits.{can_be_made, scope_in};
ghost use Rattle.tree_edits.specs.Tests.{edited};
ghost use Rattle.tree_edits.specs.declared.edit.Edit.TheVariants as edits;
ghost use Rattle.doc_changes.specs.Stands.{StandsFor};

use crate::same::is_same_tree;
use doc_tree::DocTree;
use item_listing::Item;
use plain_tree::{Tree, fragment};
use std::alloc::{AllocError, Global};
use std::process::Abort;
use tree_edits::Edit;
use tree_rows::NodeKind;
use xs_names::{Names, Text};

/// The tree that a document is.
pub fn plain_of(names: &Names, doc: &DocTree) -> Result<Tree, AllocError>
    requires { (d : Document) × StandsFor names.now doc.now d }
    ensures { IfOk result (λ tree. StandsFor names.now doc.now tree) }
{
    match doc.to_plain(names) {
        Ok(tree) => Ok(tree),
        Err(error) => Err(error),
    }
}

/// Sees that the document is this tree.
pub fn compare<A: Abort>(
    rt: &A,
    names: &Names,
    doc: &DocTree,
    tree: &Tree,
) -> Result<(), AllocError>
    requires { (d : Document) × StandsFor names.now doc.now d }
{
    let plain = plain_of(names, doc)?;
    assert!(rt; is_same_tree(&plain, tree));
    Ok(())
}

/// Makes an edit on the plain tree, and answers whether it could be made.
pub fn is_made(alloc: Global, tree: &mut Tree, edit: &Edit) -> bool
    requires { can_be_made edit.now ≡ true }
    ensures made { result ≡ true → edited tree.old edit.now ≡ Ok tree.new }
    ensures refused { result ≡ false → tree.new ≡ tree.old }
{
    match tree.apply_edit(alloc, edit) {
        Ok(()) => true,
        Err(_) => false,
    }
}

/// The part that these items are below an element.
fn part_of<A: Abort>(
    rt: &A,
    alloc: Global,
    names: &Names,
    doc: &DocTree,
    parent: u32,
    items: &[Item],
) -> Result<Tree, AllocError>
    requires { (d : Document) × StandsFor names.now doc.now d }
    ensures { IfOk result (λ part. (d : Document) → StandsFor names.now doc.now d → part.forest ≡ block (scope_in parent first_scope d.forest) items.now) }
{
    assert!(rt; matches!(doc.live(parent), Some(NodeKind::Element)));
    let scope = doc.scope_of(names, parent)?;
    match fragment(alloc, names, &scope, items)? {
        Ok(part) => Ok(part),
        Err(_) => panic!(rt; "no part"),
    }
}

/// Puts the element of a block.
fn put_part<A: Abort>(
    rt: &A,
    alloc: Global,
    names: &mut Names,
    doc: &mut DocTree,
    tree: &Tree,
    parent: u32,
    index: u32,
    items: &[Item],
) -> Result<(), AllocError>
    requires { (d : Document) × StandsFor names.old doc.old d × (edited d (edits.Insert parent index items.now) ≡ Ok tree.now) }
    ensures made { OnOk result (StandsFor names.new doc.new tree.now) }
    ensures kept { OnErr result ((d : Document) → StandsFor names.old doc.old d → StandsFor names.new doc.new d) }
{
    let part = part_of(rt, alloc, names, doc, parent, items)?;
    match doc.insert(names, parent, index, &part) {
        Ok(_) => Ok(()),
        Err(error) => Err(error),
    }
}

/// Puts a text.
fn put_text(
    names: &Names,
    doc: &mut DocTree,
    tree: &Tree,
    parent: u32,
    index: u32,
    text: &Text,
) -> Result<(), AllocError>
    requires { (d : Document) × StandsFor names.now doc.old d × (edited d (edits.AddText parent index text.now) ≡ Ok tree.now) }
    ensures made { OnOk result (StandsFor names.now doc.new tree.now) }
    ensures kept { OnErr result (doc.new ≡ doc.old) }
{
    let text = text.try_clone()?;
    match doc.add_text(parent, index, text) {
        Ok(_) => Ok(()),
        Err(error) => Err(error),
    }
}

/// Gives a text other characters.
fn write_text<A: Abort>(
    rt: &A,
    names: &Names,
    doc: &mut DocTree,
    tree: &Tree,
    node: u32,
    text: &Text,
) -> Result<(), AllocError>
    requires { (d : Document) × StandsFor names.now doc.old d × (edited d (edits.SetText node text.now) ≡ Ok tree.now) }
    ensures made { OnOk result (StandsFor names.now doc.new tree.now) }
    ensures kept { OnErr result (doc.new ≡ doc.old) }
{
    assert!(rt; matches!(doc.live(node), Some(NodeKind::Chars)));
    let text = text.try_clone()?;
    doc.set_text(node, text);
    Ok(())
}

/// Takes a node away.
fn remove<A: Abort>(rt: &A, names: &Names, doc: &mut DocTree, tree: &Tree, node: u32)
    requires { (d : Document) × StandsFor names.now doc.old d × (edited d (edits.Remove node) ≡ Ok tree.now) }
    ensures { StandsFor names.now doc.new tree.now }
{
    assert!(rt; doc.parent(node).is_some());
    doc.remove(node);
}

/// Makes an edit of children or of a text that the plain tree has made.
fn make<A: Abort>(
    rt: &A,
    alloc: Global,
    names: &mut Names,
    doc: &mut DocTree,
    tree: &Tree,
    edit: &Edit,
) -> Result<(), AllocError>
    requires { (d : Document) × StandsFor names.old doc.old d × (edited d edit.now ≡ Ok tree.now) }
    ensures made { OnOk result (StandsFor names.new doc.new tree.now) }
    ensures kept { OnErr result ((d : Document) → StandsFor names.old doc.old d → StandsFor names.new doc.new d) }
{
    match edit {
        Edit::Insert {
            parent,
            index,
            items,
        } => put_part(
            rt,
            alloc,
            names,
            doc,
            tree,
            *parent,
            *index,
            items.as_slice(),
        ),
        Edit::AddText {
            parent,
            index,
            text,
        } => put_text(names, doc, tree, *parent, *index, text),
        Edit::SetText { node, text } => write_text(rt, names, doc, tree, *node, text),
        Edit::Remove { node } => {
            remove(rt, names, doc, tree, *node);
            Ok(())
        }
        _ => panic!(rt; "an edit of an element"),
    }
}

/// Makes an edit of children or of a text on both, where it can be made, and answers whether it was. Where memory is wanting
/// for the document, sees that it is as it was, and makes the edit once more.
pub fn make_edit<A: Abort>(
    rt: &A,
    alloc: Global,
    names: &mut Names,
    doc: &mut DocTree,
    tree: &mut Tree,
    edit: &Edit,
) -> Result<bool, AllocError>
    requires can { can_be_made edit.now ≡ true }
    requires stands { StandsFor names.old doc.old tree.old }
    ensures { OnOk result (StandsFor names.new doc.new tree.new) }
{
    let before = plain_of(names, doc)?;
    assert!(rt; is_same_tree(&before, tree));
    if !is_made(alloc, tree, edit) {
        return Ok(false);
    }
    if make(rt, alloc, names, doc, tree, edit).is_ok() {
        return Ok(true);
    }
    compare(rt, names, doc, &before)?;
    make(rt, alloc, names, doc, tree, edit)?;
    Ok(true)
}
