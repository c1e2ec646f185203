//! Elements that are given other names and attributes, each beside the plain tree.

ghost use Rattle.std.specs.Prelude.{◌≡◌, ℕ, ◌<◌, length, true, IfOk, IfSome, OnOk, OnErr, Some};
ghost use Rattle.tree_rows.specs.Forest.{Document};
ghost use Rattle.tree_rows.specs.declared.row.NodeKind.TheVariants as kinds;
ghost use Rattle.xs_names.specs.Names.{NameTable};
ghost use Rattle.doc_changes.specs.Held.{kind_at, HasRoom};
ghost use Rattle.doc_changes.specs.Stands.{StandsFor};
ghost use Rattle.tree_edits.specs.Edits.{can_be_made};

use crate::calls::{compare, is_made, plain_of};
use crate::same::is_same_tree;
use crate::spelled::Spaces;
use doc_tree::DocTree;
use plain_tree::Tree;
use std::alloc::{AllocError, Global};
use std::process::Abort;
use tag_names::Prefixes;
use tree_edits::Edit;
use tree_rows::NodeKind;
use xs_names::{NameId, Names, Text, TextPool};

/// Whether an element has far fewer attributes and bindings than it may have.
fn has_room(doc: &DocTree, node: u32) -> bool
    ensures { (t : NameTable) (d : Document) → StandsFor t doc.now d → result ≡ true → (name : ℕ) → HasRoom doc.now node name }
{
    match doc.attr_at(node, 20) {
        Some(_) => false,
        None => doc.binding_count(node) < 20,
    }
}

/// Gives an element an attribute.
fn give_attribute(
    names: &Names,
    doc: &mut DocTree,
    node: u32,
    name: NameId,
    value: Text,
) -> Result<(), AllocError>
    requires element { kind_at doc.old node ≡ Some kinds.Element }
    requires name { name < length names.now.names }
    requires stands { (d : Document) × StandsFor names.now doc.old d }
    requires room { HasRoom doc.old node name }
    ensures stands { OnOk result ((d : Document) × StandsFor names.now doc.new d) }
    ensures err { OnErr result (doc.new ≡ doc.old) }
{
    match doc.set_attr(node, name, value) {
        Ok(()) => Ok(()),
        Err(error) => Err(error),
    }
}

/// Gives an element another name.
fn give_name(names: &Names, doc: &mut DocTree, node: u32, name: NameId)
    requires element { kind_at doc.old node ≡ Some kinds.Element }
    requires name { name < length names.now.names }
    requires stands { (d : Document) × StandsFor names.now doc.old d }
    ensures { (d : Document) × StandsFor names.now doc.new d }
{
    doc.rename(node, name);
}

/// Takes the attribute of a place away, where there is one.
fn take_attribute(names: &Names, doc: &mut DocTree, node: u32, place: u32) -> bool
    requires { (d : Document) × StandsFor names.now doc.old d }
    ensures { (d : Document) × StandsFor names.now doc.new d }
{
    match doc.attr_at(node, place) {
        None => false,
        Some((name, _)) => {
            doc.unset_attr(node, name);
            true
        }
    }
}

/// The scope of an element.
fn scope_of(alloc: Global, names: &Names, doc: &DocTree, node: u32) -> Result<Prefixes, AllocError>
    requires element { kind_at doc.now node ≡ Some kinds.Element }
    requires stands { (d : Document) × StandsFor names.now doc.now d }
{
    let scope = doc.scope_of(names, node)?;
    Prefixes::of_scope(alloc, names, &scope)
}

/// The number of the name that a QName is as that of an element, or of an attribute.
fn number_of(
    alloc: Global,
    names: &Names,
    spaces: &Spaces,
    scope: &Prefixes,
    name: &Text,
    is_element: bool,
) -> Result<Option<NameId>, AllocError>
    ensures { IfOk result (λ number. IfSome number (λ n. n < length names.now.names)) }
{
    let mut pool = TextPool::new(alloc);
    let resolved = if is_element {
        scope.element_name(&mut pool, name.as_str())?
    } else {
        scope.attribute_name(&mut pool, name.as_str())?
    };
    match resolved {
        Ok(own) => Ok(spaces.expanded(names, &own)),
        Err(_) => Ok(None),
    }
}

/// The place of the attribute of this name.
fn attribute_place(doc: &DocTree, node: u32, name: NameId) -> u32 {
    for place in 0..256 {
        if matches!(doc.attr_at(node, place), Some((own, _)) if own == name) {
            return place;
        }
    }
    256
}

/// Makes an edit of an element on the document.
fn make<A: Abort>(
    rt: &A,
    alloc: Global,
    names: &Names,
    spaces: &Spaces,
    doc: &mut DocTree,
    edit: &Edit,
) -> Result<(), AllocError>
    requires { (d : Document) × StandsFor names.now doc.old d }
    ensures stands { OnOk result ((d : Document) × StandsFor names.now doc.new d) }
    ensures err { OnErr result (doc.new ≡ doc.old) }
{
    let (node, name) = match edit {
        Edit::Rename { node, name } => (*node, name),
        Edit::SetAttr { node, name, .. } => (*node, name),
        Edit::UnsetAttr { node, name } => (*node, name),
        _ => panic!(rt; "no edit of an element"),
    };
    assert!(rt; matches!(doc.live(node), Some(NodeKind::Element)));
    let scope = scope_of(alloc, names, doc, node)?;
    let is_element = matches!(edit, Edit::Rename { .. });
    let Some(number) = number_of(alloc, names, spaces, &scope, name, is_element)? else {
        panic!(rt; "no name");
    };
    match edit {
        Edit::SetAttr { value, .. } => {
            assert!(rt; has_room(doc, node));
            let value = value.try_clone()?;
            give_attribute(names, doc, node, number, value)
        }
        Edit::UnsetAttr { .. } => {
            let place = attribute_place(doc, node, number);
            assert!(rt; take_attribute(names, doc, node, place));
            Ok(())
        }
        _ => {
            give_name(names, doc, node, number);
            Ok(())
        }
    }
}

/// Makes an edit of an element on both, where it can be made, and answers whether it was. Where memory is wanting for the
/// document, sees that it is as it was, and makes the edit once more.
pub fn make_element_edit<A: Abort>(
    rt: &A,
    alloc: Global,
    names: &Names,
    spaces: &Spaces,
    doc: &mut DocTree,
    tree: &mut Tree,
    edit: &Edit,
) -> Result<bool, AllocError>
    requires can { can_be_made edit.now ≡ true }
    requires stands { StandsFor names.now doc.old tree.old }
    ensures { OnOk result (StandsFor names.now doc.new tree.new) }
{
    let before = plain_of(names, doc)?;
    if !is_made(alloc, tree, edit) {
        return Ok(false);
    }
    if make(rt, alloc, names, spaces, doc, edit).is_err() {
        compare(rt, names, doc, &before)?;
        make(rt, alloc, names, spaces, doc, edit)?;
    }
    let plain = plain_of(names, doc)?;
    assert!(rt; is_same_tree(tree, &plain));
    *tree = plain;
    Ok(true)
}
