//! The readers of a document beside the plain tree.

use crate::spelled::Spaces;
use doc_tree::DocTree;
use plain_tree::Tree;
use std::process::Abort;
use tree_rows::{Attribute, Content, NodeKind, Row};
use xs_names::Names;

/// Sees that the attributes of an element are these, and no more.
fn compare_attributes<A: Abort>(
    rt: &A,
    names: &Names,
    spaces: &Spaces,
    doc: &DocTree,
    node: u32,
    attributes: &[Attribute],
) {
    let mut place = 0u32;
    for attribute in attributes {
        let number = spaces.expanded(names, &attribute.name);
        assert!(rt;
            match doc.attr_at(node, place) {
                None => false,
                Some((name, value)) => {
                    number == Some(name) && value.as_str() == attribute.value.as_str()
                }
            }
        );
        place = place.wrapping_add(1);
    }
    assert!(rt; doc.attr_at(node, place).is_none());
}

/// Sees that a node is what a row says.
fn compare_node<A: Abort>(rt: &A, names: &Names, spaces: &Spaces, doc: &DocTree, row: &Row) {
    let node = row.number;
    match &row.content {
        Content::Element(name) => {
            assert!(rt; doc.live(node) == Some(NodeKind::Element));
            let number = spaces.expanded(names, name);
            assert!(rt; number.is_some() && doc.name(node) == number);
            assert!(rt; doc.chars(node).is_none());
        }
        Content::Chars(text) => {
            assert!(rt; doc.live(node) == Some(NodeKind::Chars));
            assert!(rt;
                doc.chars(node)
                    .is_some_and(|chars| chars.as_str() == text.as_str())
            );
            assert!(rt; doc.name(node).is_none());
        }
    }
    assert!(rt; doc.binding_count(node) as usize == row.bindings.len());
    compare_attributes(rt, names, spaces, doc, node, row.attributes.as_slice());
}

/// Sees that the children of a node are those of the tree, and have it as their parent.
fn compare_children<A: Abort>(rt: &A, doc: &DocTree, tree: &Tree, node: u32) {
    let count = doc.child_count(node);
    for place in 0..count {
        let child = doc.child_at(node, place);
        assert!(rt; child.is_some() && child == tree.child_at(node, place));
        assert!(rt; child.is_some_and(|child| doc.parent(child) == Some(node)));
    }
    assert!(rt; doc.child_at(node, count).is_none() && tree.child_at(node, count).is_none());
}

/// Sees that elements come one after another in document order.
fn compare_order<A: Abort>(rt: &A, doc: &DocTree, tree: &Tree) {
    let mut last = 1;
    for row in tree.rows() {
        if matches!(row.content, Content::Element(_)) && row.number != 1 {
            assert!(rt; doc.next_element(last) == Some(row.number));
            last = row.number;
        }
    }
    assert!(rt; doc.next_element(last).is_none());
}

/// Sees that a number is of no node.
fn compare_absent<A: Abort>(rt: &A, doc: &DocTree, node: u32) {
    assert!(rt; doc.live(node).is_none() && doc.parent(node).is_none());
    assert!(rt; doc.child_count(node) == 0 && doc.child_at(node, 0).is_none());
    assert!(rt; doc.name(node).is_none() && doc.chars(node).is_none());
    assert!(rt; doc.attr_at(node, 0).is_none() && doc.binding_count(node) == 0);
    assert!(rt; doc.next_element(node).is_none());
}

/// Sees that the readers of a document agree with the tree.
pub fn compare_readers<A: Abort>(
    rt: &A,
    names: &Names,
    spaces: &Spaces,
    doc: &DocTree,
    tree: &Tree,
) {
    assert!(rt; doc.node_count() as usize == tree.rows().len());
    assert!(rt; doc.next_free() == tree.next_free());
    assert!(rt; doc.parent(1).is_none());
    for row in tree.rows() {
        compare_node(rt, names, spaces, doc, row);
        compare_children(rt, doc, tree, row.number);
    }
    compare_order(rt, doc, tree);
    for number in tree.next_free().saturating_sub(40)..tree.next_free() {
        if tree.kind(number).is_none() {
            compare_absent(rt, doc, number);
        }
    }
    compare_absent(rt, doc, tree.next_free());
}
