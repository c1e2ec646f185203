//! Which trees are the same.

use plain_tree::Tree;
use tree_rows::{Attribute, Binding, Content, Row};

fn is_same_content(one: &Content, other: &Content) -> bool {
    match one {
        Content::Chars(text) => {
            matches!(other, Content::Chars(chars) if chars.as_str() == text.as_str())
        }
        Content::Element(name) => matches!(other, Content::Element(own) if own.is_same(name)),
    }
}

fn are_same_bindings(one: &[Binding], other: &[Binding]) -> bool {
    let mut same = one.len() == other.len();
    for (a, b) in one.iter().zip(other) {
        same = same
            && a.prefix.as_str() == b.prefix.as_str()
            && a.namespace.as_str() == b.namespace.as_str();
    }
    same
}

fn are_same_attributes(one: &[Attribute], other: &[Attribute]) -> bool {
    let mut same = one.len() == other.len();
    for (a, b) in one.iter().zip(other) {
        same = same && a.name.is_same(&b.name) && a.value.as_str() == b.value.as_str();
    }
    same
}

fn is_same_row(one: &Row, other: &Row) -> bool {
    one.number == other.number
        && one.depth == other.depth
        && are_same_bindings(one.bindings.as_slice(), other.bindings.as_slice())
        && is_same_content(&one.content, &other.content)
        && are_same_attributes(one.attributes.as_slice(), other.attributes.as_slice())
}

/// Whether the nodes and the next free number are the same.
pub fn is_same_tree(one: &Tree, other: &Tree) -> bool {
    let mut same = one.rows().len() == other.rows().len() && one.next_free() == other.next_free();
    for (a, b) in one.rows().iter().zip(other.rows()) {
        same = same && is_same_row(a, b);
    }
    same
}
