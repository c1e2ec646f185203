//! The characters of texts, one after another.

ghost use Rattle.std.specs.Prelude.{◌≡◌, ◌∷◌, [], flat_map, unwrap_or, IfOk, IfSome};
ghost use Rattle.std.specs.Option.{option_copied};
ghost use Rattle.doc_nodes.specs.Nodes as nodes;
ghost use Rattle.doc_nodes.specs.Nodes.{children_by};
ghost use Rattle.doc_changes.specs.Readers.{chars_at};

use crate::contents::text_in;
use doc_nodes::NodeLinks;
use std::alloc::{AllocError, Global};
use xs_names::Text;

/// The characters of a node that is a text.
fn text_at(links: &NodeLinks, node: u32) -> Option<&Text>
    ensures { unwrap_or (option_copied result) [] ≡ chars_at links.now node }
{
    match links.content(node) {
        None => None,
        Some(content) => text_in(content),
    }
}

/// The characters of the texts among some nodes, one after another.
fn joined(alloc: Global, links: &NodeLinks, nodes: &[u32]) -> Result<Text, AllocError>
    ensures { IfOk result (λ text. text ≡ flat_map (chars_at links.now) nodes.now) }
{
    let mut chars = String::new(alloc);
    for node in nodes {
        if let Some(text) = text_at(links, *node) {
            chars.push_str(text.as_str())?;
        }
    }
    Text::from_string(chars)
}

/// The child of a node that has no other.
pub(crate) fn only_child(links: &NodeLinks, node: u32) -> Option<u32>
    ensures { IfSome result (λ child. children_by (nodes.node links.now node) ≡ child ∷ []) }
{
    if links.child_count(node) == 1 {
        links.child_at(node, 0)
    } else {
        None
    }
}

/// The characters of the texts among some nodes, one after another. Those of a text alone are shared.
pub(crate) fn texts_of(alloc: Global, links: &NodeLinks, nodes: &[u32]) -> Result<Text, AllocError>
    ensures { IfOk result (λ text. text ≡ flat_map (chars_at links.now) nodes.now) }
{
    match nodes {
        [node] => match text_at(links, *node) {
            None => Text::new(alloc, ""),
            Some(text) => text.try_clone(),
        },
        _ => joined(alloc, links, nodes),
    }
}
