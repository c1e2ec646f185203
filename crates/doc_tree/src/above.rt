//! What is found from a node upwards: the next element, and the scope.

ghost use Rattle.std.specs.Prelude.{◌≡◌, ◌<◌, ◌+◌, ℕ, ◌++◌, map, reverse, find, filter, take, drop, All, length, slice_get, Some, None, OnOk, IfOk};
ghost use Rattle.std.specs.Option.{option_map, option_and_then};
ghost use Rattle.xs_names.specs.Names.{NameTable};
ghost use Rattle.tree_rows.specs.Forest.{Document};
ghost use Rattle.tree_edits.specs.Edits.{scope_in};
ghost use Rattle.tag_names.specs.Scopes.{binding_in};
ghost use Rattle.doc_nodes.specs.Nodes.{Node, IsSound, IsNode, IsChildAt, is_element_at, children_by};
ghost use Rattle.doc_nodes.specs.Nodes as nodes;
ghost use Rattle.doc_changes.specs.Held.{parent_at, bindings_at};
ghost use Rattle.doc_changes.specs.Stands.{StandsFor, binding_of};
ghost use Rattle.doc_changes.specs.Readers.{own_scope, scope_at};
ghost use Rattle.doc_tree.specs.Following.{past_of};

use crate::contents::bindings_of;
use doc_nodes::{NameBinding, NodeLinks};
use std::alloc::{AllocError, Global};
use xs_names::Scope;

/// The first element behind a node among the children of its parent.
fn element_behind(links: &NodeLinks, node: u32, parent: u32) -> Option<u32>
    requires { parent_at links.now node ≡ Some parent }
    ensures element { (place : ℕ) → IsChildAt links.now parent place node → result ≡ find (is_element_at links.now) (drop (place + 1) (children_by (nodes.node links.now parent))) }
    ensures sound { IsSound links.now }
{
    let beside = links.child_count(parent);
    match links.place(node) {
        None => None,
        Some(place) => {
            if place < beside {
                links.element_from(parent, place + 1)
            } else {
                None
            }
        }
    }
}

/// The first element that comes, in document order, after a node and all that is below it.
pub(crate) fn element_past(links: &NodeLinks, node: u32) -> Option<u32>
    ensures tree { (t : NameTable) (d : Document) → StandsFor t links.now d → result ≡ past_of node d.forest }
    ensures sound { IsSound links.now }
{
    let mut below = node;
    'up: while let Some(parent) = links.parent(below) {
        let element = element_behind(links, below, parent);
        if element.is_some() {
            return element;
        }
        below = parent;
    }
    None
}

/// How many elements come before a node among the children of its parent.
pub(crate) fn elements_before(links: &NodeLinks, node: u32) -> Option<u32>
    ensures before { (p place : ℕ) → IsChildAt links.now p place node → result ≡ Some (length (filter (is_element_at links.now) (take place (children_by (nodes.node links.now p))))) }
    ensures none { parent_at links.now node ≡ None → result ≡ None }
    ensures sound { IsSound links.now }
{
    match links.parent(node) {
        None => None,
        Some(parent) => match links.place(node) {
            None => None,
            Some(place) => Some(links.elements_upto(parent, place)),
        },
    }
}

/// Binds these prefixes, so that the first is the latest.
fn bind_all(scope: &mut Scope, bindings: &[NameBinding]) -> Result<(), AllocError>
    ensures { OnOk result (scope.new ≡ map (λ b. (b.prefix, b.namespace)) bindings.now ++ scope.old) }
{
    let mut left = bindings.len();
    while 0 < left {
        left -= 1;
        scope.bind(&bindings[left].prefix, bindings[left].namespace)?;
    }
    Ok(())
}

/// Binds what the elements around a node bind, from the outermost on, and then what it binds itself.
pub(crate) fn bind_above(links: &NodeLinks, node: u32, scope: &mut Scope) -> Result<(), AllocError>
    ensures tree { OnOk result ((t : NameTable) (d : Document) (it : Node) → StandsFor t links.now d → IsNode links.now node it → map (binding_in t) scope.new ≡ scope_in node (map (binding_in t) scope.old) d.forest) }
    ensures within { OnOk result ((t : NameTable) (d : Document) → StandsFor t links.now d → All (λ b. b.1 < length t.spaces) scope.old → All (λ b. b.1 < length t.spaces) scope.new) }
{
    if let Some(parent) = links.parent(node) {
        bind_above(links, parent, scope)?;
    }
    match links.content(node) {
        None => Ok(()),
        Some(content) => bind_all(scope, bindings_of(content)),
    }
}

/// Binds what an element binds, one prefix after the other.
fn bind_own(scope: &mut Scope, bindings: &[NameBinding]) -> Result<(), AllocError>
    ensures { OnOk result (scope.new ≡ reverse (map (λ b. (b.prefix, b.namespace)) bindings.now) ++ scope.old) }
{
    for binding in bindings {
        scope.bind(&binding.prefix, binding.namespace)?;
    }
    Ok(())
}

/// Binds what a node binds, in the scope around it.
fn bind_node(links: &NodeLinks, node: u32, around: Scope) -> Result<Scope, AllocError>
    ensures { IfOk result (λ scope. scope ≡ own_scope links.now node ++ around) }
{
    let mut scope = around;
    match links.content(node) {
        None => Ok(scope),
        Some(content) => {
            bind_own(&mut scope, bindings_of(content))?;
            Ok(scope)
        }
    }
}

/// What is bound in a node: outside of all elements, then by the elements around it, the outermost first, and then by itself.
pub(crate) fn scope_upwards(
    alloc: Global,
    links: &NodeLinks,
    node: u32,
) -> Result<Scope, AllocError>
    ensures { IfOk result (λ scope. scope ≡ scope_at links.now node) }
{
    match links.parent(node) {
        None => {
            let outside = Scope::new(alloc)?;
            bind_node(links, node, outside)
        }
        Some(parent) => {
            let around = scope_upwards(alloc, links, parent)?;
            bind_node(links, node, around)
        }
    }
}
