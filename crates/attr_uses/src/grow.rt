//! Parts of maps below a node, made of others.

ghost use Rattle.std.specs.Prelude.{◌≡◌, ◌^◌, ◌<◌, ◌≤◌, length, IfOk};
ghost use Rattle.attr_uses.specs.Nodes.{node_at, node_left, node_right, node_entry, IsMap, IsNoFork, IsNoLeaf, IsNodeIn, AreNodes};
ghost use Rattle.attr_uses.specs.Steps.{Grown, Puts, Combines};

use crate::node::{Node, node_of};
use crate::{Entry, Join};
use std::alloc::AllocError;

// The part below a node of so many levels, with one entry more.
pub(crate) fn put_under(
    nodes: &mut Vec<Node>,
    levels: u32,
    at: u32,
    name: u32,
    entry: Entry,
) -> Result<u32, AllocError>
    requires nodes { AreNodes nodes.old.items }
    requires levels { levels ≤ 32 }
    requires there { at < length nodes.old.items }
    requires shape { IsMap nodes.old.items levels at }
    requires name { name < 2 ^ levels }
    ensures grown { Grown nodes.old.items nodes.new.items }
    ensures put { IfOk result (λ n. Puts nodes.old.items nodes.new.items levels at name entry n) }
{
    let node = node_of(nodes, at);
    if levels == 0 {
        return leaf(nodes, Join::Union.joined(node.entry(), Some(entry)));
    }
    let (left, right) = node.sides();
    let half = half_of(levels - 1);
    if name < half {
        let left = put_under(nodes, levels - 1, left, name, entry)?;
        fork(nodes, left, right, at)
    } else {
        let right = put_under(nodes, levels - 1, right, name - half, entry)?;
        fork(nodes, left, right, at)
    }
}

// Two parts of so many levels, made one.
pub(crate) fn combine_under(
    nodes: &mut Vec<Node>,
    levels: u32,
    how: Join,
    first: u32,
    second: u32,
) -> Result<u32, AllocError>
    requires nodes { AreNodes nodes.old.items }
    requires first { first < length nodes.old.items }
    requires second { second < length nodes.old.items }
    requires first_shape { IsMap nodes.old.items levels first }
    requires second_shape { IsMap nodes.old.items levels second }
    ensures grown { Grown nodes.old.items nodes.new.items }
    ensures combined { IfOk result (λ n. Combines how nodes.old.items nodes.new.items levels first second n) }
{
    if first == 0 {
        return Ok(second);
    }
    if second == 0 || first == second {
        return Ok(how.kept(first));
    }
    let one = node_of(nodes, first);
    let two = node_of(nodes, second);
    if levels == 0 {
        return leaf(nodes, how.joined(one.entry(), two.entry()));
    }
    let left = combine_under(nodes, levels - 1, how, one.sides().0, two.sides().0)?;
    let right = combine_under(nodes, levels - 1, how, one.sides().1, two.sides().1)?;
    fork(nodes, left, right, second)
}

// A part of one name: a new node, where it has an entry.
fn leaf(nodes: &mut Vec<Node>, entry: Option<Entry>) -> Result<u32, AllocError>
    requires nodes { AreNodes nodes.old.items }
    ensures grown { Grown nodes.old.items nodes.new.items }
    ensures there { IfOk result (λ n. n < length nodes.new.items) }
    ensures no_fork { IfOk result (λ n. IsNoFork (node_at nodes.new.items n)) }
    ensures entry { IfOk result (λ n. node_entry (node_at nodes.new.items n) ≡ entry) }
{
    match entry {
        Some(entry) => push(nodes, Node::Leaf(entry)),
        None => Ok(0),
    }
}

// A part of two: this one, if it has the same, or else a new node.
fn fork(nodes: &mut Vec<Node>, left: u32, right: u32, like: u32) -> Result<u32, AllocError>
    requires nodes { AreNodes nodes.old.items }
    requires left { left < length nodes.old.items }
    requires right { right < length nodes.old.items }
    requires like { like < length nodes.old.items }
    requires shape { IsNoLeaf (node_at nodes.old.items like) }
    ensures grown { Grown nodes.old.items nodes.new.items }
    ensures there { IfOk result (λ n. n < length nodes.new.items) }
    ensures no_leaf { IfOk result (λ n. IsNoLeaf (node_at nodes.new.items n)) }
    ensures left { IfOk result (λ n. node_left (node_at nodes.new.items n) ≡ left) }
    ensures right { IfOk result (λ n. node_right (node_at nodes.new.items n) ≡ right) }
{
    if left == 0 && right == 0 {
        return Ok(0);
    }
    if node_of(nodes, like).sides() == (left, right) {
        return Ok(like);
    }
    let sum = node_of(nodes, left).sum().and(node_of(nodes, right).sum());
    push(nodes, Node::Fork { left, right, sum })
}

// Adds a node, and answers its number.
fn push(nodes: &mut Vec<Node>, node: Node) -> Result<u32, AllocError>
    requires nodes { AreNodes nodes.old.items }
    requires node { IsNodeIn nodes.old.items node }
    ensures grown { Grown nodes.old.items nodes.new.items }
    ensures there { IfOk result (λ n. n < length nodes.new.items) }
    ensures node { IfOk result (λ n. node_at nodes.new.items n ≡ node) }
{
    let number = nodes.len();
    if number >= u32::MAX as usize {
        return Err(AllocError);
    }
    nodes.push(node)?;
    Ok(number as u32)
}

// How many numbers the lower half has, where a part has one level more than these.
pub(crate) fn half_of(levels: u32) -> u32
    requires { levels < 32 }
    ensures { result ≡ 2 ^ levels }
{
    1 << levels
}
