ghost use Rattle.std.specs.Prelude.{◌≡◌, ℕ, ◌+◌, ◌^◌, ◌<◌, ◌≤◌, ◌↔◌, Option, length, IsTrue, IfSome, true, IfOk, OnOk};
ghost use Rattle.std.specs.Option.{option_map};
ghost use Rattle.attr_uses.specs.Nodes.{find, node_at, node_left, node_right, IsMap, AreNodes};
ghost use Rattle.attr_uses.specs.Maps.{IsMapOf, SomeIs, TwoAre, AreNeeded, ArePut, IsNextUnlike};
ghost use Rattle.attr_uses.specs.declared.entry.Entry.{Entry};

use crate::grow::half_of;
use crate::node::{Node, node_of};
use crate::{Entry, NeededUse, UseMap, UseMaps};
use std::alloc::{AllocError, Global};

impl UseMaps {
    /// What a map has for a name.
    pub fn get(&self, map: UseMap, name: u32) -> Option<Entry>
        requires map { (has : ℕ → Option Entry) × IsMapOf self.now map.top has }
        ensures entry { (has : ℕ → Option Entry) → IsMapOf self.now map.top has → name < 2 ^ self.now.depth → result ≡ has name }
    {
        entry_under(&self.nodes, self.depth, map.top, name)
    }

    /// Whether some name of a map has more than one use.
    pub fn has_double(&self, map: UseMap) -> bool
        requires map { (has : ℕ → Option Entry) × IsMapOf self.now map.top has }
        ensures double { (has : ℕ → Option Entry) → IsMapOf self.now map.top has → IsTrue result ↔ SomeIs self.now.depth (λ e. e.double) has }
    {
        node_of(&self.nodes, map.top).sum().double
    }

    /// Whether two names of a map have first uses of types of ids.
    pub fn has_two_ids(&self, map: UseMap) -> bool
        requires map { (has : ℕ → Option Entry) × IsMapOf self.now map.top has }
        ensures two { (has : ℕ → Option Entry) → IsMapOf self.now map.top has → IsTrue result ↔ TwoAre self.now.depth (λ e. e.id) has }
    {
        node_of(&self.nodes, map.top).sum().two_ids
    }

    /// The names whose first uses are needed, the least first, each with that use.
    ///
    /// # Errors
    ///
    /// `AllocError` is want of memory.
    pub fn needed(&self, alloc: Global, map: UseMap) -> Result<Vec<NeededUse>, AllocError>
        requires map { (has : ℕ → Option Entry) × IsMapOf self.now map.top has }
        ensures needed { (has : ℕ → Option Entry) → IsMapOf self.now map.top has → IfOk result (λ needed. AreNeeded has 0 (2 ^ self.now.depth) needed.items) }
    {
        let mut needed = Vec::new(alloc);
        needed_under(&self.nodes, self.depth, map.top, 0, &mut needed)?;
        Ok(needed)
    }

    /// The next name, from this number on, for which two maps may have different entries: they have the same for each name that
    /// is passed over. Parts that the maps share are passed over whole.
    pub fn next_unlike(&self, one: UseMap, other: UseMap, from: u32) -> Option<u32>
        requires one { (has : ℕ → Option Entry) × IsMapOf self.now one.top has }
        requires other { (has : ℕ → Option Entry) × IsMapOf self.now other.top has }
        ensures next { (has also : ℕ → Option Entry) → IsMapOf self.now one.top has → IsMapOf self.now other.top also → IsNextUnlike self.now.depth has also from result }
    {
        unlike_under(&self.nodes, self.depth, one.top, other.top, from)
    }
}

// The entry of a name below a node of so many levels.
fn entry_under(nodes: &[Node], depth: u32, top: u32, name: u32) -> Option<Entry>
    requires nodes { AreNodes nodes.now }
    requires levels { depth ≤ 32 }
    requires there { top < length nodes.now }
    ensures { result ≡ find nodes.now depth top name }
{
    let mut levels = depth;
    let mut at = top;
    let mut rest = name;
    while levels > 0 {
        levels -= 1;
        let half = half_of(levels);
        let (left, right) = sides_at(nodes, at);
        if rest < half {
            at = left;
        } else {
            at = right;
            rest -= half;
        }
    }
    node_of(nodes, at).entry()
}

// Both parts of a fork of a number; the part of nothing where there is none. The node is not copied.
fn sides_at(nodes: &[Node], number: u32) -> (u32, u32)
    requires { number < length nodes.now }
    ensures { result ≡ (node_left (node_at nodes.now number), node_right (node_at nodes.now number)) }
{
    match &nodes[number as usize] {
        Node::Empty | Node::Leaf(_) => (0, 0),
        Node::Fork { left, right, .. } => (*left, *right),
    }
}

// Puts the needed names below a node of so many levels at the end, the least first, with their first uses. The names below it
// begin at this number.
fn needed_under(
    nodes: &[Node],
    levels: u32,
    at: u32,
    from: u32,
    needed: &mut Vec<NeededUse>,
) -> Result<(), AllocError>
    requires nodes { AreNodes nodes.now }
    requires levels { levels ≤ 32 }
    requires there { at < length nodes.now }
    requires shape { IsMap nodes.now levels at }
    requires within { from + 2 ^ levels ≤ 2 ^ 32 }
    ensures put { OnOk result (ArePut (find nodes.now levels at) levels from needed.old.items needed.new.items) }
{
    let node = node_of(nodes, at);
    if !node.sum().needed {
        return Ok(());
    }
    if levels == 0 {
        return put_entry(node.entry(), from, needed);
    }
    let half = half_of(levels - 1);
    let (left, right) = node.sides();
    needed_under(nodes, levels - 1, left, from, needed)?;
    needed_under(nodes, levels - 1, right, from + half, needed)
}

// Puts a name with the first use of its entry at the end, if it has one.
fn put_entry(found: Option<Entry>, name: u32, needed: &mut Vec<NeededUse>) -> Result<(), AllocError>
    requires needed { IfSome found (λ entry. entry.needed ≡ true) }
    ensures put { OnOk result (ArePut (λ key. found) 0 name needed.old.items needed.new.items) }
{
    match found {
        None => Ok(()),
        Some(entry) => {
            needed.push(NeededUse {
                name,
                at: entry.first,
            })?;
            Ok(())
        }
    }
}

// The next name from this number on for which two parts of so many levels may have different entries.
fn unlike_under(nodes: &[Node], levels: u32, one: u32, other: u32, from: u32) -> Option<u32>
    requires nodes { AreNodes nodes.now }
    requires levels { levels ≤ 32 }
    requires one { one < length nodes.now }
    requires other { other < length nodes.now }
    requires one_shape { IsMap nodes.now levels one }
    requires other_shape { IsMap nodes.now levels other }
    ensures next { IsNextUnlike levels (find nodes.now levels one) (find nodes.now levels other) from result }
{
    if one == other {
        return None;
    }
    if levels == 0 {
        return if from == 0 { Some(0) } else { None };
    }
    let half = half_of(levels - 1);
    let (left, right) = node_of(nodes, one).sides();
    let (other_left, other_right) = node_of(nodes, other).sides();
    if from >= half {
        return beyond(
            half,
            unlike_under(nodes, levels - 1, right, other_right, from - half),
        );
    }
    match unlike_under(nodes, levels - 1, left, other_left, from) {
        Some(name) => Some(name),
        None => beyond(half, unlike_under(nodes, levels - 1, right, other_right, 0)),
    }
}

// The number in the whole of a number in the upper half.
fn beyond(half: u32, name: Option<u32>) -> Option<u32>
    requires { IfSome name (λ n. half + n < 2 ^ 32) }
    ensures { result ≡ option_map (λ n. half + n) name }
{
    match name {
        Some(name) => Some(half + name),
        None => None,
    }
}
