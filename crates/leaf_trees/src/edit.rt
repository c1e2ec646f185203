//! A leaf put into a tree, taken out of it, or changed.

ghost use Rattle.std.specs.Prelude.{◌≡◌, ◌<◌, length};
ghost use Rattle.leaf_trees.specs.Tree.{Item, Tree, leaf, fork, size, counted};
ghost use Rattle.leaf_trees.specs.Balance.{put_in, flag_at};
ghost use Rattle.leaf_trees.specs.Arena.{HasTree};
ghost use Rattle.leaf_trees.specs.Change.{Becomes, Ready, Recounts};
ghost use Rattle.leaf_trees.specs.Cut.{Cuts};

use crate::balance::balance;
use crate::link::{link, link_on};
use crate::node::{Flags, Node};
use crate::side::{Side, Way};

/// What is left of a tree without one of its leaves.
#[derive(Clone, Copy)]
pub struct Cut {
    pub top: u32,
    /// The place of a leaf beside the one that went.
    pub place: u32,
    /// The leaf, and the fork above it, which are in the tree no more.
    pub item: u32,
    pub fork: u32,
}

/// Puts the leaf `item` before a place of the tree below `top`, with the new fork `joint`.
pub fn insert_under(nodes: &mut [Node], top: u32, place: u32, joint: u32, item: u32) -> u32
    requires { (x : Item) × (t : Tree) × Ready nodes.old top joint x t × (x.number ≡ item) }
    ensures { (x : Item) (t : Tree) → Ready nodes.old top joint x t → x.number ≡ item
        → Becomes nodes.old nodes.new result (fork joint (leaf x) t) (put_in joint x place t) }
{
    let node = nodes[top as usize];
    if node.height == 0 {
        if place > 0 {
            link(nodes, joint, top, item);
        } else {
            link(nodes, joint, item, top);
        }
        return joint;
    }
    let before = nodes[node.left as usize].counts.leaves;
    if place <= before {
        let left = insert_under(nodes, node.left, place, joint, item);
        balance(nodes, Side::Left, top, left, node.right)
    } else {
        let right = insert_under(nodes, node.right, place - before, joint, item);
        balance(nodes, Side::Right, top, right, node.left)
    }
}

/// Takes the leaf at a place out of the tree below `top`. Nothing changes where there is no other.
pub fn remove_under(nodes: &mut [Node], top: u32, place: u32) -> Option<Cut>
    requires { (t : Tree) × HasTree nodes.old top t × (place < size t) }
    ensures { (t : Tree) → HasTree nodes.old top t → place < size t → Cuts nodes.old nodes.new t place result }
{
    let node = nodes[top as usize];
    if node.height == 0 {
        return None;
    }
    let way = Way::to(place, nodes[node.left as usize].counts.leaves);
    let here = node.on(way.side);
    let there = node.on(way.side.other());
    let beside = nodes[there as usize].counts.leaves;
    match remove_under(nodes, here, way.place) {
        None => Some(Cut {
            top: there,
            place: way.side.nearest(beside),
            item: here,
            fork: top,
        }),
        Some(cut) => Some(Cut {
            top: balance(nodes, way.side, top, cut.top, there),
            place: way.side.place_on(beside, cut.place),
            ..cut
        }),
    }
}

/// Gives the leaf at a place of the tree below `top` these flags.
pub fn flag_under(nodes: &mut [Node], top: u32, place: u32, flags: Flags)
    requires { (t : Tree) × HasTree nodes.old top t × (place < size t) }
    ensures { (t : Tree) → HasTree nodes.old top t → place < size t → Becomes nodes.old nodes.new top t (flag_at flags place t) }
{
    let node = nodes[top as usize];
    if node.height == 0 {
        recount(nodes, top, flags);
        return;
    }
    let way = Way::to(place, nodes[node.left as usize].counts.leaves);
    let here = node.on(way.side);
    let there = node.on(way.side.other());
    flag_under(nodes, here, way.place, flags);
    link_on(nodes, way.side, top, here, there);
}

/// Counts a leaf anew.
fn recount(nodes: &mut [Node], leaf: u32, flags: Flags)
    requires { leaf < length nodes.old }
    ensures { Recounts nodes.old nodes.new leaf (counted flags.element flags.marked) }
{
    nodes[leaf as usize].counts = flags.counts();
}
