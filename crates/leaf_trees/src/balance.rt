//! Turns, which keep a tree balanced.

ghost use Rattle.std.specs.Prelude.{◌≡◌, ◌+◌, ◌<◌, ◌≤◌};
ghost use Rattle.leaf_trees.specs.Tree.{Tree, fork, height};
ghost use Rattle.leaf_trees.specs.Balance.{turned, heavy, balanced};
ghost use Rattle.leaf_trees.specs.Change.{Sides, Becomes};

use crate::link::link_on;
use crate::node::Node;
use crate::side::Side;

/// Two trees below `i`, of which the one on this side, a fork, comes to the top.
fn turn(nodes: &mut [Node], side: Side, i: u32, high: u32, low: u32) -> u32
    requires { (t : Tree) × (u : Tree) × Sides nodes.old i high low t u × (0 < height t) }
    ensures { (t u : Tree) → Sides nodes.old i high low t u → 0 < height t
        → Becomes nodes.old nodes.new result (fork i t u) (turned side i t u) }
{
    let top = nodes[high as usize];
    link_on(nodes, side, i, top.on(side.other()), low);
    link_on(nodes, side, high, top.on(side), i);
    high
}

/// Two trees below `i`, of which the one on this side is too high.
fn lean(nodes: &mut [Node], side: Side, i: u32, high: u32, low: u32) -> u32
    requires { (t : Tree) × (u : Tree) × Sides nodes.old i high low t u × (height u + 1 < height t) }
    ensures { (t u : Tree) → Sides nodes.old i high low t u
        → Becomes nodes.old nodes.new result (fork i t u) (turned side i (heavy side t) u) }
{
    let top = nodes[high as usize];
    let outer = top.on(side);
    let inner = top.on(side.other());
    if nodes[inner as usize].height <= nodes[outer as usize].height {
        return turn(nodes, side, i, high, low);
    }
    let high = turn(nodes, side.other(), high, inner, outer);
    turn(nodes, side, i, high, low)
}

/// Makes a tree of two below `i`, the first of them on this side, turned where one of them is more than one higher.
pub fn balance(nodes: &mut [Node], side: Side, i: u32, here: u32, there: u32) -> u32
    requires { (t : Tree) × (u : Tree) × Sides nodes.old i here there t u }
    ensures { (t u : Tree) → Sides nodes.old i here there t u
        → Becomes nodes.old nodes.new result (fork i t u) (balanced side i t u) }
{
    let height = nodes[here as usize].height;
    let other = nodes[there as usize].height;
    if height > other + 1 {
        lean(nodes, side, i, here, there)
    } else if other > height + 1 {
        lean(nodes, side.other(), i, there, here)
    } else {
        link_on(nodes, side, i, here, there);
        i
    }
}
