//! Two trees made one.

ghost use Rattle.std.specs.Prelude.{◌≡◌, ◌≢◌, ◌+◌, ◌^◌, ◌<◌, length};
ghost use Rattle.leaf_trees.specs.Tree.{Tree, fork};
ghost use Rattle.leaf_trees.specs.Side.{fork_on};
ghost use Rattle.leaf_trees.specs.Arena.{at, Holds};
ghost use Rattle.leaf_trees.specs.Change.{CanAdd, Links, Sides, Becomes};

use crate::node::{Above, Node};
use crate::side::Side;

/// Writes the sides of node `i`, and what stands above them.
fn write_link(nodes: &mut [Node], i: u32, left: u32, right: u32)
    requires node { i < length nodes.old }
    requires left { left < length nodes.old }
    requires right { right < length nodes.old }
    requires not_left { left ≢ i }
    requires not_right { right ≢ i }
    requires two { left ≢ right }
    requires left_height { (at nodes.old left).height + 1 < 2 ^ 32 }
    requires right_height { (at nodes.old right).height + 1 < 2 ^ 32 }
    requires counts { CanAdd (at nodes.old left).counts (at nodes.old right).counts }
    ensures { Links nodes.old nodes.new i left right }
{
    let height = nodes[left as usize]
        .height
        .max(nodes[right as usize].height)
        + 1;
    let counts = nodes[left as usize]
        .counts
        .plus(nodes[right as usize].counts);
    nodes[left as usize].above = Above::Fork(i);
    nodes[right as usize].above = Above::Fork(i);
    let node = &mut nodes[i as usize];
    node.left = left;
    node.right = right;
    node.height = height;
    node.counts = counts;
}

/// Makes a tree of two, below node `i`.
pub fn link(nodes: &mut [Node], i: u32, left: u32, right: u32)
    requires { (lt : Tree) × (rt : Tree) × Sides nodes.old i left right lt rt }
    ensures links { Links nodes.old nodes.new i left right }
    ensures becomes { (lt rt : Tree) → Sides nodes.old i left right lt rt → Becomes nodes.old nodes.new i (fork i lt rt) (fork i lt rt) }
{
    write_link(nodes, i, left, right);
}

/// The same, the first of the two on this side.
pub fn link_on(nodes: &mut [Node], side: Side, i: u32, here: u32, there: u32)
    requires { (t : Tree) × (u : Tree) × Sides nodes.old i here there t u }
    ensures { (t u : Tree) → Sides nodes.old i here there t u → Becomes nodes.old nodes.new i (fork i t u) (fork_on side i t u) }
{
    match side {
        Side::Left => link(nodes, i, here, there),
        Side::Right => link(nodes, i, there, here),
    }
}
