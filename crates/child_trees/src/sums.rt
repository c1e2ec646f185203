//! The maps of a tree's leaves, and the sums at its forks.

ghost use Rattle.std.specs.Prelude.{◌≡◌, ℕ, ◌+◌, ◌*◌, ◌<◌, ◌≤◌, List, length, map, All};
ghost use Rattle.leaf_trees.specs.Tree.{Tree, size, height, leaves as tree_leaves, Has};
ghost use Rattle.std.specs.Option.{ForSome};
ghost use Rattle.child_trees.specs.Cells.{map_at};
ghost use Rattle.child_trees.specs.Lists.{map_by};
ghost use Rattle.child_trees.specs.Sums.{HasCells, AreSums, AreSidesSums, AreSumsBut, KeepsMaps, SameSlots};

use crate::cells::Cells;
use crate::leaf::Leaf;
use crate::summary::Summary;
use leaf_trees::Node;
use xsv_steps::{Ledger, Steps};

/// Sums up the two sides of a node, where it is a fork.
fn sum_sides<M: Summary, L: Ledger>(
    cells: &mut Cells<M>,
    nodes: &[Node],
    top: u32,
    steps: &mut Steps<L>,
)
    requires { (t : Tree) × HasCells (length cells.old.maps) nodes.now top t }
    ensures sums { (t : Tree) → HasCells (length cells.old.maps) nodes.now top t
        → AreSidesSums M.join (map_at M.unit cells.old) t → AreSums M.join (map_at M.unit cells.new) t }
    ensures maps { (t : Tree) → HasCells (length cells.old.maps) nodes.now top t → KeepsMaps M.unit cells.old cells.new t }
    ensures slots { SameSlots cells.old cells.new }
    ensures least { steps.old ≤ steps.new }
    ensures steps { steps.new ≤ steps.old + 1 }
{
    let node = nodes[top as usize];
    if node.height > 0 {
        cells.join(node.left, node.right, top, steps);
    }
}

/// Sums up again on the way from the leaf at a place to `top`, and beside that way.
pub fn sum_along<M: Summary, L: Ledger>(
    cells: &mut Cells<M>,
    nodes: &[Node],
    top: u32,
    place: u32,
    steps: &mut Steps<L>,
)
    requires { (t : Tree) × HasCells (length cells.old.maps) nodes.now top t }
    ensures sums { (t : Tree) → HasCells (length cells.old.maps) nodes.now top t
        → AreSumsBut M.join (map_at M.unit cells.old) place t → AreSums M.join (map_at M.unit cells.new) t }
    ensures maps { (t : Tree) → HasCells (length cells.old.maps) nodes.now top t → KeepsMaps M.unit cells.old cells.new t }
    ensures slots { SameSlots cells.old cells.new }
    ensures least { steps.old ≤ steps.new }
    ensures steps { (t : Tree) → HasCells (length cells.old.maps) nodes.now top t → steps.new ≤ steps.old + 2 * height t }
{
    let node = nodes[top as usize];
    if node.height == 0 {
        return;
    }
    let before = nodes[node.left as usize].counts.leaves;
    if place < before {
        sum_along(cells, nodes, node.left, place, steps);
        sum_sides(cells, nodes, node.right, steps);
        cells.join(node.left, node.right, top, steps);
    } else {
        sum_sides(cells, nodes, node.left, steps);
        sum_along(cells, nodes, node.right, place - before, steps);
        cells.join(node.left, node.right, top, steps);
    }
}

/// Writes the maps of the leaves of the tree below `top`, and sums up all its forks.
pub fn write_leaves<M: Summary, L: Ledger>(
    cells: &mut Cells<M>,
    nodes: &[Node],
    top: u32,
    leaves: &[Leaf<M::Letter>],
    source: &M::Source,
    steps: &mut Steps<L>,
)
    requires tree { (t : Tree) × HasCells (length cells.old.maps) nodes.now top t × (size t ≡ length leaves.now) }
    requires fits { All (λ l. ForSome l.letter (M.fits cells.old.shape source.now)) leaves.now }
    ensures sums { (t : Tree) → HasCells (length cells.old.maps) nodes.now top t → size t ≡ length leaves.now
        → AreSums M.join (map_at M.unit cells.new) t }
    ensures maps { (t : Tree) → HasCells (length cells.old.maps) nodes.now top t → size t ≡ length leaves.now
        → map (λ x. map_at M.unit cells.new x.number) (tree_leaves t) ≡ map (λ l. map_by (M.unit cells.old.shape) (M.leaf source.now) l.letter) leaves.now }
    ensures others { (t : Tree) → HasCells (length cells.old.maps) nodes.now top t → (j : ℕ) → ¬ Has t j
        → map_at M.unit cells.new j ≡ map_at M.unit cells.old j }
    ensures slots { SameSlots cells.old cells.new }
    ensures least { steps.old ≤ steps.new }
    ensures steps { steps.new + 1 ≤ steps.old + 2 * length leaves.now }
{
    let node = nodes[top as usize];
    if node.height == 0 {
        let leaf = &leaves[0];
        cells.set(top, leaf.letter, source, steps);
        return;
    }
    let (front, back) = leaves.split_at(nodes[node.left as usize].counts.leaves as usize);
    write_leaves(cells, nodes, node.left, front, source, steps);
    write_leaves(cells, nodes, node.right, back, source, steps);
    cells.join(node.left, node.right, top, steps);
}
