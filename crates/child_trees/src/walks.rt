//! The states along the leaves of a tree.

ghost use Rattle.std.specs.Prelude.{◌≡◌, ℕ, ◌+◌, ◌-◌, ◌≤◌, List, take, drop, true};
ghost use Rattle.leaf_trees.specs.Tree.{Tree, size, height};
ghost use Rattle.child_trees.specs.Cells.{map_at};
ghost use Rattle.child_trees.specs.Lists.{acts_along, IsFirstDead};
ghost use Rattle.child_trees.specs.Sums.{HasSums, entries, TakesFew};

use crate::cells::Cells;
use crate::summary::Summary;
use leaf_trees::Node;
use xsv_steps::{Ledger, Steps};

/// The state after the leaves of the tree below `top` from a place on, up to another place.
pub fn run_between<M: Summary, L: Ledger>(
    cells: &Cells<M>,
    nodes: &[Node],
    top: u32,
    from: u32,
    to: u32,
    state: M::State,
    steps: &mut Steps<L>,
) -> M::State
    requires tree { (t : Tree) × HasSums M.unit M.join cells.now nodes.now top t }
    requires state { M.is_state cells.now.shape state }
    ensures value { (t : Tree) → HasSums M.unit M.join cells.now nodes.now top t
        → result ≡ acts_along M.acts state (drop from (take to (entries (map_at M.unit cells.now) t))) }
    ensures state { M.is_state cells.now.shape result }
    ensures least { steps.old ≤ steps.new }
    ensures steps { (t : Tree) → HasSums M.unit M.join cells.now nodes.now top t → TakesFew t from to (steps.new - steps.old) }
{
    let node = nodes[top as usize];
    let end = to.min(node.counts.leaves);
    if from >= end {
        return state;
    }
    if end - from == node.counts.leaves {
        return cells.act(top, state, steps);
    }
    let before = nodes[node.left as usize].counts.leaves;
    let from_right = from.saturating_sub(before);
    let end_right = end.saturating_sub(before);
    let middle = run_between(cells, nodes, node.left, from, end, state, steps);
    run_between(
        cells, nodes, node.right, from_right, end_right, middle, steps,
    )
}

/// The first place of the tree below `top` through which the leaves lead to a dead state, where all of them do.
pub fn first_dead<M: Summary, L: Ledger>(
    cells: &Cells<M>,
    nodes: &[Node],
    top: u32,
    state: M::State,
    steps: &mut Steps<L>,
) -> u32
    requires tree { (t : Tree) × HasSums M.unit M.join cells.now nodes.now top t
        × (M.is_dead cells.now.shape (acts_along M.acts state (entries (map_at M.unit cells.now) t)) ≡ true) }
    requires state { M.is_state cells.now.shape state }
    ensures place { (t : Tree) → HasSums M.unit M.join cells.now nodes.now top t
        → M.is_dead cells.now.shape (acts_along M.acts state (entries (map_at M.unit cells.now) t)) ≡ true
        → IsFirstDead M.acts (M.is_dead cells.now.shape) state (entries (map_at M.unit cells.now) t) result }
    ensures least { steps.old ≤ steps.new }
    ensures steps { (t : Tree) → HasSums M.unit M.join cells.now nodes.now top t → steps.new ≤ steps.old + height t }
{
    let node = nodes[top as usize];
    if node.height == 0 {
        return 0;
    }
    let after = cells.act(node.left, state, steps);
    if cells.dead(after) {
        first_dead(cells, nodes, node.left, state, steps)
    } else {
        let before = nodes[node.left as usize].counts.leaves;
        before + first_dead(cells, nodes, node.right, after, steps)
    }
}
