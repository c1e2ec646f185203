//! What a tree tells.

ghost use Rattle.std.specs.Prelude.{◌≡◌, ℕ, ◌<◌, ◌≤◌, length, slice_index};
ghost use Rattle.leaf_trees.specs.Tree.{Tree, size, marked_items, elements_before, IsItemAt};
ghost use Rattle.leaf_trees.specs.Arena.{IsTreeOf, HasTree};

use crate::node::{Above, Node};
use crate::side::Way;
use crate::trees::Spot;

/// The list that an item is in, and its place there, found from the item upwards.
pub fn spot_of(nodes: &[Node], item: u32) -> Spot
    requires { (list top place : ℕ) × (t : Tree) × IsTreeOf nodes.now list top t × IsItemAt t place item }
    ensures { (list top place : ℕ) (t : Tree) → IsTreeOf nodes.now list top t → IsItemAt t place item
        → result ≡ record { list = list; place = place } }
{
    let mut i = item;
    let mut place = 0;
    while let Above::Fork(above) = nodes[i as usize].above {
        let node = nodes[above as usize];
        if node.right == i {
            place += nodes[node.left as usize].counts.leaves;
        }
        i = above;
    }
    match nodes[i as usize].above {
        Above::Top(list) => Spot { list, place },
        _ => unreachable!(),
    }
}

/// The item at a place of the tree below `top`.
pub fn item_under(nodes: &[Node], top: u32, place: u32) -> u32
    requires { (t : Tree) × HasTree nodes.now top t × (place < size t) }
    ensures { (t : Tree) → HasTree nodes.now top t → place < size t → IsItemAt t place result }
{
    let node = nodes[top as usize];
    if node.height == 0 {
        return top;
    }
    let way = Way::to(place, nodes[node.left as usize].counts.leaves);
    item_under(nodes, node.on(way.side), way.place)
}

/// The item of the marked leaf of this number in the tree below `top`.
pub fn marked_under(nodes: &[Node], top: u32, number: u32) -> u32
    requires { (t : Tree) × HasTree nodes.now top t × (number < length (marked_items t)) }
    ensures { (t : Tree) → HasTree nodes.now top t → number < length (marked_items t) → result ≡ slice_index (marked_items t) number }
{
    let node = nodes[top as usize];
    if node.height == 0 {
        return top;
    }
    let way = Way::to(number, nodes[node.left as usize].counts.marked);
    marked_under(nodes, node.on(way.side), way.place)
}

/// How many leaves before a place of the tree below `top` are elements.
pub fn elements_under(nodes: &[Node], top: u32, place: u32) -> u32
    requires { (t : Tree) × HasTree nodes.now top t × (place ≤ size t) }
    ensures { (t : Tree) → HasTree nodes.now top t → place ≤ size t → result ≡ elements_before t place }
{
    let node = nodes[top as usize];
    if place == 0 {
        return 0;
    }
    if node.height == 0 {
        return node.counts.elements;
    }
    let left = nodes[node.left as usize].counts;
    if place <= left.leaves {
        elements_under(nodes, node.left, place)
    } else {
        left.elements + elements_under(nodes, node.right, place - left.leaves)
    }
}
