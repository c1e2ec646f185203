//! The items of a tree's leaves, in order.

ghost use Rattle.std.specs.Prelude.{◌≡◌, ◌++◌, OnOk};
ghost use Rattle.leaf_trees.specs.Tree.{Tree, items as items_of};
ghost use Rattle.leaf_trees.specs.Arena.{HasTree};

use crate::leaf::ItemId;
use leaf_trees::Node;
use std::alloc::AllocError;

/// Adds the items of the leaves below `top`, in order. It comes to each node once.
pub fn push_items(nodes: &[Node], top: u32, items: &mut Vec<ItemId>) -> Result<(), AllocError>
    requires { (t : Tree) × HasTree nodes.now top t }
    ensures { OnOk result ((t : Tree) → HasTree nodes.now top t → items.new.items ≡ items.old.items ++ items_of t) }
{
    let node = nodes[top as usize];
    if node.height == 0 {
        items.push(ItemId { number: top })?;
        return Ok(());
    }
    push_items(nodes, node.left, items)?;
    push_items(nodes, node.right, items)?;
    Ok(())
}
