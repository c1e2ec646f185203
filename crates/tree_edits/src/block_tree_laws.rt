//! Blocks as trees.

ghost use Rattle.std.specs.Prelude.{◌≡◌, ◌≤◌, ◌+◌, List, [], true, false};
ghost use Rattle.std.specs.List.{list_any};
ghost use Rattle.item_listing.specs.declared.item.Item.{Item};
ghost use Rattle.tree_rows.specs.Forest.{count, deepest_of};
ghost use Rattle.tree_rows.specs.Whole.{IsTree};
ghost use Rattle.tree_rows.specs.declared.limits.TheConstants.{MAX_DEPTH, MAX_NODES};
ghost use Rattle.tree_rows.specs.declared.row.Binding.{Binding};
ghost use Rattle.tree_building.specs.Blocks.{one_element};
ghost use Rattle.tree_building.specs.Building.{block};
ghost use Rattle.tree_edits.specs.Blocks.{tags_in, has_too_many, has_double};

/// The element of a block is a tree of its own, whose nodes have the numbers from 1 on in document order, where no start tag has too
/// many attributes or has one twice, and it keeps the limits on nodes and depth.
pub fn blocks_are_trees()
    ensures { (scope : List Binding) (its : List Item) → one_element its ≡ true → list_any has_too_many (tags_in scope [] its) ≡ false → list_any has_double (tags_in scope [] its) ≡ false
        → count (block scope its) ≤ MAX_NODES → deepest_of 1 (block scope its) ≤ MAX_DEPTH → IsTree (record { forest = block scope its; next_free = 1 + count (block scope its) }) }
{}
