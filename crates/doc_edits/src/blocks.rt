//! Blocks that are put below an element.

ghost use Rattle.std.specs.Prelude.{◌≡◌, ◌+◌, ℕ, Ok, true, IfOk, IfErr};
ghost use Rattle.xs_names.specs.Names.{NameTable};
ghost use Rattle.tree_rows.specs.Forest.{Document, count};
ghost use Rattle.tree_rows.specs.Rows.{siblings};
ghost use Rattle.tree_rows.specs.Whole.{IsTree};
ghost use Rattle.tree_rows.specs.declared.row.NodeKind.TheVariants as kinds;
ghost use Rattle.tree_building.specs.Blocks.{one_element};
ghost use Rattle.tree_building.specs.Building.{block};
ghost use Rattle.tree_building.specs.Shape.{AreWhole};
ghost use Rattle.tree_edits.specs.Edits.{found, insert_within};
ghost use Rattle.tree_edits.specs.Tests.{depth_of, with_nodes};
ghost use Rattle.tree_edits.specs.Refusals.{IsWhy};
ghost use Rattle.doc_changes.specs.Stands.{StandsFor};
ghost use Rattle.doc_changes.specs.Held.{kind_at};
ghost use Rattle.doc_edits.specs.inside.Tested.{HasRoomFor};

use crate::places::fit;
use doc_tree::DocTree;
use item_listing::Item;
use plain_tree::Tree;
use std::alloc::Global;
use tag_names::Prefixes;
use tree_building::build_block;
use tree_edits::{EditError, judge_block};
use tree_rows::Row;

/// The tree of rows whose nodes have the numbers from 1 on.
fn tree_of(rows: Vec<Row>) -> Tree
    requires whole { AreWhole rows.items }
    requires tree { IsTree (record { forest = siblings rows.items 1; next_free = 1 + count (siblings rows.items 1) }) }
    ensures { result.forest ≡ siblings rows.items 1 }
{
    let next_free = rows.len() as u32 + 1;
    Tree::from_rows(rows, next_free)
}

/// The element of a block as a tree of its own, where it may be put below an element and its names resolve in this scope.
pub(crate) fn block_part(
    alloc: Global,
    doc: &DocTree,
    parent: u32,
    scope: &Prefixes,
    items: &[Item],
) -> Result<Tree, EditError>
    requires stands { (t : NameTable) × (d : Document) × StandsFor t doc.now d }
    requires element { kind_at doc.now parent ≡ Some kinds.Element }
    requires one { one_element items.now ≡ true }
    ensures part { IfOk result (λ part. part.forest ≡ block scope.now items.now) }
    ensures ok { IfOk result (λ part. (t : NameTable) (d : Document) (place : ℕ) → StandsFor t doc.now d → insert_within d parent place scope.now items.now (depth_of (found parent 1 d.forest)) ≡ Ok (with_nodes d parent place part.forest)) }
    ensures room { IfOk result (λ part. (t : NameTable) (d : Document) → StandsFor t doc.now d → HasRoomFor d parent part.forest) }
    ensures err { IfErr result (λ e. (t : NameTable) (d : Document) (place : ℕ) → StandsFor t doc.now d → IsWhy (insert_within d parent place scope.now items.now (depth_of (found parent 1 d.forest))) e) }
{
    let judged = judge_block(alloc, scope, items)?;
    judged.names.early()?;
    fit(doc, parent, judged.nodes, judged.depth)?;
    judged.names.late()?;
    let rows = build_block(alloc, scope, items)?;
    Ok(tree_of(rows))
}
