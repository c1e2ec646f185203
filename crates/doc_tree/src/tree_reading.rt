//! The tree of all nodes.

ghost use Rattle.std.specs.Prelude.{◌≡◌, IfOk};
ghost use Rattle.tree_rows.specs.Forest.{Document};
ghost use Rattle.tree_rows.specs.Whole.{IsTree};
ghost use Rattle.doc_changes.specs.Stands.{StandsFor};

use crate::rows::{read_below, read_row};
use doc_nodes::NodeLinks;
use plain_tree::Tree;
use std::alloc::{AllocError, Global};
use xs_names::Names;

/// The tree that the nodes stand for, where names go by the numbers of this table.
///
/// # Errors
///
/// `AllocError` is want of memory.
pub fn read_tree(alloc: Global, links: &NodeLinks, names: &Names) -> Result<Tree, AllocError>
    requires stands { (d : Document) × StandsFor names.now links.now d }
    ensures tree { IfOk result (λ tree. (d : Document) → StandsFor names.now links.now d → tree ≡ d) }
    ensures sound { IfOk result IsTree }
{
    let mut rows = Vec::new(alloc);
    rows.push(read_row(alloc, links, names, 1, 1)?)?;
    read_below(alloc, links, names, &mut rows, 1, 1)?;
    Ok(Tree::from_rows(rows, links.next_free()))
}
