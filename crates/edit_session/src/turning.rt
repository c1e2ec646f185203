//! Where a change makes a document another.

ghost use Rattle.std.specs.Prelude.{◌≡◌, ◌≢◌, ℕ, None, true, IfOk};
ghost use Rattle.xs_names.specs.Names.{NameTable};
ghost use Rattle.tree_rows.specs.Forest.{Document};
ghost use Rattle.doc_nodes.specs.Nodes.{is_element_at};
ghost use Rattle.doc_changes.specs.Held.{parent_at};
ghost use Rattle.doc_changes.specs.Stands.{StandsFor};
ghost use Rattle.kept_inverses.specs.from_kept_changes.Spot.TheVariants as spots;
ghost use Rattle.edit_session.specs.Turning.{IsTurnOf};

use doc_tree::DocTree;
use kept_inverses::kept_changes::{Spot, owner_of};
use kept_keys::{Turn, add_below};
use std::alloc::{AllocError, Global};

/// Where a document will be another by a change that begins there, read before it is made.
///
/// # Errors
///
/// `AllocError` is want of memory.
pub(crate) fn turn_of(alloc: Global, doc: &DocTree, spot: Spot) -> Result<Turn, AllocError>
    requires stands { (t : NameTable) × (d : Document) × StandsFor t doc.now d }
    requires pruned { (n : ℕ) → spot ≡ spots.Pruned n → (is_element_at doc.now n ≡ true) × (parent_at doc.now n ≢ None) }
    ensures { IfOk result (IsTurnOf doc.now spot) }
{
    match spot {
        Spot::Planted(node) | Spot::Renamed(node) => Ok(Turn::Listed(node)),
        Spot::Retexted(node) | Spot::Attributed(node) => Ok(Turn::Own(node)),
        Spot::Pruned(node) => {
            let mut numbers = Vec::new(alloc);
            add_below(doc, node, &mut numbers)?;
            Ok(Turn::Gone {
                parent: owner_of(doc, node),
                numbers,
            })
        }
    }
}
