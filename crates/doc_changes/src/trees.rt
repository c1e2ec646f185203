//! The nodes of a whole tree.

ghost use Rattle.std.specs.Prelude.{◌≡◌, IfOk};
ghost use Rattle.xs_names.specs.Names.{Grown, IsSound};
ghost use Rattle.tree_rows.specs.Whole.{IsTree};
ghost use Rattle.plain_tree.specs.Found.{HasNames};
ghost use Rattle.doc_changes.specs.Stands.{StandsFor};
ghost use Rattle.doc_changes.specs.inside.Growing.{one_of};

use crate::naming::name_element;
use crate::numbers::give_numbers;
use crate::spreading::put_below;
use doc_nodes::{Content, NodeLinks};
use plain_tree::Tree;
use std::alloc::{AllocError, Global};
use tree_rows::{Row, Sibling, Siblings};
use xs_names::Names;

/// The nodes of a tree by its root's row.
fn plant_root(
    alloc: Global,
    names: &mut Names,
    next_free: u32,
    row: &Row,
    children: Siblings<'_>,
) -> Result<NodeLinks, AllocError>
    requires { IsTree (record { forest = one_of row.now children; next_free = next_free }) }
    ensures stands { IfOk result (λ links. StandsFor names.new links (record { forest = one_of row.now children.entry; next_free = next_free })) }
    ensures grown { Grown names.old names.new }
    ensures known { IsSound names.old → HasNames names.old (one_of row.now children.entry) → names.new ≡ names.old }
{
    match &row.content {
        tree_rows::Content::Element(name) => {
            let element = name_element(alloc, names, name, row)?;
            let mut links = NodeLinks::with_root(alloc, Content::Element(element))?;
            give_numbers(&mut links, next_free)?;
            put_below(alloc, &mut links, names, 1, children)?;
            Ok(links)
        }
        tree_rows::Content::Chars(_) => unreachable!(),
    }
}

/// The nodes of a tree, each under its own number. The next free number is the tree's.
///
/// # Errors
///
/// `AllocError` is want of memory. Names may then have been added.
pub fn nodes_of(alloc: Global, names: &mut Names, tree: &Tree) -> Result<NodeLinks, AllocError>
    ensures stands { IfOk result (λ links. StandsFor names.new links tree.now) }
    ensures grown { Grown names.old names.new }
    ensures known { IsSound names.old → HasNames names.old tree.now.forest → names.new ≡ names.old }
{
    let index = tree.index(alloc)?;
    match index.top().first() {
        Some(Sibling { row, children, .. }) => {
            plant_root(alloc, names, tree.next_free(), row, children)
        }
        None => unreachable!(),
    }
}
