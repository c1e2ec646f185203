//! A part with all its nodes, put among the children of an element.

ghost use Rattle.std.specs.Prelude.{◌≡◌, ◌≤◌, ℕ, length, IfOk, OnOk, OnErr};
ghost use Rattle.xs_names.specs.Names.{Grown, IsSound};
ghost use Rattle.tree_rows.specs.Forest.{Document};
ghost use Rattle.tree_edits.specs.Tests.{with_nodes};
ghost use Rattle.plain_tree.specs.Found.{HasNames};
ghost use Rattle.doc_nodes.specs.Nodes.{node, IsSound as AreSound};
ghost use Rattle.doc_changes.specs.Stands.{StandsFor};
ghost use Rattle.doc_changes.specs.Fits.{Fits};
ghost use Rattle.doc_changes.specs.Planted.{Plants};
ghost use Rattle.doc_changes.specs.inside.Growing.{CanGrow, one_of};

use crate::numbers::give_numbers;
use crate::planting::{Spot, put_one};
use doc_nodes::NodeLinks;
use plain_tree::Tree;
use std::alloc::{AllocError, Global};
use tree_rows::{Row, Sibling, Siblings};
use xs_names::Names;

/// Puts a part of one root before the child of a place, under the numbers below this one that were not given out. Where
/// memory is wanting, some of the numbers were given out, and no node is another.
fn grow(
    alloc: Global,
    links: &mut NodeLinks,
    names: &mut Names,
    spot: Spot,
    until: u32,
    row: &Row,
    children: Siblings<'_>,
) -> Result<(), AllocError>
    requires can { CanGrow links.old spot.parent spot.place (one_of row.now children) until }
    requires names { IsSound names.old }
    ensures plants { OnOk result (Plants names.new links.old links.new spot.parent spot.place (one_of row.now children.entry)) }
    ensures more { length links.old ≤ length links.new }
    ensures same { OnErr result ((m : ℕ) → node links.new m ≡ node links.old m) }
    ensures grown { Grown names.old names.new }
    ensures known { HasNames names.old (one_of row.now children.entry) → names.new ≡ names.old }
    ensures names { IsSound names.new }
    ensures sound { AreSound links.new }
{
    let first = links.next_free();
    give_numbers(links, until)?;
    put_one(alloc, links, names, spot, first, row, children)?;
    Ok(())
}

/// Puts a part before the child of an element that has this place, counted from 0, or behind the last one. Its nodes get the
/// next free numbers, in document order; the first, its root's, is answered.
///
/// # Errors
///
/// `AllocError` is want of memory. The nodes are then as they were; names may have been added.
pub fn insert_part(
    alloc: Global,
    links: &mut NodeLinks,
    names: &mut Names,
    parent: u32,
    place: u32,
    part: &Tree,
) -> Result<u32, AllocError>
    requires fits { (d : Document) × StandsFor names.old links.old d × Fits d parent place part.now.forest }
    ensures tree { OnOk result ((d : Document) → StandsFor names.old links.old d → StandsFor names.new links.new (with_nodes d parent place part.now.forest)) }
    ensures number { IfOk result (λ number. number ≡ length links.old) }
    ensures change { OnOk result (Plants names.new links.old links.new parent place part.now.forest) }
    ensures err { OnErr result (links.new ≡ links.old) }
    ensures grown { Grown names.old names.new }
    ensures known { HasNames names.old part.now.forest → names.new ≡ names.old }
    ensures names { IsSound names.new }
    ensures sound { AreSound links.new }
{
    let first = links.next_free();
    let until = first + part.rows().len() as u32;
    let spot = Spot { parent, place };
    let index = part.index(alloc)?;
    match index.top().first() {
        Some(Sibling { row, children, .. }) => {
            match grow(alloc, links, names, spot, until, row, children) {
                Ok(()) => Ok(first),
                Err(error) => {
                    links.cut_numbers(first);
                    Err(error)
                }
            }
        }
        None => unreachable!(),
    }
}
