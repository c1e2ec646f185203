//! Siblings put among the children of a node, each with all that is below it.

ghost use Rattle.std.specs.Prelude.{◌≡◌, ◌≤◌, ◌<◌, ◌+◌, ◌^◌, ℕ, length, None, IfOk, OnOk, OnErr};
ghost use Rattle.xs_names.specs.Names.{Grown, IsSound};
ghost use Rattle.tree_rows.specs.Forest.{count};
ghost use Rattle.tree_rows.specs.Whole.{IsNamed};
ghost use Rattle.plain_tree.specs.Found.{HasTag, HasNames};
ghost use Rattle.doc_nodes.specs.Nodes.{Node, node, IsNode, IsSound as AreSound};
ghost use Rattle.doc_changes.specs.inside.Growing.{CanPlant, Planted, PlantedFirst, PutsElement, numbered_by, behind, one_of, at_end, before};

use crate::naming::name_element;
use crate::prune;
use doc_nodes::{Content, NodeLinks};
use std::alloc::{AllocError, Global};
use tree_rows::{Expanded, Row, Sibling, Siblings};
use xs_names::Names;

/// A place among the children of a node.
#[derive(Clone, Copy)]
pub struct Spot {
    pub parent: u32,
    pub place: u32,
}

/// Puts an element without children before the child of a place.
fn put_tag(
    alloc: Global,
    links: &mut NodeLinks,
    names: &mut Names,
    spot: Spot,
    number: u32,
    name: &Expanded,
    row: &Row,
) -> Result<(), AllocError>
    requires named { IsNamed name.now row.now.bindings row.now.attributes }
    requires given { number < length links.old }
    requires free { node links.old number ≡ None }
    requires parent { (it : Node) × IsNode links.old spot.parent it × (spot.place ≤ length it.children) × (it.depth + 1 < 2 ^ 32) }
    ensures ok { OnOk result (PutsElement names.new links.old links.new spot.parent spot.place number name.now row.now.bindings row.now.attributes) }
    ensures err { OnErr result (links.new ≡ links.old) }
    ensures grown { Grown names.old names.new }
    ensures known { IsSound names.old → HasTag names.old name.now row.now.bindings row.now.attributes → names.new ≡ names.old }
    ensures names { IsSound names.new }
    ensures sound { OnOk result (AreSound links.new) }
{
    let element = name_element(alloc, names, name, row)?;
    links.put(number, spot.parent, spot.place, Content::Element(element))?;
    Ok(())
}

/// Puts siblings, with all that is below them, behind the children of a node, under the numbers from one on in document order,
/// and answers the number of what comes next. Where memory is wanting, the first of them stand there.
#[cycle(put)]
pub(crate) fn put_all(
    alloc: Global,
    links: &mut NodeLinks,
    names: &mut Names,
    parent: u32,
    number: u32,
    siblings: Siblings<'_>,
) -> Result<u32, AllocError>
    requires can { CanPlant links.old parent (numbered_by number siblings) }
    requires names { IsSound names.old }
    ensures planted { OnOk result (Planted names.new links.old links.new parent at_end (numbered_by number siblings.entry)) }
    ensures behind { IfOk result (λ left. left ≡ behind number (count siblings.entry)) }
    ensures first { OnErr result (PlantedFirst names.new links.old links.new parent at_end (numbered_by number siblings.entry)) }
    ensures grown { Grown names.old names.new }
    ensures known { HasNames names.old siblings.entry → names.new ≡ names.old }
    ensures names { IsSound names.new }
{
    let mut left = siblings;
    let mut numbers_left = number;
    'left: while let Some(
        Sibling {
            row,
            children,
            next,
        },
    ) = left.first()
    {
        let place = links.child_count(parent);
        let spot = Spot { parent, place };
        numbers_left = put_one(alloc, links, names, spot, numbers_left, row, children)?;
        left = next;
    }
    Ok(numbers_left)
}

/// Puts a node, with all that is below it, before the child of a place, under the numbers from one on in document order, and
/// answers the number of what comes next. Where memory is wanting, all is as it was.
#[cycle(put)]
pub(crate) fn put_one(
    alloc: Global,
    links: &mut NodeLinks,
    names: &mut Names,
    spot: Spot,
    number: u32,
    row: &Row,
    children: Siblings<'_>,
) -> Result<u32, AllocError>
    requires can { CanPlant links.old spot.parent (numbered_by number (one_of row.now children)) }
    requires within { (it : Node) → IsNode links.old spot.parent it → spot.place ≤ length it.children }
    requires names { IsSound names.old }
    ensures planted { OnOk result (Planted names.new links.old links.new spot.parent (before spot.place) (numbered_by number (one_of row.now children.entry))) }
    ensures behind { IfOk result (λ left. left ≡ behind number (count (one_of row.now children.entry))) }
    ensures err { OnErr result (links.new ≡ links.old) }
    ensures grown { Grown names.old names.new }
    ensures known { HasNames names.old (one_of row.now children.entry) → names.new ≡ names.old }
    ensures names { IsSound names.new }
{
    let behind = number + 1;
    match &row.content {
        tree_rows::Content::Chars(text) => {
            let text = text.try_clone()?;
            links.put(number, spot.parent, spot.place, Content::Chars(text))?;
            Ok(behind)
        }
        tree_rows::Content::Element(name) => {
            put_tag(alloc, links, names, spot, number, name, row)?;
            match put_all(alloc, links, names, number, behind, children) {
                Ok(left) => Ok(left),
                Err(error) => {
                    prune(links, number);
                    Err(error)
                }
            }
        }
    }
}
