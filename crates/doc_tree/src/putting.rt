//! Rows put among the children of a node.

ghost use Rattle.std.specs.Prelude.{◌≡◌, ◌≤◌, ℕ, List, length, drop, IfOk, OnOk, OnErr};
ghost use Rattle.xs_names.specs.Names.{NameTable};
ghost use Rattle.tree_rows.specs.Forest.{Forest, count};
ghost use Rattle.doc_nodes.specs.Nodes.{Node, IsNode};
ghost use Rattle.doc_changes.specs.inside.Growing.{Planted, PlantedFirst, at_end, before};
ghost use Rattle.doc_tree.specs.declared.part.PartRow.{PartRow};
ghost use Rattle.doc_tree.specs.inside.Putting.{Holds, HoldsOne, begins};

use crate::copies::copy_parts;
use crate::part::PartRow;
use doc_changes::prune;
use doc_nodes::{Content, NodeLinks};
use std::alloc::{AllocError, Global};

/// Whether there is a row, and the first has this depth.
fn begins_at(rows: &[PartRow], depth: u32) -> bool
    ensures { result ≡ begins depth rows.now }
{
    match rows.first() {
        Some(row) => row.depth == depth,
        None => false,
    }
}

/// The rows behind the first ones.
fn other_rows(rows: &[PartRow], count: usize) -> &[PartRow]
    requires { count ≤ length rows.now }
    ensures { result.now ≡ drop count rows.now }
{
    &rows[count..]
}

/// Puts siblings of this depth, with which the rows begin, behind the children of a node, each with all that is below it, and
/// answers how many rows that were. Where memory is wanting, the first of them stand there.
#[cycle(put)]
fn put_all(
    alloc: Global,
    links: &mut NodeLinks,
    parent: u32,
    depth: u32,
    rows: &[PartRow],
) -> Result<usize, AllocError>
    requires holds { (t : NameTable) × (f : Forest) × (left : List PartRow) × Holds t links.old parent depth rows.now f left }
    ensures planted { OnOk result ((t : NameTable) (f : Forest) (left : List PartRow) → Holds t links.old parent depth rows.now f left → Planted t links.old links.new parent at_end f) }
    ensures count { IfOk result (λ done. (t : NameTable) (f : Forest) (left : List PartRow) → Holds t links.old parent depth rows.now f left → done ≡ count f) }
    ensures first { OnErr result ((t : NameTable) (f : Forest) (left : List PartRow) → Holds t links.old parent depth rows.now f left → PlantedFirst t links.old links.new parent at_end f) }
{
    let mut left = rows;
    let mut done = 0;
    'left: while begins_at(left, depth) {
        let place = links.child_count(parent);
        let more = put_one(alloc, links, parent, place, left)?;
        left = other_rows(left, more);
        done += more;
    }
    Ok(done)
}

/// Puts a node, whose row is the first, before the child of a place, with all that is below it, and answers how many rows that
/// were. Where memory is wanting, all is as it was.
#[cycle(put)]
pub(crate) fn put_one(
    alloc: Global,
    links: &mut NodeLinks,
    parent: u32,
    place: u32,
    rows: &[PartRow],
) -> Result<usize, AllocError>
    requires holds { (t : NameTable) × (depth : ℕ) × (f : Forest) × (left : List PartRow) × HoldsOne t links.old parent depth rows.now f left }
    requires within { (it : Node) → IsNode links.old parent it → place ≤ length it.children }
    ensures planted { OnOk result ((t : NameTable) (depth : ℕ) (f : Forest) (left : List PartRow) → HoldsOne t links.old parent depth rows.now f left → Planted t links.old links.new parent (before place) f) }
    ensures count { IfOk result (λ done. (t : NameTable) (depth : ℕ) (f : Forest) (left : List PartRow) → HoldsOne t links.old parent depth rows.now f left → done ≡ count f) }
    ensures err { OnErr result (links.new ≡ links.old) }
{
    let row = &rows[0];
    match &row.content {
        Content::Chars(text) => {
            let text = text.try_clone()?;
            links.put(row.number, parent, place, Content::Chars(text))?;
            Ok(1)
        }
        Content::Element(element) => {
            let element = copy_parts(alloc, element)?;
            links.put(row.number, parent, place, Content::Element(element))?;
            match put_all(alloc, links, row.number, row.depth + 1, other_rows(rows, 1)) {
                Ok(below) => Ok(below + 1),
                Err(error) => {
                    prune(links, row.number);
                    Err(error)
                }
            }
        }
    }
}
