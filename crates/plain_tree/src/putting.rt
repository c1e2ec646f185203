ghost use Rattle.std.specs.Prelude.{◌≡◌, ◌+◌, ◌≤◌, ◌<◌, [], Some, OnOk, OnErr, length};
ghost use Rattle.std.specs.List.{position_or_len};
ghost use Rattle.plain_tree.specs.Changes.{Changes, IsEnd};
ghost use Rattle.plain_tree.specs.Putting.{with_last, with_attribute, with_binding, depth_of};
ghost use Rattle.tree_building.specs.Shape.{AreSound, AreWhole};
ghost use Rattle.tree_edits.specs.EditRows.{is_numbered};
ghost use Rattle.tree_edits.specs.Edits.{deepest_of};
ghost use Rattle.tree_rows.specs.Forest.{none};
ghost use Rattle.tree_rows.specs.Kinds.{kind_of};
ghost use Rattle.tree_rows.specs.declared.limits.TheConstants.{MAX_DEPTH};
ghost use Rattle.tree_rows.specs.Rows.{siblings, node as node_of};
ghost use Rattle.tree_rows.specs.declared.row.Content.TheVariants as contents;
ghost use Rattle.tree_rows.specs.declared.row.NodeKind.TheVariants as kinds;

use std::alloc::{AllocError, Global};
use tree_edits::{below_count, place_of};
use tree_rows::{Attribute, Attributes, Binding, Bindings, Content, Expanded, Row};

/// The place behind the last row below an element, and the depth of the element's children.
#[derive(Clone, Copy)]
pub struct End {
    pub place: usize,
    pub depth: u32,
}

/// The place of the row of an element.
fn element_place(rows: &[Row], node: u32) -> usize
    requires whole { AreWhole rows.now }
    requires element { kind_of node (siblings rows.now 1) ≡ Some kinds.Element }
    ensures at { result ≡ position_or_len (is_numbered node) rows.now }
    ensures within { result < length rows.now }
{
    place_of(rows, node)
}

/// Where the rows below an element end.
fn end_of(rows: &[Row], parent: u32) -> End
    requires sound { AreSound rows.now }
    requires parent { kind_of parent (siblings rows.now 1) ≡ Some kinds.Element }
    ensures { IsEnd rows.now parent result }
{
    let place = element_place(rows, parent);
    let depth = rows[place].depth;
    let behind = &rows[place + 1..];
    End {
        place: place + 1 + below_count(behind, depth),
        depth: depth + 1,
    }
}

/// The row of a root alone.
pub(crate) fn root_row(alloc: Global, name: Expanded) -> Row
    ensures { result ≡ record { number = 1; depth = 1; content = contents.Element name; bindings = []; attributes = [] } }
{
    Row {
        number: 1,
        depth: 1,
        content: Content::Element(name),
        bindings: Bindings::new(alloc),
        attributes: Attributes::new(alloc),
    }
}

/// Puts a node without bindings, attributes and children last among the children of an element.
pub(crate) fn put_last(
    alloc: Global,
    rows: &mut Vec<Row>,
    parent: u32,
    number: u32,
    content: Content,
) -> Result<(), AllocError>
    requires sound { AreSound rows.old.items }
    requires parent { kind_of parent (siblings rows.old.items 1) ≡ Some kinds.Element }
    requires shallow { deepest_of (depth_of parent (siblings rows.old.items 1) + 1) (node_of number content [] [] none none) ≤ MAX_DEPTH }
    ensures ok { OnOk result (Changes rows.old.items rows.new.items parent (with_last (node_of number content [] [] none none))) }
    ensures err { OnErr result (rows.new.items ≡ rows.old.items) }
{
    let end = end_of(rows, parent);
    let row = Row {
        number,
        depth: end.depth,
        content,
        bindings: Bindings::new(alloc),
        attributes: Attributes::new(alloc),
    };
    rows.insert(end.place, row)?;
    Ok(())
}

/// Puts an attribute behind those of an element.
pub(crate) fn put_attribute(
    rows: &mut Vec<Row>,
    node: u32,
    attribute: Attribute,
) -> Result<(), AllocError>
    requires sound { AreSound rows.old.items }
    requires element { kind_of node (siblings rows.old.items 1) ≡ Some kinds.Element }
    ensures ok { OnOk result (Changes rows.old.items rows.new.items node (with_attribute attribute)) }
    ensures err { OnErr result (rows.new.items ≡ rows.old.items) }
{
    let place = element_place(rows, node);
    rows[place].attributes.push(attribute)
}

/// Puts a binding behind those of an element's start tag.
pub(crate) fn put_binding(
    rows: &mut Vec<Row>,
    node: u32,
    binding: Binding,
) -> Result<(), AllocError>
    requires sound { AreSound rows.old.items }
    requires element { kind_of node (siblings rows.old.items 1) ≡ Some kinds.Element }
    ensures ok { OnOk result (Changes rows.old.items rows.new.items node (with_binding binding)) }
    ensures err { OnErr result (rows.new.items ≡ rows.old.items) }
{
    let place = element_place(rows, node);
    rows[place].bindings.push(binding)
}
