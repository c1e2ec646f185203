//! The rows of nodes, in document order.

ghost use Rattle.std.specs.Prelude.{◌≡◌, ◌+◌, ◌++◌, ◌<◌, ◌^◌, IfOk, OnOk};
ghost use Rattle.tree_rows.specs.Forest.{Forest};
ghost use Rattle.tree_rows.specs.Rows.{rows_of};
ghost use Rattle.doc_nodes.specs.Nodes.{Node, node, IsNode, depth_by};
ghost use Rattle.doc_tree.specs.NodeRows.{row_in, IsNamed};
ghost use Rattle.doc_tree.specs.inside.Under.{IsUnder};

use crate::names::{expanded_name, read_attributes, read_bindings};
use doc_nodes::{Content, NodeLinks};
use std::alloc::{AllocError, Global};
use tree_rows::{Attributes, Bindings, Row};
use xs_names::Names;

/// The row of a node.
pub(crate) fn read_row(
    alloc: Global,
    links: &NodeLinks,
    names: &Names,
    number: u32,
    depth: u32,
) -> Result<Row, AllocError>
    requires { (it : Node) × IsNode links.now number it × IsNamed names.now it.content }
    ensures { IfOk result (λ row. (it : Node) → IsNode links.now number it → row ≡ row_in names.now number depth it.content) }
{
    match links.content(number) {
        Some(Content::Element(element)) => Ok(Row {
            number,
            depth,
            content: tree_rows::Content::Element(expanded_name(alloc, names, element.name)?),
            bindings: read_bindings(alloc, names, element.bindings.as_slice())?,
            attributes: read_attributes(alloc, names, element.attributes.as_slice())?,
        }),
        Some(Content::Chars(text)) => Ok(Row {
            number,
            depth,
            content: tree_rows::Content::Chars(text.try_clone()?),
            bindings: Bindings::new(alloc),
            attributes: Attributes::new(alloc),
        }),
        None => unreachable!(),
    }
}

/// The rows of all that is below a node of this depth, behind those that were read before.
pub(crate) fn read_below(
    alloc: Global,
    links: &NodeLinks,
    names: &Names,
    rows: &mut Vec<Row>,
    number: u32,
    depth: u32,
) -> Result<(), AllocError>
    requires under { (below : Forest) × IsUnder names.now links.now number below }
    requires depth { depth ≡ depth_by (node links.now number) }
    ensures { OnOk result ((below : Forest) → IsUnder names.now links.now number below → rows.new.items ≡ rows.old.items ++ rows_of (depth + 1) below) }
{
    let children = links.children(alloc, number)?;
    for child in &children {
        rows.push(read_row(alloc, links, names, *child, depth + 1)?)?;
        read_below(alloc, links, names, rows, *child, depth + 1)?;
    }
    Ok(())
}
