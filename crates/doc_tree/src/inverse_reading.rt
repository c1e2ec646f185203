//! The rows of a node with all that is below it.

ghost use Rattle.std.specs.Prelude.{◌≡◌, ◌≤◌, ◌+◌, ◌^◌, ◌<◌, IfOk, OnOk};
ghost use Rattle.xs_names.specs.Names.{NameTable};
ghost use Rattle.tree_rows.specs.Forest.{Forest};
ghost use Rattle.doc_nodes.specs.Nodes.{Node, node, IsNode, depth_by};
ghost use Rattle.doc_changes.specs.Parts.{IsOver};
ghost use Rattle.doc_tree.specs.inside.Reading.{ReadsOn};

use crate::copies::copy_content;
use crate::part::PartRow;
use doc_nodes::NodeLinks;
use std::alloc::{AllocError, Global};

/// The row of a node.
pub(crate) fn read_row(
    alloc: Global,
    links: &NodeLinks,
    number: u32,
    depth: u32,
) -> Result<PartRow, AllocError>
    requires { (it : Node) × IsNode links.now number it }
    ensures { IfOk result (λ row. (it : Node) → IsNode links.now number it → row ≡ record { number = number; depth = depth; content = it.content }) }
{
    match links.content(number) {
        Some(content) => Ok(PartRow {
            number,
            depth,
            content: copy_content(alloc, content)?,
        }),
        None => unreachable!(),
    }
}

/// Reads the rows of all that is below a node which has this depth in its part, behind those that were read before.
pub(crate) fn read_below(
    alloc: Global,
    links: &NodeLinks,
    rows: &mut Vec<PartRow>,
    number: u32,
    depth: u32,
) -> Result<(), AllocError>
    requires over { (t : NameTable) × (below : Forest) × IsOver t links.now number below }
    requires depth { depth ≤ depth_by (node links.now number) }
    ensures { OnOk result ((t : NameTable) (below : Forest) → IsOver t links.now number below → ReadsOn t (depth + 1) rows.old.items rows.new.items below) }
{
    let mut place = 0;
    'children: while let Some(child) = links.child_at(number, place) {
        rows.push(read_row(alloc, links, child, depth + 1)?)?;
        read_below(alloc, links, rows, child, depth + 1)?;
        place += 1;
    }
    Ok(())
}
