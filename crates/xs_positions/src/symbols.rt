//! The symbols of an expression's positions, in order.

ghost use Rattle.std.specs.Prelude.{◌≡◌, ◌<◌, ◌++◌, length, replicate, reverse, IfOk, OnOk};
ghost use Rattle.xs_positions.specs.Tree.{symbols};
ghost use Rattle.xs_positions.specs.Measures.{AreMeasured};
ghost use Rattle.xs_positions.specs.Walk.{tree_in};
ghost use Rattle.xs_positions.specs.Listing.{IsListed};

use crate::expr::{ExprId, Node};
use crate::measures::{Measure, copies};
use std::alloc::{AllocError, Global};

/// The symbols of an expression's positions.
pub(crate) fn list_symbols(
    alloc: Global,
    nodes: &[Node],
    measures: &[Measure],
    root: ExprId,
) -> Result<Vec<u32>, AllocError>
    requires measured { AreMeasured nodes.now measures.now }
    requires root { root < length nodes.now }
    ensures { IfOk result (λ listed. listed.items ≡ symbols (tree_in nodes.now root)) }
{
    let mut listed = Vec::new(alloc);
    let mut todo = vec![in alloc; root]?;
    while let Some(id) = todo.pop() {
        list_node(&mut listed, &mut todo, nodes, measures, id)?;
    }
    Ok(listed)
}

/// Lists the symbol of an expression that is one; else its parts wait, the first of them last.
fn list_node(
    listed: &mut Vec<u32>,
    todo: &mut Vec<ExprId>,
    nodes: &[Node],
    measures: &[Measure],
    id: ExprId,
) -> Result<(), AllocError>
    requires measured { AreMeasured nodes.now measures.now }
    requires id { id < length nodes.now }
    ensures { OnOk result (IsListed nodes.now id listed.old.items listed.new.items todo.old.items todo.new.items) }
{
    if measures[id.index()].size == 0 {
        return Ok(());
    }
    match &nodes[id.index()] {
        Node::Symbol(symbol) => {
            listed.push(*symbol)?;
            Ok(())
        }
        Node::Sequence(parts) => wait_for(todo, parts),
        Node::Choice(parts) => wait_for(todo, parts),
        Node::Repeat(part, min, max) => wait_for_copies(todo, *part, copies(*min, *max)),
    }
}

fn wait_for(todo: &mut Vec<ExprId>, parts: &[ExprId]) -> Result<(), AllocError>
    ensures { OnOk result (todo.new.items ≡ todo.old.items ++ reverse parts.now) }
{
    let mut i = parts.len();
    while i > 0 {
        i -= 1;
        todo.push(parts[i])?;
    }
    Ok(())
}

fn wait_for_copies(todo: &mut Vec<ExprId>, part: ExprId, count: u32) -> Result<(), AllocError>
    ensures { OnOk result (todo.new.items ≡ todo.old.items ++ replicate count part) }
{
    for _ in 0..count {
        todo.push(part)?;
    }
    Ok(())
}
