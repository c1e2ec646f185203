//! The expressions of particles, one for each node.

ghost use Rattle.std.specs.Prelude.{◌≡◌, ℕ, ◌<◌, [], map, length, slice_index_or, All, IfOk, OnOk};
ghost use Rattle.xs_positions.specs.Nodes.{tree_at};
ghost use Rattle.particle_models.specs.Nodes.{models_from, PartsBelow, IsOrdered};
ghost use Rattle.particle_models.specs.Sharing.{inhabited_of, shared, term_tree, node_tree, Keeps};

use crate::node::Node;
use std::alloc::{AllocError, Global};
use xs_positions::{Expr, ExprId};

/// Expressions, and for each node the number of its own.
#[derive(Drop)]
pub(crate) struct Shared {
    pub(crate) expr: Expr,
    pub(crate) ids: Vec<ExprId>,
}

/// An expression for each node, whose symbols are the numbers of particles.
pub(crate) fn share(alloc: Global, nodes: &[Node], inhabited: &[bool]) -> Result<Shared, AllocError>
    requires { IsOrdered nodes.now }
    ensures ids { IfOk result (λ s. All (λ e. e < length s.expr) s.ids.items) }
    ensures trees { IfOk result (λ s. map (tree_at s.expr) s.ids.items ≡ map (shared (inhabited_of inhabited.now)) (models_from [] nodes.now)) }
{
    let mut expr = Expr::new(alloc)?;
    let mut ids = Vec::new(alloc);
    for node in nodes {
        let id = share_node(alloc, &mut expr, &ids, inhabited, node)?;
        ids.push(id)?;
    }
    Ok(Shared { expr, ids })
}

/// Adds the expression of a node, over those of its parts.
fn share_node(
    alloc: Global,
    expr: &mut Expr,
    ids: &[ExprId],
    inhabited: &[bool],
    node: &Node,
) -> Result<ExprId, AllocError>
    requires parts { PartsBelow (length ids.now) node.now }
    requires ids { All (λ e. e < length expr.old) ids.now }
    ensures id { IfOk result (λ e. e < length expr.new) }
    ensures tree { IfOk result (λ e. tree_at expr.new e ≡ node_tree (inhabited_of inhabited.now) (map (tree_at expr.old) ids.now) node.now) }
    ensures kept { OnOk result (Keeps expr.old expr.new) }
{
    match node {
        Node::Term(number) => share_term(expr, inhabited, *number),
        Node::Sequence(members) => {
            let parts = ids_of(alloc, ids, members.as_slice())?;
            expr.sequence(&parts)
        }
        Node::Choice(members) => {
            let parts = ids_of(alloc, ids, members.as_slice())?;
            expr.choice(&parts)
        }
        Node::Each(_) => expr.choice(&[]),
        Node::Occurs(part, least, most) => expr.repeat(ids[*part as usize], *least, *most),
    }
}

/// The numbers of the members' expressions.
fn ids_of(alloc: Global, ids: &[ExprId], members: &[u32]) -> Result<Vec<ExprId>, AllocError>
    requires { All (λ m. m < length ids.now) members.now }
    ensures { IfOk result (λ parts. parts.items ≡ map (λ m. slice_index_or ids.now m 0) members.now) }
{
    let mut parts = Vec::new(alloc);
    for member in members {
        parts.push(ids[*member as usize])?;
    }
    Ok(parts)
}

/// Adds the expression of a term: its one symbol where it accepts a name, else a symbol that no word goes through.
fn share_term(expr: &mut Expr, inhabited: &[bool], number: u32) -> Result<ExprId, AllocError>
    ensures id { IfOk result (λ e. e < length expr.new) }
    ensures tree { IfOk result (λ e. tree_at expr.new e ≡ term_tree (inhabited_of inhabited.now) number) }
    ensures kept { OnOk result (Keeps expr.old expr.new) }
{
    let one = expr.symbol(number)?;
    if matches!(inhabited.get(number as usize), Some(true)) {
        return Ok(one);
    }
    let none = expr.choice(&[])?;
    expr.sequence(&[one, none])
}
