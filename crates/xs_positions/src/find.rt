//! The positions of an expression.

ghost use Rattle.std.specs.Prelude.{◌≡◌, ℕ, ◌<◌, ◌^◌, ◌↔◌, [], length, slice_index, slice_index_or, false, IfOk, IsErr, IsTrue};
ghost use Rattle.xs_positions.specs.Tree.{size};
ghost use Rattle.xs_positions.specs.Sets.{row};
ghost use Rattle.xs_positions.specs.Nodes.{tree_at};
ghost use Rattle.xs_positions.specs.Walk.{tree_in};
ghost use Rattle.xs_positions.specs.Measures.{AreMeasured};
ghost use Rattle.xs_positions.specs.Positions.{ArePositionsOf};

use crate::expr::{Expr, ExprId, Node};
use crate::measures::{Measure, measure_nodes};
use crate::sets::{Part, sorted};
use crate::shared::{SharedRows, share_rows};
use crate::symbols::list_symbols;
use crate::walk::find_sets;
use std::alloc::{AllocError, Global};
use std::marker::Model;
use std::mem;

/// Why an expression's positions are not listed.
#[derive(Clone, Copy)]
pub enum PositionsError {
    /// There are more positions than the limit allows.
    TooMany,
}

/// The positions of an expression, numbered from 0: the copies of its symbols.
pub struct Positions {
    symbols: Vec<u32>,
    /// The sets without the rows of followers.
    sets: Part,
    follow: SharedRows,
}

impl Model for Positions {
    ghost use Rattle.std.specs.Prelude.{ℕ, ◌<◌, ◌^◌, List};
    ghost use Rattle.xs_positions.specs.Positions.{Table};

    ghost Value = { Table };

    ghost use Rattle.xs_positions.specs.Found.{table_of, AreOneEach};

    ghost view = { table_of };

    ghost invariant = { AreOneEach };
}

impl Positions {
    /// A copy with memory of its own.
    ///
    /// # Errors
    /// When memory runs out.
    pub fn try_clone(&self, alloc: Global) -> Result<Positions, AllocError>
        ensures { IfOk result (λ positions. positions ≡ self.now) }
    {
        Ok(Positions {
            symbols: Vec::from_slice(alloc, &self.symbols)?,
            sets: self.sets.try_clone(alloc)?,
            follow: self.follow.try_clone(alloc)?,
        })
    }

    /// How many positions there are.
    pub fn count(&self) -> u32
        ensures { result ≡ length self.now.symbols }
    {
        self.symbols.len() as u32
    }

    /// The positions that may begin a word, rising.
    pub fn first(&self) -> &[u32]
        ensures { result.now ≡ self.now.first }
    {
        &self.sets.first
    }

    /// The positions that may end a word, rising.
    pub fn last(&self) -> &[u32]
        ensures { result.now ≡ self.now.last }
    {
        &self.sets.last
    }

    /// The positions that may come right after this one, rising.
    pub fn follow(&self, p: u32) -> &[u32]
        requires { p < length self.now.symbols }
        ensures { result.now ≡ row self.now.follow p }
    {
        self.follow.row(p)
    }

    /// Whether the same positions follow both, as it is known where many positions have the same followers.
    pub fn follow_alike(&self, p: u32, q: u32) -> bool
        requires { (p < length self.now.symbols) × (q < length self.now.symbols) }
        ensures { IsTrue result → row self.now.follow p ≡ row self.now.follow q }
    {
        self.follow.is_one(p, q)
    }

    /// Whether the empty word is one.
    pub fn nullable(&self) -> bool
        ensures { result ≡ self.now.nullable }
    {
        self.sets.nullable
    }

    /// The symbol of a position.
    pub fn symbol_of(&self, p: u32) -> u32
        requires { p < length self.now.symbols }
        ensures { result ≡ slice_index self.now.symbols p }
    {
        self.symbols[p as usize]
    }

    /// Whether some word goes through the position.
    pub fn useful(&self, p: u32) -> bool
        requires { p < length self.now.symbols }
        ensures { result ≡ slice_index_or self.now.useful p false }
    {
        self.sets.useful[p as usize]
    }
}

/// The positions of the expression `root`, unless there are more than `limit`.
///
/// # Errors
/// `TooMany` where there are more positions than the limit, found without building them. Else when memory runs out.
pub fn find_positions(
    expr: &Expr,
    root: ExprId,
    limit: u32,
) -> Result<Result<Positions, PositionsError>, AllocError>
    requires { root < length expr.now }
    ensures found { IfOk result (λ answer. IfOk answer (ArePositionsOf (tree_at expr.now root))) }
    ensures too_many { IfOk result (λ answer. IsErr answer ↔ (limit < size (tree_at expr.now root))) }
{
    let alloc = expr.alloc();
    let nodes = expr.nodes();
    let measures = measure_nodes(alloc, nodes)?;
    if measures[root.index()].size > u64::from(limit) {
        return Ok(Err(PositionsError::TooMany));
    }
    let positions = list_positions(alloc, nodes, &measures, root)?;
    Ok(Ok(positions))
}

/// The positions of an expression that has few enough.
fn list_positions(
    alloc: Global,
    nodes: &[Node],
    measures: &[Measure],
    root: ExprId,
) -> Result<Positions, AllocError>
    requires measured { AreMeasured nodes.now measures.now }
    requires root { root < length nodes.now }
    requires fits { size (tree_in nodes.now root) < 2 ^ 32 }
    ensures { IfOk result (ArePositionsOf (tree_in nodes.now root)) }
{
    let symbols = list_symbols(alloc, nodes, measures, root)?;
    let mut sets = find_sets(alloc, nodes, measures, root)?;
    let rows = mem::replace(&mut sets.follow, Vec::new(alloc));
    let follow = share_rows(alloc, sorted(rows))?;
    Ok(Positions {
        symbols,
        sets,
        follow,
    })
}

impl Drop for Positions {
    fn drop(self) {
        let Positions {
            symbols,
            sets,
            follow,
        } = self;
        drop(symbols);
        drop(sets);
        drop(follow);
    }
}
