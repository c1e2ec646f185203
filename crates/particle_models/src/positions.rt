//! Models unrolled.

ghost use Rattle.std.specs.Prelude.{◌≡◌, ℕ, ◌<◌, ◌↔◌, length, IfOk, IsErr};
ghost use Rattle.xs_positions.specs.Sets.{row};
ghost use Rattle.particle_models.specs.Nodes.{model_in, IsOrdered};
ghost use Rattle.particle_models.specs.Unrolled.{positions_of};
ghost use Rattle.particle_models.specs.Sharing.{inhabited_of};
ghost use Rattle.particle_models.specs.Model.{IsUnrolled};
ghost use Rattle.std.specs.Prelude.{slice_index};

use crate::node::Node;
use crate::numbering::{find_empty, number_terms};
use crate::sharing::share;
use std::alloc::{AllocError, Global};
use std::marker::Model;
use xs_positions::{Positions, PositionsError, find_positions};

/// How many positions a model may have.
pub const MOST_POSITIONS: u32 = 2_048;

/// A model unrolled: its terms, and its positions, the copies of the terms.
#[derive(Drop)]
pub struct Unrolled {
    positions: Positions,
    numbers: Vec<u32>,
    terms: Vec<u32>,
}

impl Model for Unrolled {
    ghost use Rattle.particle_models.specs.Model.{UnrolledModel};

    ghost Value = { UnrolledModel };

    ghost use Rattle.std.specs.Prelude.{◌≡◌, length};

    ghost view = { λ u. record { terms = u.terms.items; table = record u.positions { symbols = u.numbers.items } } };

    ghost invariant = { λ u. length u.numbers.items ≡ length u.positions.symbols };
}

impl Unrolled {
    /// The particles of the terms, in order.
    pub fn terms(&self) -> &[u32]
        ensures { result.now ≡ self.now.terms }
    {
        &self.terms
    }

    /// How many positions there are.
    pub fn count(&self) -> u32
        ensures { result ≡ length self.now.table.symbols }
    {
        self.positions.count()
    }

    /// The positions that may begin a word, rising.
    pub fn first(&self) -> &[u32]
        ensures { result.now ≡ self.now.table.first }
    {
        self.positions.first()
    }

    /// The positions that may end a word, rising.
    pub fn last(&self) -> &[u32]
        ensures { result.now ≡ self.now.table.last }
    {
        self.positions.last()
    }

    /// The positions that may come right after this one, rising.
    pub fn follow(&self, p: u32) -> &[u32]
        requires { p < length self.now.table.symbols }
        ensures { result.now ≡ row self.now.table.follow p }
    {
        self.positions.follow(p)
    }

    /// Whether the empty word is one.
    pub fn nullable(&self) -> bool
        ensures { result ≡ self.now.table.nullable }
    {
        self.positions.nullable()
    }

    /// The number of the term of a position.
    pub fn term_of(&self, p: u32) -> u32
        requires { p < length self.now.table.symbols }
        ensures { result ≡ slice_index self.now.table.symbols p }
    {
        self.numbers[p as usize]
    }
}

/// The terms and the positions of a node's model, unless there are more than 2,048 positions. `inhabited` says of the
/// particle of each number whether it accepts some name.
///
/// # Errors
/// `TooMany` where there are more positions, found without building them. Else when memory runs out.
pub fn unroll(
    alloc: Global,
    nodes: &[Node],
    inhabited: &[bool],
    root: u32,
) -> Result<Result<Unrolled, PositionsError>, AllocError>
    requires ordered { IsOrdered nodes.now }
    requires root { root < length nodes.now }
    ensures unrolled { IfOk result (λ answer. IfOk answer (IsUnrolled (inhabited_of inhabited.now) (model_in nodes.now root))) }
    ensures too_many { IfOk result (λ answer. IsErr answer ↔ (2048 < positions_of (model_in nodes.now root))) }
{
    let shared = share(alloc, nodes, inhabited)?;
    let root_id = shared.ids[root as usize];
    let positions = match find_positions(&shared.expr, root_id, MOST_POSITIONS)? {
        Ok(positions) => positions,
        Err(error) => return Ok(Err(error)),
    };
    let empty = find_empty(alloc, nodes)?;
    let numbering = number_terms(alloc, nodes, &empty, root)?;
    Ok(Ok(Unrolled {
        positions,
        numbers: numbering.numbers,
        terms: numbering.terms,
    }))
}
