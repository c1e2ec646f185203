//! Content models unrolled.

ghost use Rattle.std.specs.Prelude.{◌≡◌, ◌<◌, ◌↔◌, ℕ, Bool, false, length, slice_index_or, IfOk, IsErr};
ghost use Rattle.component_references.specs.Ranked.{IsRanked};
ghost use Rattle.particle_models.specs.Model.{IsUnrolled};
ghost use Rattle.particle_models.specs.Unrolled.{positions_of};
ghost use Rattle.particle_forms.specs.Models.{model_of};
ghost use Rattle.particle_forms.specs.Accepted.{is_inhabited};

use crate::inhabited::Inhabited;
use crate::made::parts_by_rank;
use crate::nodes::{nodes_of, number_of};
use particle_models::{Unrolled, unroll as unroll_nodes};
use std::alloc::{AllocError, Global};
use xs_components::{Components, Members, ParticleId};
use xs_positions::PositionsError;

/// The terms and the positions of the content model of a particle. A position is one copy of a term: a particle of bounds n to m
/// has m copies, of n to unbounded the greater of n and 1; an `all` has none.
///
/// # Errors
/// `TooMany` where there are more than 2,048 positions, found without building them. Else when memory runs out.
pub fn unroll(
    alloc: Global,
    parts: &Components,
    members: &Members,
    p: ParticleId,
) -> Result<Result<Unrolled, PositionsError>, AllocError>
    requires ranked { IsRanked parts.now }
    requires there { p < length parts.now.particles.parts }
    ensures unrolled { IfOk result (λ answer. IfOk answer (IsUnrolled (is_inhabited members.now parts.now) (model_of parts.now p))) }
    ensures too_many { IfOk result (λ answer. IsErr answer ↔ (2048 < positions_of (model_of parts.now p))) }
{
    let inhabited = Inhabited::of(alloc, parts, members)?;
    unroll_by(alloc, parts, &inhabited, p)
}

/// The same, where it is known which particles accept some name. It goes over the particles of the model alone, and each once.
///
/// # Errors
/// As those of `unroll`.
pub fn unroll_by(
    alloc: Global,
    parts: &Components,
    inhabited: &Inhabited,
    p: ParticleId,
) -> Result<Result<Unrolled, PositionsError>, AllocError>
    requires ranked { IsRanked parts.now }
    requires there { p < length parts.now.particles.parts }
    ensures unrolled { (flags : ℕ → Bool) → ((id : ℕ) → slice_index_or inhabited.now id false ≡ flags id) → IfOk result (λ answer. IfOk answer (IsUnrolled flags (model_of parts.now p))) }
    ensures too_many { IfOk result (λ answer. IsErr answer ↔ (2048 < positions_of (model_of parts.now p))) }
{
    let order = parts_by_rank(alloc, parts, p)?;
    let made = nodes_of(alloc, parts, &order)?;
    let root = number_of(&made.numbers, p);
    unroll_nodes(alloc, &made.nodes, &inhabited.flags, root)
}
