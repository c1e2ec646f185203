//! Particles by rank.

ghost use Rattle.std.specs.Prelude.{◌≡◌, ◌≤◌, ℕ, length, slice_index, IfOk};
ghost use Rattle.schema_models.specs.inside.Marks.{IsByRank, AreCounted};

use std::alloc::{AllocError, Global};
use xs_components::{Components, ParticleId};

// All particles, in the order of their numbers.
fn all_particles(alloc: Global, parts: &Components) -> Result<Vec<ParticleId>, AllocError>
    ensures count { IfOk result (λ all. length all.items ≡ length parts.now.particles.parts) }
    ensures counted { IfOk result (λ all. AreCounted all.items) }
{
    let mut all = Vec::new(alloc);
    let mut number = 0;
    while let Some(id) = parts.particle_at(number) {
        all.push(id)?;
        number += 1;
    }
    Ok(all)
}

// The rank of a particle; 0 past the last.
fn rank_of(parts: &Components, id: ParticleId) -> u32
    ensures { result ≡ slice_index parts.now.particles.ranks id }
{
    match parts.particle_ranks().get(id.number() as usize) {
        Some(rank) => *rank,
        None => 0,
    }
}

/// All particles, those of lower rank first.
pub(crate) fn by_rank(alloc: Global, parts: &Components) -> Result<Vec<ParticleId>, AllocError>
    ensures { IfOk result (λ order. IsByRank parts.now order.items) }
{
    let mut order = all_particles(alloc, parts)?;
    order.sort_by_key(|id| rank_of(parts, *id))?;
    Ok(order)
}
