ghost use Rattle.std.specs.Prelude.{◌≡◌, IfOk, OnOk};
ghost use Rattle.build_components.specs.Models as spec;

use crate::groups::{add_groups, set_group_particles};
use crate::particles::add_particles;
use representations::Source;
use std::alloc::{AllocError, Global};
use xs_components::{Components, ElementId, ParticleId};
use xs_lists::Listed;

/// Builds the groups, in the order of their representations, and the particles, from the last representation to the first, so
/// that what stands in a model group is there before it. Answers the numbers of the particles by place.
///
/// # Errors
///
/// `AllocError` is want of memory.
pub fn build_particles(
    alloc: Global,
    parts: &mut Components,
    source: &Source,
    elements: &[Option<ElementId>],
) -> Result<Listed<Option<ParticleId>>, AllocError>
    ensures numbers { IfOk result (λ ids. ids ≡ (spec.particles_for source.now elements.now parts.old).numbers) }
    ensures parts { OnOk result (parts.new ≡ spec.with_models source.now elements.now parts.old) }
{
    let groups = add_groups(alloc, parts, source.reps)?;
    let particles = add_particles(alloc, parts, source, elements, groups.as_slice())?;
    set_group_particles(parts, source.reps, groups.as_slice(), particles.as_slice());
    Ok(particles)
}
