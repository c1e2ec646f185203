ghost use Rattle.std.specs.Prelude.{◌≡◌, None, length, replicate, IfOk, OnOk};
ghost use Rattle.set_representations.specs.Numbers.{with_parts};
ghost use Rattle.build_components.specs.Particles as spec;

use crate::terms::{TermNumbers, add_particle};
use representations::Source;
use std::alloc::{AllocError, Global};
use xs_components::{Components, ElementId, GroupId, ParticleId};
use xs_lists::Listed;

// No number for so many places.
fn no_numbers(alloc: Global, count: usize) -> Result<Vec<Option<ParticleId>>, AllocError>
    ensures { IfOk result (λ ids. ids.items ≡ replicate count None) }
{
    let mut ids = Vec::new(alloc);
    for _ in 0..count {
        ids.push(None)?;
    }
    Ok(ids)
}

/// Adds the particles, from the last representation to the first, so that what stands in a group is there before it. Answers
/// their numbers by place.
///
/// # Errors
///
/// `AllocError` is want of memory.
pub(crate) fn add_particles(
    alloc: Global,
    parts: &mut Components,
    source: &Source,
    elements: &[Option<ElementId>],
    groups: &[Option<GroupId>],
) -> Result<Listed<Option<ParticleId>>, AllocError>
    ensures numbers { IfOk result (λ ids. ids ≡ (spec.particles source.now elements.now groups.now (length parts.old.particles.parts)).numbers) }
    ensures parts { OnOk result (parts.new ≡ record parts.old { particles = with_parts parts.old.particles (spec.particles source.now elements.now groups.now (length parts.old.particles.parts)).parts }) }
{
    let mut ids = no_numbers(alloc, source.reps.len())?;
    let mut place = source.reps.len();
    'back: while place > 0 {
        place -= 1;
        let numbers = TermNumbers {
            elements,
            groups,
            particles: ids.as_slice(),
        };
        let id = add_particle(alloc, parts, source, &numbers, place, &source.reps[place])?;
        ids[place] = id;
    }
    Ok(Listed::from_vec(ids))
}
