ghost use Rattle.std.specs.Prelude.{◌≡◌, ◌+◌, ◌++◌, ◌∷◌, [], OnOk, IfOk};
ghost use Rattle.component_references.specs.References.{behind, one_or_none};

use std::alloc::{AllocError, Global};
use xs_components::ParticleId;
use xs_lists::Listed;

// A number behind so many others. Numbers end where memory does.
pub(crate) fn shifted(before: u32, number: u32) -> Result<u32, AllocError>
    ensures { IfOk result (λ n. n ≡ before + number) }
{
    match before.checked_add(number) {
        Some(n) => Ok(n),
        None => Err(AllocError),
    }
}

// One number.
pub(crate) fn row_of(alloc: Global, number: u32) -> Result<Listed<u32>, AllocError>
    ensures { IfOk result (λ row. row ≡ number ∷ []) }
{
    let mut row = Listed::new(alloc);
    row.push(number)?;
    Ok(row)
}

// The numbers of particles behind so many groups.
pub(crate) fn particle_row(
    alloc: Global,
    groups: u32,
    particles: &[ParticleId],
) -> Result<Listed<u32>, AllocError>
    ensures { IfOk result (λ row. row ≡ behind groups particles.now) }
{
    let mut row = Listed::new(alloc);
    for particle in particles {
        row.push(shifted(groups, particle.number())?)?;
    }
    Ok(row)
}
