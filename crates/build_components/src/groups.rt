ghost use Rattle.std.specs.Prelude.{◌≡◌, ◌<◌, ℕ, Some, length, IfSome, IfOk, OnOk};
ghost use Rattle.std.specs.List.{flat_map};
ghost use Rattle.xs_components.specs.Changes.{with_particle};
ghost use Rattle.set_representations.specs.Numbers.{number_at, number_of, numbers_of, with_parts};
ghost use Rattle.set_representations.specs.inside.Changes.{changed_at, changes};
ghost use Rattle.build_components.specs.Groups as spec;

use representations::{Representation, Represented};
use set_representations::{first_number, number_at};
use std::alloc::{AllocError, Global};
use xs_components::{Components, GroupDef, GroupId, ParticleId};
use xs_lists::Listed;

// Adds the group that is represented, if one is.
fn add_group(parts: &mut Components, rep: &Representation) -> Result<Option<GroupId>, AllocError>
    ensures number { IfOk result (λ id. id ≡ number_of (spec.bare_groups rep.now) (length parts.old.groups.parts)) }
    ensures parts { OnOk result (parts.new ≡ record parts.old { groups = with_parts parts.old.groups (spec.bare_groups rep.now) }) }
{
    match &rep.form {
        Represented::Group { name } => Ok(Some(parts.add_group(GroupDef {
            name: *name,
            at: rep.at,
            particle: None,
        })?)),
        _ => Ok(None),
    }
}

/// Adds the groups without their particles, in the order of their representations, and answers their numbers by place.
///
/// # Errors
///
/// `AllocError` is want of memory.
pub(crate) fn add_groups(
    alloc: Global,
    parts: &mut Components,
    reps: &[Representation],
) -> Result<Listed<Option<GroupId>>, AllocError>
    ensures numbers { IfOk result (λ ids. ids ≡ numbers_of spec.bare_groups (length parts.old.groups.parts) reps.now) }
    ensures parts { OnOk result (parts.new ≡ record parts.old { groups = with_parts parts.old.groups (flat_map spec.bare_groups reps.now) }) }
{
    let mut ids = Listed::new(alloc);
    for rep in reps {
        ids.push(add_group(parts, rep)?)?;
    }
    Ok(ids)
}

// Writes the particle of a group, if both are there.
fn set_group_particle(parts: &mut Components, id: Option<GroupId>, particle: Option<ParticleId>)
    requires { IfSome id (λ id. id < length parts.old.groups.parts) }
    ensures { parts.new ≡ record parts.old { groups = record parts.old.groups { parts = changed_at with_particle parts.old.groups.parts id particle } } }
{
    if let Some(id) = id {
        if let Some(particle) = particle {
            parts.set_particle(id, particle);
        }
    }
}

/// Writes the particles of all groups: that of a group is the one that stands in it.
pub(crate) fn set_group_particles(
    parts: &mut Components,
    reps: &[Representation],
    groups: &[Option<GroupId>],
    particles: &[Option<ParticleId>],
)
    requires there { (place n : ℕ) → number_at groups.now place ≡ Some n → n < length parts.old.groups.parts }
    ensures { parts.new ≡ record parts.old { groups = record parts.old.groups { parts = changes with_particle (spec.particle_of particles.now) parts.old.groups.parts groups.now reps.now } } }
{
    for (place, rep) in reps.iter().enumerate() {
        let members = rep.members.as_slice();
        set_group_particle(
            parts,
            number_at(groups, place),
            first_number(particles, members),
        );
    }
}
