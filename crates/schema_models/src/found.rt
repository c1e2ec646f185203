//! The particles of a content model, each once.

ghost use Rattle.std.specs.Prelude.{◌≡◌, ◌<◌, ◌++◌, length, IfOk, OnOk};
ghost use Rattle.particle_models.specs.Unrolled.{is_never};
ghost use Rattle.component_references.specs.Ranked.{IsRanked};
ghost use Rattle.particle_forms.specs.Made.{parts_of};
ghost use Rattle.schema_models.specs.Found.{IsVisit, AreModelParts};

use indexmap::IndexSet;
use std::alloc::{AllocError, Global};
use xs_components::{Components, ParticleId, Term};

/// The particle and those below it that come at all, as they are met.
pub(crate) fn find_parts(
    alloc: Global,
    parts: &Components,
    root: ParticleId,
) -> Result<IndexSet<u32>, AllocError>
    requires ranked { IsRanked parts.now }
    requires there { root < length parts.now.particles.parts }
    ensures { IfOk result (λ found. AreModelParts parts.now root found.keys) }
{
    let mut found = IndexSet::new(alloc);
    let mut todo = Vec::new(alloc);
    todo.push(root)?;
    while let Some(id) = todo.pop() {
        visit(parts, id, &mut found, &mut todo)?;
    }
    Ok(found)
}

// Meets a particle: if it is new, what is right below it waits.
fn visit(
    parts: &Components,
    id: ParticleId,
    found: &mut IndexSet<u32>,
    todo: &mut Vec<ParticleId>,
) -> Result<(), AllocError>
    requires ranked { IsRanked parts.now }
    requires there { id < length parts.now.particles.parts }
    ensures { OnOk result (IsVisit parts.now id found.old.keys found.new.keys todo.old.items todo.new.items) }
{
    if found.contains(&id.number()) {
        return Ok(());
    }
    found.insert(id.number())?;
    if is_never(parts.particle(id).max) {
        return Ok(());
    }
    push_parts(parts, id, todo)
}

/// Whether a particle with this bound does not come at all.
pub(crate) fn is_never(most: Option<u32>) -> bool
    ensures { result ≡ is_never most }
{
    match most {
        Some(most) => most == 0,
        None => false,
    }
}

// Puts the particles right below one to what waits.
fn push_parts(
    parts: &Components,
    id: ParticleId,
    todo: &mut Vec<ParticleId>,
) -> Result<(), AllocError>
    requires ranked { IsRanked parts.now }
    requires there { id < length parts.now.particles.parts }
    ensures { OnOk result (todo.new.items ≡ todo.old.items ++ parts_of parts.now id) }
{
    match &parts.particle(id).term {
        Term::Element(_) | Term::Any(_) => Ok(()),
        Term::Group(group) => match parts.group(*group).particle {
            Some(particle) => {
                todo.push(particle)?;
                Ok(())
            }
            None => Ok(()),
        },
        Term::Sequence(members) | Term::Choice(members) | Term::All(members) => {
            todo.extend_from_slice(members.as_slice())
        }
    }
}
