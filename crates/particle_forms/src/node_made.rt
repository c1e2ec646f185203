//! The particles that a content model is made of.

ghost use Rattle.std.specs.Prelude.{◌≡◌, ◌<◌, ◌++◌, length, slice_index, IfOk, OnOk};
ghost use Rattle.std.specs.List.Sorted.{IsNonDecreasingBy};
ghost use Rattle.component_references.specs.Ranked.{IsRanked};
ghost use Rattle.particle_forms.specs.Made.{parts_of, Visits, AreAllParts};

use indexmap::IndexSet;
use std::alloc::{AllocError, Global};
use xs_components::{Components, ParticleId, Term};

/// The particles of a model, each once, lowest rank first: the particle, those that it holds or whose group it refers to, and
/// so on.
pub(crate) fn parts_by_rank(
    alloc: Global,
    parts: &Components,
    root: ParticleId,
) -> Result<Vec<u32>, AllocError>
    requires ranked { IsRanked parts.now }
    requires there { root < length parts.now.particles.parts }
    ensures all { IfOk result (λ order. AreAllParts parts.now root order.items) }
    ensures rises { IfOk result (λ order. IsNonDecreasingBy (slice_index parts.now.particles.ranks) order.items) }
{
    let found = find_parts(alloc, parts, root)?;
    let mut order = Vec::from_slice(alloc, found.as_slice())?;
    order.sort_by_key(|id| rank_of(parts, *id))?;
    Ok(order)
}

// The rank of a particle by its number; 0 past the last.
fn rank_of(parts: &Components, id: u32) -> u32
    ensures { result ≡ slice_index parts.now.particles.ranks id }
{
    let ranks = parts.particle_ranks();
    if (id as usize) < ranks.len() {
        ranks[id as usize]
    } else {
        0
    }
}

// The particles of a model, as they are met.
fn find_parts(
    alloc: Global,
    parts: &Components,
    root: ParticleId,
) -> Result<IndexSet<u32>, AllocError>
    requires ranked { IsRanked parts.now }
    requires there { root < length parts.now.particles.parts }
    ensures all { IfOk result (λ found. AreAllParts parts.now root found.keys) }
{
    let mut found = IndexSet::new(alloc);
    let mut todo = Vec::new(alloc);
    todo.push(root)?;
    while let Some(id) = todo.pop() {
        visit(parts, id, &mut found, &mut todo)?;
    }
    Ok(found)
}

// Meets a particle: if it is new, what is right below it waits.
fn visit(
    parts: &Components,
    id: ParticleId,
    found: &mut IndexSet<u32>,
    todo: &mut Vec<ParticleId>,
) -> Result<(), AllocError>
    requires ranked { IsRanked parts.now }
    requires there { id < length parts.now.particles.parts }
    ensures { OnOk result (Visits parts.now id found.old.keys found.new.keys todo.old.items todo.new.items) }
{
    if found.contains(&id.number()) {
        return Ok(());
    }
    found.insert(id.number())?;
    push_parts(parts, id, todo)
}

// Puts the particles right below one to what waits.
fn push_parts(
    parts: &Components,
    id: ParticleId,
    todo: &mut Vec<ParticleId>,
) -> Result<(), AllocError>
    requires ranked { IsRanked parts.now }
    requires there { id < length parts.now.particles.parts }
    ensures { OnOk result (todo.new.items ≡ todo.old.items ++ parts_of parts.now id) }
{
    match &parts.particle(id).term {
        Term::Element(_) | Term::Any(_) => Ok(()),
        Term::Group(group) => match parts.group(*group).particle {
            Some(particle) => {
                todo.push(particle)?;
                Ok(())
            }
            None => Ok(()),
        },
        Term::Sequence(members) | Term::Choice(members) | Term::All(members) => {
            todo.extend_from_slice(members.as_slice())
        }
    }
}
