ghost use Rattle.std.specs.Prelude.{◌≡◌, ◌+◌, ◌<◌, ◌∷◌, [], None, Some, length, slice_get, slice_index, IfOk, OnOk};
ghost use Rattle.xs_components.specs.declared.particle.Term.TheVariants.{Sequence};
ghost use Rattle.component_references.specs.Ranked.{IsRanked};
ghost use Rattle.type_derivation.specs.Particles as spec;
ghost use Rattle.type_derivation.specs.Filled as filled;
ghost use Rattle.type_derivation.specs.Filled.{with_particle};
ghost use Rattle.type_derivation.specs.inside.Filling.{Adds};

use std::alloc::{AllocError, Global};
use xs_components::{
    Components, NsConstraint, Particle, ParticleId, Place, Process, Term, Wildcard,
};
use xs_lists::Listed;

// A rank above that of a particle. Ranks end where memory does.
fn rank_above(parts: &Components, id: ParticleId) -> Result<u32, AllocError>
    requires there { id < length parts.now.particles.parts }
    ensures above { IfOk result (λ rank. slice_index parts.now.particles.ranks id < rank) }
    ensures least { IfOk result (λ rank. rank ≡ filled.above parts.now id) }
    ensures alike { length parts.now.particles.ranks ≡ length parts.now.particles.parts }
{
    match parts.particle_ranks()[id.number() as usize].checked_add(1) {
        Some(rank) => Ok(rank),
        None => Err(AllocError),
    }
}

// Adds a particle of a rank.
fn add_ranked(parts: &mut Components, part: Particle, rank: u32) -> Result<ParticleId, AllocError>
    requires alike { length parts.old.particles.ranks ≡ length parts.old.particles.parts }
    ensures number { IfOk result (λ id. id ≡ length parts.old.particles.parts) }
    ensures table { OnOk result (parts.new ≡ with_particle parts.old part rank) }
{
    let id = parts.add_particle(part)?;
    parts.rank_particle(id, rank);
    Ok(id)
}

// A sequence of two particles, which comes once.
fn pair(
    alloc: Global,
    at: Place,
    first: ParticleId,
    second: ParticleId,
) -> Result<Particle, AllocError>
    ensures { IfOk result (λ part. part ≡ spec.once at (Sequence (first ∷ second ∷ []))) }
{
    let mut members = Listed::new(alloc);
    members.push(first)?;
    members.push(second)?;
    Ok(Particle {
        at,
        min: 1,
        max: Some(1),
        term: Term::Sequence(members),
    })
}

// Adds a sequence of two particles, which comes once.
pub(crate) fn add_sequence(
    alloc: Global,
    parts: &mut Components,
    at: Place,
    first: ParticleId,
    second: ParticleId,
) -> Result<ParticleId, AllocError>
    requires ranked { IsRanked parts.old }
    requires first { first < length parts.old.particles.parts }
    requires second { second < length parts.old.particles.parts }
    ensures sequence { IfOk result (λ id. slice_get parts.new.particles.parts id ≡ Some (spec.once at (Sequence (first ∷ second ∷ [])))) }
    ensures added { IfOk result (λ id. Adds parts.old parts.new (Some id)) }
    ensures number { IfOk result (λ id. id ≡ length parts.old.particles.parts) }
    ensures filled { OnOk result (parts.new ≡ filled.with_sequence parts.old at first second) }
{
    let above_first = rank_above(parts, first)?;
    let above_second = rank_above(parts, second)?;
    let part = pair(alloc, at, first, second)?;
    add_ranked(parts, part, above_first.max(above_second))
}

// Elements of any name, any number of times.
fn anything(at: Place) -> Particle
    ensures { result ≡ spec.any_elements at }
{
    Particle {
        at,
        min: 0,
        max: None,
        term: Term::Any(Wildcard {
            namespaces: NsConstraint::Any,
            process: Process::Lax,
        }),
    }
}

// A sequence of one particle, which comes once.
fn alone(alloc: Global, at: Place, member: ParticleId) -> Result<Particle, AllocError>
    ensures { IfOk result (λ part. part ≡ spec.once at (Sequence (member ∷ []))) }
{
    let mut members = Listed::new(alloc);
    members.push(member)?;
    Ok(Particle {
        at,
        min: 1,
        max: Some(1),
        term: Term::Sequence(members),
    })
}

// Adds the content of anyType (Structures 3.4.7).
pub(crate) fn add_anything(
    alloc: Global,
    parts: &mut Components,
    at: Place,
) -> Result<ParticleId, AllocError>
    requires ranked { IsRanked parts.old }
    ensures anything { IfOk result (λ id. spec.IsAnything parts.new at id) }
    ensures added { IfOk result (λ id. Adds parts.old parts.new (Some id)) }
    ensures number { IfOk result (λ id. id ≡ length parts.old.particles.parts + 1) }
    ensures filled { OnOk result (parts.new ≡ filled.with_alone parts.old at (spec.any_elements at)) }
{
    let any = parts.add_particle(anything(at))?;
    let rank = rank_above(parts, any)?;
    let part = alone(alloc, at, any)?;
    add_ranked(parts, part, rank)
}
