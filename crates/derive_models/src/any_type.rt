//! The wildcard of anyType's content, in the contents of types that extend anyType.

ghost use Rattle.std.specs.Prelude.{◌≡◌, ◌↔◌, ℕ, ◌<◌, true, false, Some, length, slice_get, slice_index_or, IfSome, IfOk};
ghost use Rattle.std.specs.Option.{option_and_then};
ghost use Rattle.component_references.specs.Ranked.{IsRanked};
ghost use Rattle.derive_models.specs.AnyType as spec;
ghost use Rattle.derive_models.specs.Steps.{IsMarked};

use std::alloc::{AllocError, Global};
use xs_components::{ComplexId, ComplexType, Components, ContentForm, ParticleId, Term, TypeId};

/// For each particle, whether it is the wildcard of anyType's content (Structures 3.4.7).
pub(crate) fn any_flags(alloc: Global, parts: &Components) -> Result<Vec<bool>, AllocError>
    requires ranked { IsRanked parts.now }
    requires contents { spec.AreContentsThere parts.now }
    ensures flags { IfOk result (λ flags. (particle : ℕ) → (slice_index_or flags.items particle false ≡ true) ↔ spec.IsOfAnyType parts.now particle) }
{
    let mut flags = Vec::from_elem(alloc, false, parts.particles().len())?;
    let mut number = 0;
    while let Some(id) = parts.complex_at(number) {
        mark(&mut flags, any_particle(parts, id, parts.complex(id)));
        number += 1;
    }
    Ok(flags)
}

// Marks a particle, if there is one.
fn mark(flags: &mut Vec<bool>, particle: Option<ParticleId>)
    requires there { IfSome particle (λ p. p < length flags.old.items) }
    ensures marked { IsMarked flags.old.items particle flags.new.items }
{
    if let Some(particle) = particle {
        flags[particle.number() as usize] = true;
    }
}

// The wildcard of anyType's content in that of a complex type, if this extends anyType.
fn any_particle(parts: &Components, id: ComplexId, part: &ComplexType) -> Option<ParticleId>
    requires ranked { IsRanked parts.now }
    requires contents { spec.AreContentsThere parts.now }
    requires part { slice_get parts.now.complexes.parts id ≡ Some part.now }
    ensures { result ≡ spec.any_particle parts.now id part.now }
{
    if !part.by_extension || part.base != TypeId::AnyType {
        return None;
    }
    let content = parts.content(id)?;
    let base = part_of_base(parts, &part.content, content)?;
    first_member(parts, base)
}

// What the content of an extension has of its base.
fn part_of_base(parts: &Components, form: &ContentForm, content: ParticleId) -> Option<ParticleId>
    requires ranked { IsRanked parts.now }
    requires there { content < length parts.now.particles.parts }
    ensures { result ≡ spec.part_of_base parts.now form.now content }
{
    match form {
        ContentForm::Simple { .. } => None,
        ContentForm::Complex { effective, .. } => match effective {
            None => Some(content),
            Some(_) => first_member(parts, content),
        },
    }
}

// The first of the particles that a group holds.
fn first_member(parts: &Components, id: ParticleId) -> Option<ParticleId>
    requires ranked { IsRanked parts.now }
    requires there { id < length parts.now.particles.parts }
    ensures { result ≡ spec.first_member parts.now id }
{
    match &parts.particle(id).term {
        Term::Element(_) | Term::Any(_) | Term::Group(_) => None,
        Term::Sequence(members) | Term::Choice(members) | Term::All(members) => {
            members.get(0).copied()
        }
    }
}
