ghost use Rattle.std.specs.Prelude.{◌≡◌, ◌<◌, ℕ, Some, IfSome, length, slice_get};
ghost use Rattle.component_references.specs.Heights.{IsType};
ghost use Rattle.particle_forms.specs.Ranges.{AreRangesOf};
ghost use Rattle.derive_faults.specs.Emptiable as spec;

use particle_forms::Ranges;
use xs_components::{Components, ParticleId, TypeId};

// Whether a particle, if there is one, may come without any element.
fn is_emptiable_particle(parts: &Components, ranges: &Ranges, particle: Option<ParticleId>) -> bool
    requires ranges { AreRangesOf parts.now ranges.now }
    requires there { IfSome particle (λ p. p < length parts.now.particles.parts) }
    ensures { result ≡ spec.is_emptiable_particle parts.now particle }
{
    match particle {
        None => true,
        Some(particle) => ranges.emptiable(particle),
    }
}

/// Whether the content model of a type may come without any element (Structures 3.9.6); that of anyType may.
pub fn has_emptiable_model(parts: &Components, ranges: &Ranges, of: &TypeId) -> bool
    requires ranges { AreRangesOf parts.now ranges.now }
    requires contents { (n p : ℕ) → slice_get parts.now.contents n ≡ Some (Some p) → n < length parts.now.complexes.parts → p < length parts.now.particles.parts }
    requires there { IsType parts.now of.now }
    ensures { result ≡ spec.has_emptiable_model parts.now of.now }
{
    match of {
        TypeId::AnyType => true,
        TypeId::Builtin(_) | TypeId::Simple(_) => false,
        TypeId::Complex(id) => is_emptiable_particle(parts, ranges, parts.content(*id)),
    }
}
