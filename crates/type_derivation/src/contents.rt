ghost use Rattle.std.specs.Prelude.{◌≡◌, ◌<◌, Some, length, slice_get, IfOk, IfSome};
ghost use Rattle.xs_components.specs.declared.complex.ComplexType.{ComplexType as ComplexTypeValue};
ghost use Rattle.component_references.specs.Heights.{IsType};
ghost use Rattle.component_references.specs.Ranked.{IsRanked};
ghost use Rattle.component_references.specs.References.{effective_of, IsPart};
ghost use Rattle.type_derivation.specs.Particles as spec;
ghost use Rattle.type_derivation.specs.Filled.{IsContent, base_filled, extended_filled, part_filled};
ghost use Rattle.type_derivation.specs.inside.Filling.{Adds, AreContentsThere};

use crate::adding::{add_anything, add_sequence};
use std::alloc::{AllocError, Global};
use xs_components::{ComplexId, Components, ContentForm, ParticleId, Place, TypeId};

// The particle of the content of a base.
fn base_content(
    alloc: Global,
    parts: &mut Components,
    at: Place,
    base: TypeId,
) -> Result<Option<ParticleId>, AllocError>
    requires ranked { IsRanked parts.old }
    requires contents { AreContentsThere parts.old }
    requires there { IsType parts.old base }
    ensures content { IfOk result (λ content. spec.IsBaseContent parts.new at base content) }
    ensures added { IfOk result (λ content. Adds parts.old parts.new content) }
    ensures filled { IfOk result (λ content. IsContent (base_filled parts.old at base) parts.new content) }
{
    match base {
        TypeId::AnyType => Ok(Some(add_anything(alloc, parts, at)?)),
        TypeId::Builtin(_) => Ok(None),
        TypeId::Simple(_) => Ok(None),
        TypeId::Complex(id) => Ok(parts.content(id)),
    }
}

// The particle of the content of a type that extends a base of a content.
fn extended(
    alloc: Global,
    parts: &mut Components,
    at: Place,
    inner: Option<ParticleId>,
    effective: Option<ParticleId>,
) -> Result<Option<ParticleId>, AllocError>
    requires ranked { IsRanked parts.old }
    requires inner { IfSome inner (IsPart parts.old.particles) }
    requires effective { IfSome effective (IsPart parts.old.particles) }
    ensures content { IfOk result (λ content. spec.IsExtended parts.new at inner effective content) }
    ensures added { IfOk result (λ content. Adds parts.old parts.new content) }
    ensures filled { IfOk result (λ content. IsContent (extended_filled parts.old at inner effective) parts.new content) }
{
    let Some(base) = inner else {
        return Ok(effective);
    };
    match effective {
        None => Ok(inner),
        Some(own) => Ok(Some(add_sequence(alloc, parts, at, base, own)?)),
    }
}

// The particle of the effective content of a type.
fn effective(content: &ContentForm) -> Option<ParticleId>
    ensures { result ≡ effective_of content.now }
{
    match content {
        ContentForm::Simple { .. } => None,
        ContentForm::Complex { effective, .. } => *effective,
    }
}

// Whether the content of a type goes on from that of its base.
fn goes_on(by_extension: bool, content: &ContentForm) -> bool
    ensures { result ≡ spec.goes_on by_extension content.now }
{
    match content {
        ContentForm::Simple { .. } => false,
        ContentForm::Complex { .. } => by_extension,
    }
}

// The particle of the content of a complex type.
pub(crate) fn content_of(
    alloc: Global,
    parts: &mut Components,
    id: ComplexId,
) -> Result<Option<ParticleId>, AllocError>
    requires there { id < length parts.old.complexes.parts }
    requires ranked { IsRanked parts.old }
    requires contents { AreContentsThere parts.old }
    requires effective { (part : ComplexTypeValue) → slice_get parts.old.complexes.parts id ≡ Some part → IfSome (effective_of part.content) (IsPart parts.old.particles) }
    ensures content { IfOk result (λ content. (part : ComplexTypeValue) → slice_get parts.old.complexes.parts id ≡ Some part → spec.IsContentOf parts.new part.by_extension part.at part.base part.content content) }
    ensures added { IfOk result (λ content. Adds parts.old parts.new content) }
    ensures filled { IfOk result (λ content. (part : ComplexTypeValue) → slice_get parts.old.complexes.parts id ≡ Some part → IsContent (part_filled parts.old part) parts.new content) }
{
    let part = parts.complex(id);
    let own = effective(&part.content);
    if !goes_on(part.by_extension, &part.content) {
        return Ok(own);
    }
    let at = part.at;
    let base = part.base;
    let inner = base_content(alloc, parts, at, base)?;
    extended(alloc, parts, at, inner, own)
}
