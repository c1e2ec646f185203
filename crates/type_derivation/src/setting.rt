ghost use Rattle.std.specs.Prelude.{◌≡◌, ◌<◌, ◌⊎◌, ℕ, false, None, Some, All, length, slice_get, OnOk, IfSome};
ghost use Rattle.xs_components.specs.declared.complex.ComplexType.{ComplexType as ComplexTypeValue};
ghost use Rattle.component_references.specs.Ranked.{IsRanked};
ghost use Rattle.component_references.specs.References.{effective_of, IsPart, Each};
ghost use Rattle.type_derivation.specs.Cycles.{IsGrown};
ghost use Rattle.type_derivation.specs.Particles.{AreContentsSet};
ghost use Rattle.type_derivation.specs.Filled as filled;
ghost use Rattle.type_derivation.specs.inside.Filling.{IsFilling, IsDone, IsBaseDone, Sets};

use crate::contents::content_of;
use crate::type_order::types_in_order;
use std::alloc::{AllocError, Global};
use xs_components::{ComplexId, Components, ParticleId};

// Writes the particle of the content of a complex type, if it has one.
fn write_content(parts: &mut Components, id: ComplexId, content: Option<ParticleId>)
    requires there { id < length parts.old.complexes.parts }
    requires none { slice_get parts.old.contents id ≡ Some None }
    ensures set { Sets parts.old parts.new id content }
    ensures filled { parts.new ≡ filled.with_content parts.old id content }
{
    if let Some(particle) = content {
        parts.set_content(id, particle);
    }
}

// Sets the content of a complex type whose base is done.
fn set_content(
    alloc: Global,
    parts: &mut Components,
    done: &mut [bool],
    number: u32,
) -> Result<(), AllocError>
    requires there { number < length parts.old.complexes.parts }
    requires filling { IsFilling parts.old done.old }
    requires undone { slice_get done.old number ≡ Some false }
    requires base { (part : ComplexTypeValue) → slice_get parts.old.complexes.parts number ≡ Some part → IsBaseDone done.old part.base }
    ensures filling { OnOk result (IsFilling parts.new done.new) }
    ensures here { OnOk result (IsDone done.new number) }
    ensures kept { OnOk result ((n : ℕ) → IsDone done.old n → IsDone done.new n) }
    ensures only { OnOk result ((n : ℕ) → IsDone done.new n → (n ≡ number) ⊎ IsDone done.old n) }
    ensures grown { OnOk result (IsGrown parts.old parts.new) }
    ensures filled { OnOk result (parts.new ≡ filled.type_filled parts.old number) }
{
    let Some(id) = parts.complex_at(number) else {
        return Ok(());
    };
    let content = content_of(alloc, parts, id)?;
    write_content(parts, id, content);
    done[number as usize] = true;
    Ok(())
}

// Sets the contents of all complex types, in an order by ranks.
fn set_all(
    alloc: Global,
    parts: &mut Components,
    order: &[u32],
    done: &mut [bool],
) -> Result<(), AllocError>
    requires order { filled.IsTypeOrder (length parts.old.complexes.parts) parts.old.complexes.ranks order.now }
    requires filling { IsFilling parts.old done.old }
    requires none { (n : ℕ) → IsDone done.old n → ⊥ }
    ensures ranked { OnOk result (IsRanked parts.new) }
    ensures contents { OnOk result (AreContentsSet parts.new) }
    ensures filled { OnOk result (filled.IsFilled parts.old parts.new) }
{
    for number in order {
        set_content(alloc, parts, done, *number)?;
    }
    Ok(())
}

/// Sets the particles of the contents of all complex types, those of bases first.
pub(crate) fn set_contents(alloc: Global, parts: &mut Components) -> Result<(), AllocError>
    requires ranked { IsRanked parts.old }
    requires effectives { Each parts.old.complexes (λ part. IfSome (effective_of part.content) (IsPart parts.old.particles)) }
    requires none { All (λ content. content ≡ None) parts.old.contents }
    ensures ranked { OnOk result (IsRanked parts.new) }
    ensures contents { OnOk result (AreContentsSet parts.new) }
    ensures filled { OnOk result (filled.IsFilled parts.old parts.new) }
{
    let order = types_in_order(alloc, parts.complex_ranks())?;
    let mut done = Vec::from_elem(alloc, false, parts.contents().len())?;
    set_all(alloc, parts, order.as_slice(), done.as_mut_slice())
}
