//! Complex types by the places of their representations.

ghost use Rattle.std.specs.Prelude.{◌≡◌, ◌≤◌, ℕ, length, IfOk};
ghost use Rattle.schema_models.specs.SetModels.{place_of};
ghost use Rattle.schema_models.specs.inside.Steps.{AreCounted, IsInOrder};

use std::alloc::{AllocError, Global};
use xs_components::{ComplexId, Components};

// All complex types, in the order of their numbers.
fn all_types(alloc: Global, parts: &Components) -> Result<Vec<ComplexId>, AllocError>
    ensures count { IfOk result (λ all. length all.items ≡ length parts.now.complexes.parts) }
    ensures counted { IfOk result (λ all. AreCounted all.items) }
{
    let mut all = Vec::new(alloc);
    let mut number = 0;
    while let Some(id) = parts.complex_at(number) {
        all.push(id)?;
        number += 1;
    }
    Ok(all)
}

// The document, the item and the number of a complex type.
fn place_key(parts: &Components, id: ComplexId) -> (u32, u32, u32)
    ensures { result ≡ ((place_of parts.now id).document, (place_of parts.now id).item, id) }
{
    match parts.complexes().get(id.number() as usize) {
        None => (0, 0, id.number()),
        Some(part) => (part.at.document, part.at.item, id.number()),
    }
}

/// All complex types by document, then item, then number.
pub(crate) fn in_order(alloc: Global, parts: &Components) -> Result<Vec<ComplexId>, AllocError>
    ensures { IfOk result (λ order. IsInOrder parts.now order.items) }
{
    let mut order = all_types(alloc, parts)?;
    order.sort_by_key(|id| place_key(parts, *id))?;
    Ok(order)
}
