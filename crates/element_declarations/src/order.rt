//! Elements by the places of their declarations.

ghost use Rattle.std.specs.Prelude.{◌≡◌, ◌≤◌, ℕ, length, IfOk};
ghost use Rattle.element_declarations.specs.Groups as spec;
ghost use Rattle.element_declarations.specs.inside.Steps.{AreCounted, IsInOrder};

use std::alloc::{AllocError, Global};
use xs_components::{Components, ElementId};

// All elements, in the order of their numbers.
fn all_elements(alloc: Global, parts: &Components) -> Result<Vec<ElementId>, AllocError>
    ensures count { IfOk result (λ all. length all.items ≡ length parts.now.elements.parts) }
    ensures counted { IfOk result (λ all. AreCounted all.items) }
{
    let mut all = Vec::new(alloc);
    let mut number = 0;
    while let Some(element) = parts.element_at(number) {
        all.push(element)?;
        number += 1;
    }
    Ok(all)
}

// The document, the item and the number of an element.
fn place_key(parts: &Components, element: ElementId) -> (u32, u32, u32)
    ensures { result ≡ ((spec.place_of parts.now element).document, (spec.place_of parts.now element).item, element) }
{
    match parts.elements().get(element.number() as usize) {
        None => (0, 0, element.number()),
        Some(part) => (part.at.document, part.at.item, element.number()),
    }
}

/// All elements by document, then item, then number.
pub(crate) fn in_order(alloc: Global, parts: &Components) -> Result<Vec<ElementId>, AllocError>
    ensures { IfOk result (λ order. IsInOrder parts.now order.items) }
{
    let mut order = all_elements(alloc, parts)?;
    order.sort_by_key(|element| place_key(parts, *element))?;
    Ok(order)
}
