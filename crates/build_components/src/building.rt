ghost use Rattle.std.specs.Prelude.{◌≡◌, IfOk, OnOk};
ghost use Rattle.xs_components.specs.Tables.{no_tables};
ghost use Rattle.build_components.specs.Built as spec;

use crate::ComplexNumbers;
use crate::steps::{add_attribute_parts, add_element_parts, fill_types};
use build_types::number_types;
use representations::Source;
use std::alloc::{AllocError, Global};
use xs_components::Components;

// Fills empty tables.
fn fill(alloc: Global, parts: &mut Components, source: &Source) -> Result<(), AllocError>
    requires empty { parts.old ≡ no_tables }
    ensures tables { OnOk result (parts.new ≡ spec.built source.now) }
{
    let type_ids = number_types(alloc, parts, source.reps)?;
    let types = type_ids.as_slice();
    let given = add_attribute_parts(alloc, parts, source, types)?;
    let attributes = given.attributes.as_slice();
    let groups = given.groups.as_slice();
    let particle_ids = add_element_parts(alloc, parts, source, types)?;
    let particles = particle_ids.as_slice();
    let numbers = ComplexNumbers {
        types,
        attributes,
        groups,
        particles,
    };
    fill_types(alloc, parts, source, &numbers)?;
    Ok(())
}

/// Builds all components of a schema set (Structures 3.15.1), by the rules of 1.0.
///
/// What is represented must resolve: a name that means nothing is refused by another crate. Without that, anyType stands for a
/// type that is not found, and what refers to another component that is not found is left out.
///
/// # Errors
///
/// `AllocError` is want of memory.
pub fn build(alloc: Global, source: &Source) -> Result<Components, AllocError>
    ensures tables { IfOk result (λ parts. parts ≡ spec.built source.now) }
{
    let mut parts = Components::new(alloc)?;
    fill(alloc, &mut parts, source)?;
    Ok(parts)
}
