ghost use Rattle.std.specs.Prelude.{◌≡◌, length, IfOk, OnOk};
ghost use Rattle.xs_components.specs.Table.{no_parts};
ghost use Rattle.build_types.specs.SimpleTypes.{simple_types};
ghost use Rattle.build_components.specs.Complexes.{complex_types};
ghost use Rattle.build_components.specs.inside.Steps as spec;

use crate::{ComplexNumbers, add_constraints, build_complexes, build_elements, build_particles};
use build_types::{add_attributes, build_attr_groups, build_simples, number_attr_groups};
use representations::Source;
use std::alloc::{AllocError, Global};
use xs_components::{AttrGroupId, AttributeId, Components, ParticleId, TypeId};
use xs_lists::Listed;

/// The numbers of attributes and attribute groups, by place.
#[derive(Drop)]
pub(crate) struct AttributeNumbers {
    pub(crate) attributes: Listed<Option<AttributeId>>,
    pub(crate) groups: Listed<Option<AttrGroupId>>,
}

/// Adds the attributes and attribute groups.
///
/// # Errors
///
/// `AllocError` is want of memory, here and below.
pub(crate) fn add_attribute_parts(
    alloc: Global,
    parts: &mut Components,
    source: &Source,
    types: &[TypeId],
) -> Result<AttributeNumbers, AllocError>
    requires none { parts.old.attr_groups ≡ no_parts }
    ensures numbers { IfOk result (λ numbers. numbers ≡ spec.attribute_numbers source.now types.now parts.old) }
    ensures parts { OnOk result (parts.new ≡ spec.with_attributes source.now types.now parts.old) }
{
    let attributes = add_attributes(alloc, parts, source, types)?;
    let groups = number_attr_groups(alloc, parts, source.reps)?;
    build_attr_groups(
        alloc,
        parts,
        source,
        attributes.as_slice(),
        groups.as_slice(),
    )?;
    Ok(AttributeNumbers { attributes, groups })
}

/// Adds the identity constraints, elements, groups and particles, and answers the numbers of the particles by place.
pub(crate) fn add_element_parts(
    alloc: Global,
    parts: &mut Components,
    source: &Source,
    types: &[TypeId],
) -> Result<Listed<Option<ParticleId>>, AllocError>
    ensures numbers { IfOk result (λ ids. ids ≡ spec.known_particles source.now types.now parts.old) }
    ensures parts { OnOk result (parts.new ≡ spec.with_elements source.now types.now parts.old) }
{
    let constraints = add_constraints(alloc, parts, source)?;
    let elements = build_elements(alloc, parts, source, types, &constraints)?;
    let particles = build_particles(alloc, parts, source, elements.as_slice())?;
    Ok(particles)
}

/// Builds the types, each in the place of its number.
pub(crate) fn fill_types(
    alloc: Global,
    parts: &mut Components,
    source: &Source,
    numbers: &ComplexNumbers,
) -> Result<(), AllocError>
    requires simples { length parts.old.simples.parts ≡ length (simple_types source.now numbers.now.types.now) }
    requires complexes { length parts.old.complexes.parts ≡ length (complex_types source.now numbers.now.types.now numbers.now.attributes.now numbers.now.groups.now numbers.now.particles.now) }
    ensures types { OnOk result (parts.new ≡ spec.with_types source.now numbers.now.types.now numbers.now.attributes.now numbers.now.groups.now numbers.now.particles.now parts.old) }
{
    build_simples(alloc, parts, source, numbers.types)?;
    build_complexes(alloc, parts, source, numbers)
}
