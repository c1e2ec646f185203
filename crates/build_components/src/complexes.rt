ghost use Rattle.std.specs.Prelude.{◌≡◌, ◌++◌, length, IfOk, OnOk};
ghost use Rattle.build_components.specs.Complexes as spec;

use crate::putting::put_complexes;
use crate::{effective_content, has_simple_content, holder, is_mixed};
use build_types::{attribute_parts, child_type, facets, meant_type};
use representations::{ComplexTypeRepresentation, Representation, Represented, Source};
use std::alloc::{AllocError, Global};
use xs_components::{
    AttrGroupId, AttributeId, ComplexType, Components, ContentForm, ParticleId, TypeId,
};

/// The numbers by which complex types are built, by place.
#[derive(Clone, Copy)]
pub struct ComplexNumbers<'a> {
    pub types: &'a [TypeId],
    pub attributes: &'a [Option<AttributeId>],
    /// Of attribute groups.
    pub groups: &'a [Option<AttrGroupId>],
    pub particles: &'a [Option<ParticleId>],
}

// The base of what a particle and attributes stand in.
fn base_of(source: &Source, types: &[TypeId], form: &Represented) -> TypeId
    ensures { result ≡ spec.base_by source.now types.now form.now }
{
    match form {
        Represented::Derivation { base, .. } => match base {
            None => TypeId::AnyType,
            Some(base) => meant_type(source, types, *base),
        },
        _ => TypeId::AnyType,
    }
}

// Whether it is an extension.
fn is_extension(form: &Represented) -> bool
    ensures { result ≡ spec.is_extension form.now }
{
    match form {
        Represented::Derivation { by_extension, .. } => *by_extension,
        _ => false,
    }
}

// The content of the complex type at a place.
fn content(
    alloc: Global,
    source: &Source,
    numbers: &ComplexNumbers,
    place: usize,
    head: &ComplexTypeRepresentation,
    rep: &Representation,
) -> Result<ContentForm, AllocError>
    ensures { IfOk result (λ content. content ≡ spec.content source.now numbers.now.types.now numbers.now.attributes.now numbers.now.groups.now numbers.now.particles.now place head.now rep.now) }
{
    let members = rep.members.as_slice();
    if has_simple_content(source.reps, members) {
        let held = holder(source.reps, rep).members.as_slice();
        return Ok(ContentForm::Simple {
            own: child_type(source, numbers.types, held),
            step: facets(alloc, source, held)?,
        });
    }
    Ok(ContentForm::Complex {
        effective: effective_content(source.reps, numbers.particles, place, rep),
        mixed: is_mixed(source.reps, head.mixed, members),
    })
}

// The complex type at a place, whose particle and attributes stand here.
fn complex_type(
    alloc: Global,
    source: &Source,
    numbers: &ComplexNumbers,
    place: usize,
    head: &ComplexTypeRepresentation,
    rep: &Representation,
    held: &Representation,
) -> Result<ComplexType, AllocError>
    ensures { IfOk result (λ part. part ≡ spec.complex_type source.now numbers.now.types.now numbers.now.attributes.now numbers.now.groups.now numbers.now.particles.now place head.now rep.now held.now) }
{
    let content = content(alloc, source, numbers, place, head, rep)?;
    let members = held.members.as_slice();
    let attributes = attribute_parts(alloc, source, numbers.attributes, numbers.groups, members)?;
    Ok(ComplexType {
        name: head.name,
        at: rep.at,
        base: base_of(source, numbers.types, &held.form),
        by_extension: is_extension(&held.form),
        is_abstract: head.is_abstract,
        finals: head.finals,
        blocks: head.blocks,
        content,
        uses: attributes.uses,
        groups: attributes.groups,
        prohibited: attributes.prohibited,
        wildcard: attributes.wildcard,
    })
}

// Puts the complex type that is represented at a place, if one is, behind the others.
fn push_complex(
    alloc: Global,
    source: &Source,
    numbers: &ComplexNumbers,
    place: usize,
    rep: &Representation,
    bodies: &mut Vec<ComplexType>,
) -> Result<(), AllocError>
    ensures { OnOk result (bodies.new.items ≡ bodies.old.items ++ spec.complexes_by source.now numbers.now.types.now numbers.now.attributes.now numbers.now.groups.now numbers.now.particles.now rep.now.form place rep.now) }
{
    match &rep.form {
        Represented::ComplexType(head) => {
            let held = holder(source.reps, rep);
            bodies.push(complex_type(alloc, source, numbers, place, head, rep, held)?)?;
            Ok(())
        }
        _ => Ok(()),
    }
}

// All complex types, in the order of their representations.
fn complex_types(
    alloc: Global,
    source: &Source,
    numbers: &ComplexNumbers,
) -> Result<Vec<ComplexType>, AllocError>
    ensures { IfOk result (λ bodies. bodies.items ≡ spec.complex_types source.now numbers.now.types.now numbers.now.attributes.now numbers.now.groups.now numbers.now.particles.now) }
{
    let mut bodies = Vec::new(alloc);
    for (place, rep) in source.reps.iter().enumerate() {
        push_complex(alloc, source, numbers, place, rep, &mut bodies)?;
    }
    Ok(bodies)
}

/// Builds the complex types, each in the place of its number.
///
/// # Errors
///
/// `AllocError` is want of memory.
pub fn build_complexes(
    alloc: Global,
    parts: &mut Components,
    source: &Source,
    numbers: &ComplexNumbers,
) -> Result<(), AllocError>
    requires numbered { length parts.old.complexes.parts ≡ length (spec.complex_types source.now numbers.now.types.now numbers.now.attributes.now numbers.now.groups.now numbers.now.particles.now) }
    ensures complexes { OnOk result (parts.new ≡ record parts.old { complexes = record parts.old.complexes { parts = spec.complex_types source.now numbers.now.types.now numbers.now.attributes.now numbers.now.groups.now numbers.now.particles.now } }) }
{
    put_complexes(parts, complex_types(alloc, source, numbers)?);
    Ok(())
}
