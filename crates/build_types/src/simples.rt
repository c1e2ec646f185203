ghost use Rattle.std.specs.Prelude.{◌≡◌, ◌++◌, length, IfOk, OnOk};
ghost use Rattle.std.specs.Option.{option_copied};
ghost use Rattle.build_types.specs.SimpleTypes as spec;

use crate::facet_steps::facets;
use crate::putting::put_simples;
use crate::types::{given_type, meant_type, type_at};
use representations::{Representation, Represented, Source, TypeName, is_type_at};
use std::alloc::{AllocError, Global};
use xs_components::{Components, SimpleForm, SimpleType, TypeId, TypeIdList};
use xs_lists::Listed;

/// The first member.
pub fn first_member<'a>(reps: &'a [Representation], members: &[u32]) -> Option<&'a Representation>
    ensures member { option_copied result ≡ spec.first_member reps.now members.now }
{
    match members.first() {
        None => None,
        Some(place) => reps.get(*place as usize),
    }
}

// The types that names mean, in order.
fn named_types(
    alloc: Global,
    source: &Source,
    types: &[TypeId],
    names: &[TypeName],
) -> Result<TypeIdList, AllocError>
    ensures { IfOk result (λ list. list ≡ spec.named_types source.now types.now names.now) }
{
    let mut list = Listed::new(alloc);
    for name in names {
        list.push(meant_type(source, types, *name))?;
    }
    Ok(list)
}

// Puts the types among members behind others, in order.
fn push_children(
    source: &Source,
    types: &[TypeId],
    members: &[u32],
    list: &mut TypeIdList,
) -> Result<(), AllocError>
    ensures { OnOk result (list.new ≡ list.old ++ spec.child_types source.now types.now members.now) }
{
    for member in members {
        if is_type_at(source.reps, *member) {
            list.push(type_at(types, *member))?;
        }
    }
    Ok(())
}

// A restriction of a type.
fn restriction(
    alloc: Global,
    source: &Source,
    types: &[TypeId],
    base: Option<TypeName>,
    members: &[u32],
) -> Result<SimpleForm, AllocError>
    ensures { IfOk result (λ form. form ≡ spec.restriction source.now types.now base members.now) }
{
    Ok(SimpleForm::Restrict {
        base: given_type(source, types, base, members).unwrap_or(TypeId::AnyType),
        step: facets(alloc, source, members)?,
    })
}

// How a simple type is made, by what stands in it.
fn form_of(
    alloc: Global,
    source: &Source,
    types: &[TypeId],
    rep: &Representation,
) -> Result<SimpleForm, AllocError>
    ensures { IfOk result (λ form. form ≡ spec.form_of source.now types.now rep.now) }
{
    let members = rep.members.as_slice();
    match &rep.form {
        Represented::Restriction { base } => restriction(alloc, source, types, *base, members),
        Represented::ItemType { of } => Ok(SimpleForm::ListOf {
            item: given_type(source, types, *of, members).unwrap_or(TypeId::AnyType),
        }),
        Represented::Union { members: names } => {
            let mut list = named_types(alloc, source, types, names.as_slice())?;
            push_children(source, types, members, &mut list)?;
            Ok(SimpleForm::UnionOf { members: list })
        }
        _ => restriction(alloc, source, types, None, &[]),
    }
}

// How a simple type is made with these members.
fn simple_form(
    alloc: Global,
    source: &Source,
    types: &[TypeId],
    members: &[u32],
) -> Result<SimpleForm, AllocError>
    ensures { IfOk result (λ form. form ≡ spec.simple_form source.now types.now members.now) }
{
    match first_member(source.reps, members) {
        None => restriction(alloc, source, types, None, &[]),
        Some(rep) => form_of(alloc, source, types, rep),
    }
}

// Puts the simple type that is represented, if one is, behind the others.
fn push_simple(
    alloc: Global,
    source: &Source,
    types: &[TypeId],
    rep: &Representation,
    bodies: &mut Vec<SimpleType>,
) -> Result<(), AllocError>
    ensures { OnOk result (bodies.new.items ≡ bodies.old.items ++ spec.simples_of source.now types.now rep.now) }
{
    match &rep.form {
        Represented::SimpleType { name, finals } => {
            let form = simple_form(alloc, source, types, rep.members.as_slice())?;
            bodies.push(SimpleType {
                name: *name,
                at: rep.at,
                finals: *finals,
                form,
            })?;
            Ok(())
        }
        _ => Ok(()),
    }
}

// All simple types, in the order of their representations.
fn simple_types(
    alloc: Global,
    source: &Source,
    types: &[TypeId],
) -> Result<Vec<SimpleType>, AllocError>
    ensures { IfOk result (λ bodies. bodies.items ≡ spec.simple_types source.now types.now) }
{
    let mut bodies = Vec::new(alloc);
    for rep in source.reps {
        push_simple(alloc, source, types, rep, &mut bodies)?;
    }
    Ok(bodies)
}

/// Builds the simple types, each in the place of its number.
pub fn build_simples(
    alloc: Global,
    parts: &mut Components,
    source: &Source,
    types: &[TypeId],
) -> Result<(), AllocError>
    requires numbered { length parts.old.simples.parts ≡ length (spec.simple_types source.now types.now) }
    ensures simples { OnOk result (parts.new ≡ record parts.old { simples = record parts.old.simples { parts = spec.simple_types source.now types.now } }) }
{
    put_simples(parts, simple_types(alloc, source, types)?);
    Ok(())
}
