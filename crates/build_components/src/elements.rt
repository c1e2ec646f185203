ghost use Rattle.std.specs.Prelude.{◌≡◌, None, length, IfOk, OnOk};
ghost use Rattle.std.specs.List.{flat_map};
ghost use Rattle.set_representations.specs.Numbers.{number_of, numbers_of, with_parts};
ghost use Rattle.build_components.specs.Elements as spec;

use crate::constraints::ConstraintNumbers;
use crate::heads::set_heads;
use build_types::{given_type, value_constraint};
use representations::{ElementRepresentation, Representation, Represented, Source};
use set_representations::number_at;
use std::alloc::{AllocError, Global};
use xs_components::{Components, ConstraintId, ConstraintIdList, ElementDecl, ElementId, TypeId};
use xs_lists::Listed;
use xs_names::NameId;

// The identity constraint that stands at a place, if one does.
fn constraint_at(constraints: &ConstraintNumbers, place: u32) -> Option<ConstraintId>
    ensures { result ≡ spec.constraint_at constraints.now place }
{
    let key = number_at(constraints.keys.as_slice(), place as usize);
    key.or(number_at(constraints.keyrefs.as_slice(), place as usize))
}

// The identity constraints among members, in order.
fn constraints_in(
    alloc: Global,
    constraints: &ConstraintNumbers,
    members: &[u32],
) -> Result<ConstraintIdList, AllocError>
    ensures { IfOk result (λ list. list ≡ spec.constraints_in constraints.now members.now) }
{
    let mut list = Listed::new(alloc);
    for member in members {
        if let Some(constraint) = constraint_at(constraints, *member) {
            list.push(constraint)?;
        }
    }
    Ok(list)
}

// A declaration of an element, without its head.
fn declaration(
    alloc: Global,
    source: &Source,
    types: &[TypeId],
    constraints: &ConstraintNumbers,
    rep: &Representation,
    element: &ElementRepresentation,
    name: NameId,
) -> Result<ElementDecl, AllocError>
    ensures { IfOk result (λ part. part ≡ spec.declaration source.now types.now constraints.now element.now rep.now name None) }
{
    let members = rep.members.as_slice();
    Ok(ElementDecl {
        name,
        at: rep.at,
        global: element.global,
        of: given_type(source, types, element.of, members),
        head: None,
        value: value_constraint(alloc, source, rep.scope, &element.value)?,
        nillable: element.nillable,
        is_abstract: element.is_abstract,
        finals: element.finals,
        blocks: element.blocks,
        constraints: constraints_in(alloc, constraints, members)?,
    })
}

// Adds the element that is declared, if one is.
fn add_element(
    alloc: Global,
    parts: &mut Components,
    source: &Source,
    types: &[TypeId],
    constraints: &ConstraintNumbers,
    rep: &Representation,
) -> Result<Option<ElementId>, AllocError>
    ensures number { IfOk result (λ id. id ≡ number_of (spec.headless source.now types.now constraints.now rep.now) (length parts.old.elements.parts)) }
    ensures parts { OnOk result (parts.new ≡ record parts.old { elements = with_parts parts.old.elements (spec.headless source.now types.now constraints.now rep.now) }) }
{
    match &rep.form {
        Represented::Element(element) => match element.name {
            None => Ok(None),
            Some(name) => {
                let part = declaration(alloc, source, types, constraints, rep, element, name)?;
                Ok(Some(parts.add_element(part)?))
            }
        },
        _ => Ok(None),
    }
}

// Adds all elements without their heads, in the order of their representations.
fn add_elements(
    alloc: Global,
    parts: &mut Components,
    source: &Source,
    types: &[TypeId],
    constraints: &ConstraintNumbers,
) -> Result<Listed<Option<ElementId>>, AllocError>
    ensures numbers { IfOk result (λ ids. ids ≡ spec.element_numbers source.now types.now constraints.now (length parts.old.elements.parts)) }
    ensures parts { OnOk result (parts.new ≡ record parts.old { elements = with_parts parts.old.elements (flat_map (spec.headless source.now types.now constraints.now) source.now.reps.now) }) }
{
    let mut ids = Listed::new(alloc);
    for rep in source.reps {
        ids.push(add_element(alloc, parts, source, types, constraints, rep)?)?;
    }
    Ok(ids)
}

/// Builds the element declarations, in the order of their representations, and answers their numbers by place. Their heads are
/// written when all have numbers, since elements can name each other in a circle.
///
/// # Errors
///
/// `AllocError` is want of memory.
pub fn build_elements(
    alloc: Global,
    parts: &mut Components,
    source: &Source,
    types: &[TypeId],
    constraints: &ConstraintNumbers,
) -> Result<Listed<Option<ElementId>>, AllocError>
    ensures numbers { IfOk result (λ ids. ids ≡ spec.element_numbers source.now types.now constraints.now (length parts.old.elements.parts)) }
    ensures parts { OnOk result (parts.new ≡ record parts.old { elements = with_parts parts.old.elements (spec.elements source.now types.now constraints.now (length parts.old.elements.parts)) }) }
{
    let ids = add_elements(alloc, parts, source, types, constraints)?;
    set_heads(parts, source, ids.as_slice());
    Ok(ids)
}
