ghost use Rattle.std.specs.Prelude.{◌≡◌, ◌+◌, ◌∷◌, [], length, IfOk, OnOk};
ghost use Rattle.std.specs.List.{flat_map};
ghost use Rattle.set_representations.specs.Numbers.{number_of, numbers_of, with_parts};
ghost use Rattle.build_types.specs.Declarations as spec;

use crate::given_type;
use crate::values::value_constraint;
use representations::{AttributeRepresentation, Representation, Represented, Source};
use std::alloc::{AllocError, Global};
use xs_codes::Builtin;
use xs_components::{AttributeDecl, AttributeId, Components, TypeId};
use xs_lists::Listed;
use xs_names::NameId;

// A declaration of an attribute.
fn declaration(
    alloc: Global,
    source: &Source,
    types: &[TypeId],
    rep: &Representation,
    attribute: &AttributeRepresentation,
    name: NameId,
) -> Result<AttributeDecl, AllocError>
    ensures { IfOk result (λ part. part ≡ spec.declaration source.now types.now attribute.now rep.now name) }
{
    let given = given_type(source, types, attribute.of, rep.members.as_slice());
    let value = if attribute.global {
        value_constraint(alloc, source, rep.scope, &attribute.value)?
    } else {
        None
    };
    Ok(AttributeDecl {
        name,
        at: rep.at,
        global: attribute.global,
        of: given.unwrap_or(TypeId::Builtin(Builtin::AnySimpleType)),
        value,
    })
}

// Adds the declaration that an attribute is, if it is one.
fn add_declared(
    alloc: Global,
    parts: &mut Components,
    source: &Source,
    types: &[TypeId],
    rep: &Representation,
    attribute: &AttributeRepresentation,
) -> Result<Option<AttributeId>, AllocError>
    ensures number { IfOk result (λ id. id ≡ number_of (spec.declared source.now types.now attribute.now rep.now attribute.now.name) (length parts.old.attributes.parts)) }
    ensures parts { OnOk result (parts.new ≡ record parts.old { attributes = with_parts parts.old.attributes (spec.declared source.now types.now attribute.now rep.now attribute.now.name) }) }
{
    let Some(name) = attribute.name else {
        return Ok(None);
    };
    if attribute.prohibited {
        return Ok(None);
    }
    let part = declaration(alloc, source, types, rep, attribute, name)?;
    Ok(Some(parts.add_attribute(part)?))
}

// Adds the attribute declaration that is represented, if one is.
fn add_represented(
    alloc: Global,
    parts: &mut Components,
    source: &Source,
    types: &[TypeId],
    rep: &Representation,
) -> Result<Option<AttributeId>, AllocError>
    ensures number { IfOk result (λ id. id ≡ number_of (spec.attributes_of source.now types.now rep.now) (length parts.old.attributes.parts)) }
    ensures parts { OnOk result (parts.new ≡ record parts.old { attributes = with_parts parts.old.attributes (spec.attributes_of source.now types.now rep.now) }) }
{
    match &rep.form {
        Represented::Attribute(attribute) => {
            add_declared(alloc, parts, source, types, rep, attribute)
        }
        _ => Ok(None),
    }
}

/// Adds the attribute declarations, in the order of their representations, and answers their numbers by place.
///
/// # Errors
///
/// `AllocError` is want of memory.
pub fn add_attributes(
    alloc: Global,
    parts: &mut Components,
    source: &Source,
    types: &[TypeId],
) -> Result<Listed<Option<AttributeId>>, AllocError>
    ensures numbers { IfOk result (λ ids. ids ≡ numbers_of (spec.attributes_of source.now types.now) (length parts.old.attributes.parts) source.now.reps.now) }
    ensures parts { OnOk result (parts.new ≡ record parts.old { attributes = with_parts parts.old.attributes (flat_map (spec.attributes_of source.now types.now) source.now.reps.now) }) }
{
    let mut ids = Listed::new(alloc);
    for rep in source.reps {
        ids.push(add_represented(alloc, parts, source, types, rep)?)?;
    }
    Ok(ids)
}
