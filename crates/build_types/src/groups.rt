ghost use Rattle.std.specs.Prelude.{◌≡◌, ◌++◌, length, IfOk, OnOk};
ghost use Rattle.std.specs.List.{flat_map};
ghost use Rattle.set_representations.specs.Numbers.{number_of, numbers_of, with_parts};
ghost use Rattle.build_types.specs.Groups as spec;

use crate::attribute_putting::put_attr_groups;
use crate::members::attribute_parts;
use representations::{Representation, Represented, Source};
use std::alloc::{AllocError, Global};
use xs_components::{AttrGroupDef, AttrGroupId, AttributeId, Components, Place};
use xs_lists::Listed;
use xs_names::NameId;

// What stands in the place of an attribute group until it is built.
fn empty_group(alloc: Global, name: NameId, at: Place) -> AttrGroupDef
    ensures { result ≡ spec.empty_group name at }
{
    AttrGroupDef {
        name,
        at,
        uses: Listed::new(alloc),
        groups: Listed::new(alloc),
        prohibited: Listed::new(alloc),
        wildcard: None,
    }
}

// Gives an attribute group its number.
fn number_group(
    alloc: Global,
    parts: &mut Components,
    rep: &Representation,
) -> Result<Option<AttrGroupId>, AllocError>
    ensures number { IfOk result (λ id. id ≡ number_of (spec.empty_groups rep.now) (length parts.old.attr_groups.parts)) }
    ensures parts { OnOk result (parts.new ≡ record parts.old { attr_groups = with_parts parts.old.attr_groups (spec.empty_groups rep.now) }) }
{
    match &rep.form {
        Represented::AttributeGroup { name } => {
            Ok(Some(parts.add_attr_group(empty_group(alloc, *name, rep.at))?))
        }
        _ => Ok(None),
    }
}

/// Gives all attribute groups their numbers, in the order of their representations, and answers these by place. The groups are
/// empty until `build_attr_groups` builds them, since they can name each other in a circle.
///
/// # Errors
///
/// `AllocError` is want of memory, here and below.
pub fn number_attr_groups(
    alloc: Global,
    parts: &mut Components,
    reps: &[Representation],
) -> Result<Listed<Option<AttrGroupId>>, AllocError>
    ensures numbers { IfOk result (λ ids. ids ≡ numbers_of spec.empty_groups (length parts.old.attr_groups.parts) reps.now) }
    ensures parts { OnOk result (parts.new ≡ record parts.old { attr_groups = with_parts parts.old.attr_groups (flat_map spec.empty_groups reps.now) }) }
{
    let mut ids = Listed::new(alloc);
    for rep in reps {
        ids.push(number_group(alloc, parts, rep)?)?;
    }
    Ok(ids)
}

// Puts the attribute group that is represented, if one is, behind the others.
fn push_group(
    alloc: Global,
    source: &Source,
    attributes: &[Option<AttributeId>],
    groups: &[Option<AttrGroupId>],
    rep: &Representation,
    bodies: &mut Vec<AttrGroupDef>,
) -> Result<(), AllocError>
    ensures { OnOk result (bodies.new.items ≡ bodies.old.items ++ spec.attr_groups_of source.now attributes.now groups.now rep.now) }
{
    match &rep.form {
        Represented::AttributeGroup { name } => {
            let held = attribute_parts(alloc, source, attributes, groups, rep.members.as_slice())?;
            bodies.push(AttrGroupDef {
                name: *name,
                at: rep.at,
                uses: held.uses,
                groups: held.groups,
                prohibited: held.prohibited,
                wildcard: held.wildcard,
            })?;
            Ok(())
        }
        _ => Ok(()),
    }
}

// All attribute groups, in the order of their representations.
fn attr_groups(
    alloc: Global,
    source: &Source,
    attributes: &[Option<AttributeId>],
    groups: &[Option<AttrGroupId>],
) -> Result<Vec<AttrGroupDef>, AllocError>
    ensures { IfOk result (λ bodies. bodies.items ≡ spec.attr_groups source.now attributes.now groups.now) }
{
    let mut bodies = Vec::new(alloc);
    for rep in source.reps {
        push_group(alloc, source, attributes, groups, rep, &mut bodies)?;
    }
    Ok(bodies)
}

/// Builds the attribute groups, each in the place of its number.
pub fn build_attr_groups(
    alloc: Global,
    parts: &mut Components,
    source: &Source,
    attributes: &[Option<AttributeId>],
    groups: &[Option<AttrGroupId>],
) -> Result<(), AllocError>
    requires numbered { length parts.old.attr_groups.parts ≡ length (spec.attr_groups source.now attributes.now groups.now) }
    ensures groups { OnOk result (parts.new ≡ record parts.old { attr_groups = record parts.old.attr_groups { parts = spec.attr_groups source.now attributes.now groups.now } }) }
{
    put_attr_groups(parts, attr_groups(alloc, source, attributes, groups)?);
    Ok(())
}
