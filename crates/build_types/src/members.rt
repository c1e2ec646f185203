ghost use Rattle.std.specs.Prelude.{◌≡◌, ◌++◌, IfOk, OnOk};
ghost use Rattle.build_types.specs.Members as spec;

use crate::rep_at;
use crate::values::{copied_wildcard, value_constraint};
use representations::{AttributeRepresentation, Representation, Represented, Source};
use set_representations::{number_at, number_named};
use std::alloc::{AllocError, Global};
use xs_components::{
    AttrGroupId, AttrGroupIdList, AttrUse, AttrUseList, AttributeId, NameIdList, Wildcard,
};
use xs_lists::Listed;
use xs_names::NameId;

/// The attributes that stand in a complex type or an attribute group (Structures 3.4.2, 3.6.2).
#[derive(Drop)]
pub struct AttributeParts {
    pub uses: AttrUseList,
    /// The attribute groups that are referred to.
    pub groups: AttrGroupIdList,
    /// The names of attributes that are prohibited.
    pub prohibited: NameIdList,
    /// The wildcard that stands there itself.
    pub wildcard: Option<Wildcard>,
}

// The declaration that an attribute refers to, or that it is.
fn meant_declaration(
    source: &Source,
    attributes: &[Option<AttributeId>],
    reference: Option<NameId>,
    place: u32,
) -> Option<AttributeId>
    ensures { result ≡ spec.meant_declaration source.now attributes.now reference place }
{
    match reference {
        Some(name) => number_named(attributes, &source.spaces.attributes, name),
        None => number_at(attributes, place as usize),
    }
}

// Puts the use that an attribute is, if it is one, behind the others.
fn push_use(
    alloc: Global,
    source: &Source,
    attributes: &[Option<AttributeId>],
    place: u32,
    rep: &Representation,
    attribute: &AttributeRepresentation,
    uses: &mut AttrUseList,
) -> Result<(), AllocError>
    ensures { OnOk result (uses.new ≡ uses.old ++ spec.used source.now attributes.now attribute.now rep.now place) }
{
    if attribute.prohibited {
        return Ok(());
    }
    match meant_declaration(source, attributes, attribute.reference, place) {
        None => Ok(()),
        Some(declared) => uses.push(AttrUse {
            attribute: declared,
            at: rep.at,
            required: attribute.required,
            value: value_constraint(alloc, source, rep.scope, &attribute.value)?,
        }),
    }
}

// Puts the use at a place, if one stands there, behind the others.
fn push_use_at(
    alloc: Global,
    source: &Source,
    attributes: &[Option<AttributeId>],
    place: u32,
    uses: &mut AttrUseList,
) -> Result<(), AllocError>
    ensures { OnOk result (uses.new ≡ uses.old ++ spec.uses_at source.now attributes.now place) }
{
    match rep_at(source.reps, place) {
        None => Ok(()),
        Some(rep) => match &rep.form {
            Represented::Attribute(attribute) => {
                push_use(alloc, source, attributes, place, rep, attribute, uses)
            }
            _ => Ok(()),
        },
    }
}

// The attribute uses among members, in order.
fn uses(
    alloc: Global,
    source: &Source,
    attributes: &[Option<AttributeId>],
    members: &[u32],
) -> Result<AttrUseList, AllocError>
    ensures { IfOk result (λ list. list ≡ spec.uses source.now attributes.now members.now) }
{
    let mut list = Listed::new(alloc);
    for member in members {
        push_use_at(alloc, source, attributes, *member, &mut list)?;
    }
    Ok(list)
}

// The attribute group that is referred to at a place, if there is one.
fn group_at(source: &Source, groups: &[Option<AttrGroupId>], place: u32) -> Option<AttrGroupId>
    ensures { result ≡ spec.group_at source.now groups.now place }
{
    match &rep_at(source.reps, place)?.form {
        Represented::AttributeGroupReference { to } => {
            number_named(groups, &source.spaces.attr_groups, (*to)?)
        }
        _ => None,
    }
}

// The attribute groups that members refer to, in order.
fn groups_referred(
    alloc: Global,
    source: &Source,
    groups: &[Option<AttrGroupId>],
    members: &[u32],
) -> Result<AttrGroupIdList, AllocError>
    ensures { IfOk result (λ list. list ≡ spec.groups_referred source.now groups.now members.now) }
{
    let mut list = Listed::new(alloc);
    for member in members {
        if let Some(group) = group_at(source, groups, *member) {
            list.push(group)?;
        }
    }
    Ok(list)
}

// The name of the attribute that is prohibited at a place, if there is one.
fn prohibited_at(source: &Source, place: u32) -> Option<NameId>
    ensures { result ≡ spec.prohibited_at source.now place }
{
    match &rep_at(source.reps, place)?.form {
        Represented::Attribute(attribute) => if attribute.prohibited {
            attribute.reference.or(attribute.name)
        } else {
            None
        },
        _ => None,
    }
}

// The names of the attributes that are prohibited among members, in order.
fn prohibited(alloc: Global, source: &Source, members: &[u32]) -> Result<NameIdList, AllocError>
    ensures { IfOk result (λ list. list ≡ spec.prohibited source.now members.now) }
{
    let mut list = Listed::new(alloc);
    for member in members {
        if let Some(name) = prohibited_at(source, *member) {
            list.push(name)?;
        }
    }
    Ok(list)
}

// The wildcard at a place, a copy, if one stands there.
fn wildcard_at(source: &Source, place: u32) -> Result<Option<Wildcard>, AllocError>
    ensures { IfOk result (λ found. found ≡ spec.wildcard_at source.now place) }
{
    match rep_at(source.reps, place) {
        None => Ok(None),
        Some(rep) => match &rep.form {
            Represented::AnyAttribute(wildcard) => Ok(Some(copied_wildcard(wildcard)?)),
            _ => Ok(None),
        },
    }
}

// The first wildcard among members.
fn wildcard(source: &Source, members: &[u32]) -> Result<Option<Wildcard>, AllocError>
    ensures { IfOk result (λ found. found ≡ spec.wildcard source.now members.now) }
{
    for member in members {
        let found = wildcard_at(source, *member)?;
        if found.is_some() {
            return Ok(found);
        }
    }
    Ok(None)
}

/// The attributes among members, where declarations and attribute groups have these numbers by place.
///
/// # Errors
///
/// `AllocError` is want of memory.
pub fn attribute_parts(
    alloc: Global,
    source: &Source,
    attributes: &[Option<AttributeId>],
    groups: &[Option<AttrGroupId>],
    members: &[u32],
) -> Result<AttributeParts, AllocError>
    ensures parts { IfOk result (λ parts. parts ≡ spec.attribute_parts source.now attributes.now groups.now members.now) }
{
    Ok(AttributeParts {
        uses: uses(alloc, source, attributes, members)?,
        groups: groups_referred(alloc, source, groups, members)?,
        prohibited: prohibited(alloc, source, members)?,
        wildcard: wildcard(source, members)?,
    })
}
