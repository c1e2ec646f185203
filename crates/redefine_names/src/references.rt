ghost use Rattle.std.specs.Prelude.{◌≡◌, map, IfOk};
ghost use Rattle.std.specs.Option.{option_map};
ghost use Rattle.representations.specs.declared.parts.Represented.TheVariants as forms;
ghost use Rattle.redefine_names.specs.Redirections as spec;

use crate::declared::VersionKind;
use crate::redirections::Redirection;
use representations::{AttributeRepresentation, ElementRepresentation, Represented, TypeName};
use std::alloc::{AllocError, Global};
use xs_lists::Listed;
use xs_names::NameId;

// Whether two kinds are the same.
fn is_same(one: VersionKind, other: VersionKind) -> bool
    ensures { result ≡ spec.same_kind one other }
{
    match one {
        VersionKind::Type => match other {
            VersionKind::Type => true,
            _ => false,
        },
        VersionKind::Group => match other {
            VersionKind::Group => true,
            _ => false,
        },
        VersionKind::AttributeGroup => match other {
            VersionKind::AttributeGroup => true,
            _ => false,
        },
    }
}

// What a reference of a kind to a name becomes.
fn meant(by: &Redirection, kind: VersionKind, name: NameId) -> NameId
    ensures { result ≡ spec.meant by.now kind name }
{
    if is_same(kind, by.kind) && by.from == name {
        by.to
    } else {
        name
    }
}

// What a reference to a type becomes.
fn meant_type(by: &Redirection, of: TypeName) -> TypeName
    ensures { result ≡ spec.meant_type by.now of }
{
    match of {
        TypeName::Named(name) => TypeName::Named(meant(by, VersionKind::Type, name)),
        _ => of,
    }
}

// The same where there may be none.
fn meant_if(by: &Redirection, kind: VersionKind, to: Option<NameId>) -> Option<NameId>
    ensures { result ≡ option_map (spec.meant by.now kind) to }
{
    match to {
        None => None,
        Some(name) => Some(meant(by, kind, name)),
    }
}

fn meant_type_if(by: &Redirection, of: Option<TypeName>) -> Option<TypeName>
    ensures { result ≡ option_map (spec.meant_type by.now) of }
{
    match of {
        None => None,
        Some(of) => Some(meant_type(by, of)),
    }
}

// The same of all members of a union.
fn meant_types(
    alloc: Global,
    by: &Redirection,
    members: &[TypeName],
) -> Result<Listed<TypeName>, AllocError>
    ensures { IfOk result (λ made. made ≡ map (spec.meant_type by.now) members.now) }
{
    let mut made = Listed::new(alloc);
    for member in members {
        made.push(meant_type(by, *member))?;
    }
    Ok(made)
}

fn redirect_union(
    alloc: Global,
    by: &Redirection,
    members: &[TypeName],
) -> Result<Represented, AllocError>
    ensures { IfOk result (λ made. made ≡ spec.redirected_by by.now (forms.Union members.now)) }
{
    Ok(Represented::Union {
        members: meant_types(alloc, by, members)?,
    })
}

fn redirect_element(by: &Redirection, mut element: ElementRepresentation) -> Represented
    ensures { result ≡ spec.redirected_by by.now (forms.Element element) }
{
    element.of = meant_type_if(by, element.of);
    Represented::Element(element)
}

fn redirect_attribute(by: &Redirection, mut attribute: AttributeRepresentation) -> Represented
    ensures { result ≡ spec.redirected_by by.now (forms.Attribute attribute) }
{
    attribute.of = meant_type_if(by, attribute.of);
    Represented::Attribute(attribute)
}

// A form with its references redirected.
fn redirect(alloc: Global, by: &Redirection, form: Represented) -> Result<Represented, AllocError>
    ensures { IfOk result (λ made. made ≡ spec.redirected_by by.now form) }
{
    match form {
        Represented::Element(element) => Ok(redirect_element(by, element)),
        Represented::Attribute(attribute) => Ok(redirect_attribute(by, attribute)),
        Represented::Restriction { base } => Ok(Represented::Restriction {
            base: meant_type_if(by, base),
        }),
        Represented::ItemType { of } => Ok(Represented::ItemType {
            of: meant_type_if(by, of),
        }),
        Represented::Union { members } => redirect_union(alloc, by, members.as_slice()),
        Represented::Derivation { by_extension, base } => Ok(Represented::Derivation {
            by_extension,
            base: meant_type_if(by, base),
        }),
        Represented::GroupReference { to } => Ok(Represented::GroupReference {
            to: meant_if(by, VersionKind::Group, to),
        }),
        Represented::AttributeGroupReference { to } => Ok(Represented::AttributeGroupReference {
            to: meant_if(by, VersionKind::AttributeGroup, to),
        }),
        _ => Ok(form),
    }
}

/// A form with its references redirected, where there is a redirection.
pub(crate) fn redirected(
    alloc: Global,
    by: Option<Redirection>,
    form: Represented,
) -> Result<Represented, AllocError>
    ensures { IfOk result (λ made. made ≡ spec.redirected by form) }
{
    match by {
        None => Ok(form),
        Some(by) => redirect(alloc, &by, form),
    }
}
