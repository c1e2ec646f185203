ghost use Rattle.std.specs.Prelude.{◌≡◌, ◌++◌, IfOk, OnOk};
ghost use Rattle.std.specs.List.{flat_map};
ghost use Rattle.reference_faults.specs.References as spec;
ghost use Rattle.reference_faults.specs.declared.reference.Reference.TheVariants.{ToElement, ToType, ToGroup, ToAttributeGroup, ToKey};

use representations::{AttributeRepresentation, ElementRepresentation, Represented, TypeName};
use std::alloc::{AllocError, Global};
use xs_names::NameId;

/// A reference to a component, by the kind that is needed.
#[derive(Clone, Copy)]
pub(crate) enum Reference {
    ToElement(NameId),
    ToAttribute(NameId),
    ToType(NameId),
    ToSimpleType(NameId),
    /// To anyType, where a simple type is needed.
    ToAnyTypeAsSimple,
    ToGroup(NameId),
    ToAttributeGroup(NameId),
    /// A key or a unique.
    ToKey(NameId),
}

// Adds a reference to an element, if there is one.
fn push_element(refs: &mut Vec<Reference>, name: Option<NameId>) -> Result<(), AllocError>
    ensures { OnOk result (refs.new.items ≡ refs.old.items ++ spec.one_or_none ToElement name) }
{
    if let Some(name) = name {
        refs.push(Reference::ToElement(name))?;
    }
    Ok(())
}

// The name of a type that is not built in.
fn named_type(of: Option<TypeName>) -> Option<NameId>
    ensures { result ≡ spec.named_type of }
{
    match of {
        None => None,
        Some(of) => match of {
            TypeName::AnyType => None,
            TypeName::Builtin(_) => None,
            TypeName::Named(name) => Some(name),
        },
    }
}

// Adds a reference to a type, if there is one.
fn push_type(refs: &mut Vec<Reference>, to: Option<NameId>) -> Result<(), AllocError>
    ensures { OnOk result (refs.new.items ≡ refs.old.items ++ spec.one_or_none ToType to) }
{
    if let Some(name) = to {
        refs.push(Reference::ToType(name))?;
    }
    Ok(())
}

// Adds a reference to a simple type that is not built in.
fn push_simple(refs: &mut Vec<Reference>, of: TypeName) -> Result<(), AllocError>
    ensures { OnOk result (refs.new.items ≡ refs.old.items ++ spec.simple_references of) }
{
    match of {
        TypeName::AnyType => refs.push(Reference::ToAnyTypeAsSimple)?,
        TypeName::Builtin(_) => {}
        TypeName::Named(name) => refs.push(Reference::ToSimpleType(name))?,
    }
    Ok(())
}

// Adds a reference to a simple type, if there is one.
fn push_simple_type(refs: &mut Vec<Reference>, of: Option<TypeName>) -> Result<(), AllocError>
    ensures { OnOk result (refs.new.items ≡ refs.old.items ++ spec.simple_references_if of) }
{
    if let Some(of) = of {
        push_simple(refs, of)?;
    }
    Ok(())
}

// Adds references to simple types.
fn push_simple_types(refs: &mut Vec<Reference>, types: &[TypeName]) -> Result<(), AllocError>
    ensures { OnOk result (refs.new.items ≡ refs.old.items ++ flat_map spec.simple_references types.now) }
{
    for of in types {
        push_simple(refs, *of)?;
    }
    Ok(())
}

// Adds a reference to a group, if there is one.
fn push_group(refs: &mut Vec<Reference>, to: Option<NameId>) -> Result<(), AllocError>
    ensures { OnOk result (refs.new.items ≡ refs.old.items ++ spec.one_or_none ToGroup to) }
{
    if let Some(name) = to {
        refs.push(Reference::ToGroup(name))?;
    }
    Ok(())
}

// Adds a reference to an attribute group, if there is one.
fn push_attr_group(refs: &mut Vec<Reference>, to: Option<NameId>) -> Result<(), AllocError>
    ensures { OnOk result (refs.new.items ≡ refs.old.items ++ spec.one_or_none ToAttributeGroup to) }
{
    if let Some(name) = to {
        refs.push(Reference::ToAttributeGroup(name))?;
    }
    Ok(())
}

// Adds a reference to a key or a unique, if there is one.
fn push_key(refs: &mut Vec<Reference>, to: Option<NameId>) -> Result<(), AllocError>
    ensures { OnOk result (refs.new.items ≡ refs.old.items ++ spec.one_or_none ToKey to) }
{
    if let Some(name) = to {
        refs.push(Reference::ToKey(name))?;
    }
    Ok(())
}

// Adds the references of an element.
fn push_of_element(
    refs: &mut Vec<Reference>,
    element: &ElementRepresentation,
) -> Result<(), AllocError>
    ensures { OnOk result (refs.new.items ≡ refs.old.items ++ spec.element_references element.now) }
{
    push_element(refs, element.reference)?;
    push_element(refs, element.head)?;
    push_type(refs, named_type(element.of))
}

// Adds the references of an attribute.
fn push_of_attribute(
    refs: &mut Vec<Reference>,
    attribute: &AttributeRepresentation,
) -> Result<(), AllocError>
    ensures { OnOk result (refs.new.items ≡ refs.old.items ++ spec.attribute_references attribute.now) }
{
    if let Some(name) = attribute.reference {
        refs.push(Reference::ToAttribute(name))?;
    }
    push_simple_type(refs, attribute.of)
}

// Adds the references of what is represented.
fn push_references(refs: &mut Vec<Reference>, form: &Represented) -> Result<(), AllocError>
    ensures { OnOk result (refs.new.items ≡ refs.old.items ++ spec.references form.now) }
{
    match form {
        Represented::Element(element) => push_of_element(refs, element),
        Represented::Attribute(attribute) => push_of_attribute(refs, attribute),
        Represented::Restriction { base } => push_simple_type(refs, *base),
        Represented::ItemType { of } => push_simple_type(refs, *of),
        Represented::Union { members } => push_simple_types(refs, members.as_slice()),
        Represented::Derivation { base, .. } => push_type(refs, named_type(*base)),
        Represented::GroupReference { to } => push_group(refs, *to),
        Represented::AttributeGroupReference { to } => push_attr_group(refs, *to),
        Represented::Keyref { refer, .. } => push_key(refs, *refer),
        _ => Ok(()),
    }
}

/// The references of what is represented.
pub(crate) fn references(alloc: Global, form: &Represented) -> Result<Vec<Reference>, AllocError>
    ensures references { IfOk result (λ refs. refs.items ≡ spec.references form.now) }
{
    let mut refs = Vec::new(alloc);
    push_references(&mut refs, form)?;
    Ok(refs)
}

impl Reference {
    /// The name that is referred to, where it is not anyType's.
    pub(crate) fn name(self) -> Option<NameId>
        ensures name { result ≡ spec.name_of self }
    {
        match self {
            Reference::ToElement(name) => Some(name),
            Reference::ToAttribute(name) => Some(name),
            Reference::ToType(name) => Some(name),
            Reference::ToSimpleType(name) => Some(name),
            Reference::ToAnyTypeAsSimple => None,
            Reference::ToGroup(name) => Some(name),
            Reference::ToAttributeGroup(name) => Some(name),
            Reference::ToKey(name) => Some(name),
        }
    }
}
