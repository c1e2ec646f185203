ghost use Rattle.std.specs.Prelude.{◌≡◌, IfOk, bytes_eq, codes};
ghost use Rattle.std.specs.Option.{option_map};
ghost use Rattle.schema_values.specs.declared.grammar_kinds.AttributeName.TheVariants as an;
ghost use Rattle.schema_shape.specs.Shapes as spec;

use crate::content_shapes::{content_form, required_of};
use crate::forms::{
    AttributeForm, ComplexTypeForm, ElementForm, Form, IdentityKind, Use, ValueForm,
};
use schema_values::{
    AttributeName, Kind, flag_of, methods_of, name_of, occurs_of, raw_of, value_of,
};
use std::alloc::{AllocError, Global};
use tag_names::Prefixes;
use tree_rows::Attribute;

/// Whether a form attribute says qualified.
pub(crate) fn qualified_of(
    alloc: Global,
    name: AttributeName,
    attributes: &[Attribute],
) -> Result<Option<bool>, AllocError>
    ensures { IfOk result (λ qualified. qualified ≡ spec.qualified_of name attributes.now) }
{
    match value_of(alloc, name, attributes)? {
        None => Ok(None),
        Some(text) => Ok(Some("qualified" == text.as_str())),
    }
}

/// The default or fixed value, as it stands.
fn value_form(attributes: &[Attribute]) -> Result<Option<ValueForm>, AllocError>
    ensures { IfOk result (λ value. value ≡ spec.value_form attributes.now) }
{
    match raw_of(AttributeName::Fixed, attributes)? {
        Some(text) => Ok(Some(ValueForm { fixed: true, text })),
        None => match raw_of(AttributeName::Default, attributes)? {
            Some(text) => Ok(Some(ValueForm { fixed: false, text })),
            None => Ok(None),
        },
    }
}

/// A declaration of an element, or a reference to one.
fn element_form(
    alloc: Global,
    global: bool,
    scope: &Prefixes,
    attributes: &[Attribute],
) -> Result<ElementForm, AllocError>
    ensures { IfOk result (λ form. form ≡ spec.element_form global scope.now attributes.now) }
{
    let nillable = flag_of(alloc, AttributeName::Nillable, attributes)?;
    let is_abstract = flag_of(alloc, AttributeName::Abstract, attributes)?;
    let finals = methods_of(alloc, AttributeName::Final, attributes)?;
    let blocks = methods_of(alloc, AttributeName::Block, attributes)?;
    let qualified = qualified_of(alloc, AttributeName::Form, attributes)?;
    let occurs = occurs_of(alloc, attributes)?;
    Ok(ElementForm {
        global,
        name: value_of(alloc, AttributeName::Name, attributes)?,
        reference: name_of(alloc, AttributeName::Ref, scope, attributes)?,
        of: name_of(alloc, AttributeName::Type, scope, attributes)?,
        head: name_of(alloc, AttributeName::SubstitutionGroup, scope, attributes)?,
        value: value_form(attributes)?,
        nillable,
        is_abstract,
        finals,
        blocks,
        qualified,
        occurs,
    })
}

/// The use of an attribute, by the value of use.
fn use_of(text: &str) -> Use
    ensures { result ≡ spec.use_of text.now }
{
    match text {
        "required" => Use::Required,
        "prohibited" => Use::Prohibited,
        _ => Use::Optional,
    }
}

/// The use of an attribute.
fn used_of(alloc: Global, attributes: &[Attribute]) -> Result<Use, AllocError>
    ensures { IfOk result (λ used. used ≡ spec.use_of (spec.required_of an.Use attributes.now)) }
{
    let text = required_of(alloc, AttributeName::Use, attributes)?;
    Ok(use_of(text.as_str()))
}

/// A declaration of an attribute, or a reference to one.
fn attribute_form(
    alloc: Global,
    global: bool,
    scope: &Prefixes,
    attributes: &[Attribute],
) -> Result<AttributeForm, AllocError>
    ensures { IfOk result (λ form. form ≡ spec.attribute_form global scope.now attributes.now) }
{
    let used = used_of(alloc, attributes)?;
    let qualified = qualified_of(alloc, AttributeName::Form, attributes)?;
    Ok(AttributeForm {
        global,
        name: value_of(alloc, AttributeName::Name, attributes)?,
        reference: name_of(alloc, AttributeName::Ref, scope, attributes)?,
        of: name_of(alloc, AttributeName::Type, scope, attributes)?,
        value: value_form(attributes)?,
        qualified,
        used,
    })
}

/// A complex type.
fn complex_type_form(alloc: Global, attributes: &[Attribute]) -> Result<ComplexTypeForm, AllocError>
    ensures { IfOk result (λ form. form ≡ spec.complex_type_form attributes.now) }
{
    let is_abstract = flag_of(alloc, AttributeName::Abstract, attributes)?;
    let finals = methods_of(alloc, AttributeName::Final, attributes)?;
    let blocks = methods_of(alloc, AttributeName::Block, attributes)?;
    let mixed = flag_of(alloc, AttributeName::Mixed, attributes)?;
    Ok(ComplexTypeForm {
        name: value_of(alloc, AttributeName::Name, attributes)?,
        is_abstract,
        finals,
        blocks,
        mixed,
    })
}

/// A simple type.
fn simple_type(alloc: Global, attributes: &[Attribute]) -> Result<Form, AllocError>
    ensures { IfOk result (λ form. form ≡ spec.simple_type attributes.now) }
{
    Ok(Form::SimpleType {
        name: value_of(alloc, AttributeName::Name, attributes)?,
        finals: methods_of(alloc, AttributeName::Final, attributes)?,
    })
}

/// An identity constraint.
fn identity(
    alloc: Global,
    kind: IdentityKind,
    scope: &Prefixes,
    attributes: &[Attribute],
) -> Result<Form, AllocError>
    ensures { IfOk result (λ form. form ≡ spec.identity kind scope.now attributes.now) }
{
    Ok(Form::Identity {
        kind,
        name: required_of(alloc, AttributeName::Name, attributes)?,
        refer: name_of(alloc, AttributeName::Refer, scope, attributes)?,
    })
}

/// What a declaration or a definition declares, or what stands in one.
pub(crate) fn component_form(
    alloc: Global,
    kind: Kind,
    scope: &Prefixes,
    attributes: &[Attribute],
) -> Result<Form, AllocError>
    ensures { IfOk result (λ form. form ≡ spec.component_form kind scope.now attributes.now) }
{
    match kind {
        Kind::TopElement => Ok(Form::Element(element_form(alloc, true, scope, attributes)?)),
        Kind::LocalElement => Ok(Form::Element(element_form(alloc, false, scope, attributes)?)),
        Kind::TopAttribute => Ok(Form::Attribute(attribute_form(alloc, true, scope, attributes)?)),
        Kind::LocalAttribute => Ok(Form::Attribute(attribute_form(
            alloc, false, scope, attributes,
        )?)),
        Kind::TopComplexType => Ok(Form::ComplexType(complex_type_form(alloc, attributes)?)),
        Kind::LocalComplexType => Ok(Form::ComplexType(complex_type_form(alloc, attributes)?)),
        Kind::TopSimpleType => simple_type(alloc, attributes),
        Kind::LocalSimpleType => simple_type(alloc, attributes),
        Kind::TopGroup => Ok(Form::Group {
            name: required_of(alloc, AttributeName::Name, attributes)?,
        }),
        Kind::TopAttributeGroup => Ok(Form::AttributeGroup {
            name: required_of(alloc, AttributeName::Name, attributes)?,
        }),
        Kind::Unique => identity(alloc, IdentityKind::Unique, scope, attributes),
        Kind::Key => identity(alloc, IdentityKind::Key, scope, attributes),
        Kind::Keyref => identity(alloc, IdentityKind::Keyref, scope, attributes),
        Kind::Selector => Ok(Form::Selector {
            path: required_of(alloc, AttributeName::Xpath, attributes)?,
        }),
        Kind::Field => Ok(Form::Field {
            path: required_of(alloc, AttributeName::Xpath, attributes)?,
        }),
        _ => content_form(alloc, kind, scope, attributes),
    }
}
