ghost use Rattle.std.specs.Prelude.{◌≡◌, IfOk};
ghost use Rattle.schema_faults.specs.Faults.{first_broken, element_tests, attribute_tests, simple_tests};
ghost use Rattle.schema_faults.specs.Representation as spec;

use crate::children::has_child;
use schema_values::{AttributeName, Class, Kind, Tag, has, has_crossed_bounds, is_in, value_of};
use std::alloc::{AllocError, Global};
use tree_rows::Attribute;
use xs_codes::Code;
use xs_names::count_items;

/// Whether one of these attributes is there.
fn has_any(names: &[AttributeName], attributes: &[Attribute]) -> bool
    ensures { result ≡ spec.has_any names.now attributes.now }
{
    names.iter().any(|name| has(*name, attributes))
}

/// Whether there is a child other than an annotation.
fn has_more_than_annotations(tags: &[Tag]) -> bool
    ensures { result ≡ spec.has_more_than_annotations tags.now }
{
    tags.iter().any(|tag| !is_in(Class::Annotation, *tag))
}

/// Whether the kind is that of a top or a local element.
fn is_element(kind: Kind) -> bool
    ensures { result ≡ spec.is_element kind }
{
    matches!(kind, Kind::TopElement | Kind::LocalElement)
}

/// Whether the kind is that of a top or a local attribute.
fn is_attribute(kind: Kind) -> bool
    ensures { result ≡ spec.is_attribute kind }
{
    matches!(kind, Kind::TopAttribute | Kind::LocalAttribute)
}

/// Whether an element has default and fixed.
fn element_has_two_values(kind: Kind, attributes: &[Attribute]) -> bool
    ensures { result ≡ spec.element_has_two_values kind attributes.now }
{
    is_element(kind)
        && (has(AttributeName::Default, attributes) && has(AttributeName::Fixed, attributes))
}

/// Whether a local element has not exactly one of name and ref.
fn element_has_not_one_name(kind: Kind, attributes: &[Attribute]) -> bool
    ensures { result ≡ spec.element_has_not_one_name kind attributes.now }
{
    match kind {
        Kind::LocalElement => {
            has(AttributeName::Name, attributes) == has(AttributeName::Ref, attributes)
        }
        _ => false,
    }
}

/// Whether an element has an attribute that does not stand with ref.
fn has_more_than_reference(attributes: &[Attribute]) -> bool
    ensures { result ≡ spec.has_more_than_reference attributes.now }
{
    has_any(
        &[
            AttributeName::Name,
            AttributeName::Type,
            AttributeName::Default,
            AttributeName::Fixed,
            AttributeName::Nillable,
            AttributeName::Block,
            AttributeName::Form,
        ],
        attributes,
    )
}

/// Whether a local element has ref, and more than may stand with it.
fn element_reference_has_more(kind: Kind, attributes: &[Attribute], tags: &[Tag]) -> bool
    ensures { result ≡ spec.element_reference_has_more kind attributes.now tags.now }
{
    match kind {
        Kind::LocalElement => {
            has(AttributeName::Ref, attributes)
                && (has_more_than_reference(attributes) || has_more_than_annotations(tags))
        }
        _ => false,
    }
}

/// Whether an element has type and a type child.
fn element_has_two_types(kind: Kind, attributes: &[Attribute], tags: &[Tag]) -> bool
    ensures { result ≡ spec.element_has_two_types kind attributes.now tags.now }
{
    is_element(kind) && (has(AttributeName::Type, attributes) && has_child(Class::Type, tags))
}

/// The code of the first constraint on elements that an element breaks (Structures 3.3.3).
#[tactic(auto, unfolding(crate::specs::Faults::element_tests))]
pub(crate) fn element_code(kind: Kind, attributes: &[Attribute], tags: &[Tag]) -> Option<Code>
    ensures { result ≡ first_broken (element_tests kind attributes.now tags.now) }
{
    if element_has_two_values(kind, attributes) {
        return Some(Code::SrcElement1);
    }
    if element_has_not_one_name(kind, attributes) {
        return Some(Code::SrcElement2_1);
    }
    if element_reference_has_more(kind, attributes, tags) {
        return Some(Code::SrcElement2_2);
    }
    if element_has_two_types(kind, attributes, tags) {
        return Some(Code::SrcElement3);
    }
    None
}

/// Whether an attribute has default and fixed.
fn attribute_has_two_values(kind: Kind, attributes: &[Attribute]) -> bool
    ensures { result ≡ spec.attribute_has_two_values kind attributes.now }
{
    is_attribute(kind)
        && (has(AttributeName::Default, attributes) && has(AttributeName::Fixed, attributes))
}

/// Whether use is there, and is not optional.
fn use_is_not_optional(alloc: Global, attributes: &[Attribute]) -> Result<bool, AllocError>
    ensures { IfOk result (λ found. found ≡ spec.use_is_not_optional attributes.now) }
{
    match value_of(alloc, AttributeName::Use, attributes)? {
        None => Ok(false),
        Some(text) => Ok(text.as_str() != "optional"),
    }
}

/// Whether an attribute has default, and a use that is not optional.
fn attribute_has_idle_default(
    alloc: Global,
    kind: Kind,
    attributes: &[Attribute],
) -> Result<bool, AllocError>
    ensures { IfOk result (λ found. found ≡ spec.attribute_has_idle_default kind attributes.now) }
{
    if !is_attribute(kind) {
        return Ok(false);
    }
    if !has(AttributeName::Default, attributes) {
        return Ok(false);
    }
    use_is_not_optional(alloc, attributes)
}

/// Whether a local attribute has not exactly one of name and ref.
fn attribute_has_not_one_name(kind: Kind, attributes: &[Attribute]) -> bool
    ensures { result ≡ spec.attribute_has_not_one_name kind attributes.now }
{
    match kind {
        Kind::LocalAttribute => {
            has(AttributeName::Name, attributes) == has(AttributeName::Ref, attributes)
        }
        _ => false,
    }
}

/// Whether a local attribute has ref, and more than may stand with it.
fn attribute_reference_has_more(kind: Kind, attributes: &[Attribute], tags: &[Tag]) -> bool
    ensures { result ≡ spec.attribute_reference_has_more kind attributes.now tags.now }
{
    match kind {
        Kind::LocalAttribute => {
            has(AttributeName::Ref, attributes)
                && (has_any(&[AttributeName::Type, AttributeName::Form], attributes)
                    || has_child(Class::SimpleType, tags))
        }
        _ => false,
    }
}

/// Whether an attribute has type and a simpleType child.
fn attribute_has_two_types(kind: Kind, attributes: &[Attribute], tags: &[Tag]) -> bool
    ensures { result ≡ spec.attribute_has_two_types kind attributes.now tags.now }
{
    is_attribute(kind)
        && (has(AttributeName::Type, attributes) && has_child(Class::SimpleType, tags))
}

/// The code of the first constraint on attributes that an element breaks (Structures 3.2.3).
#[tactic(auto, unfolding(crate::specs::Faults::attribute_tests))]
pub(crate) fn attribute_code(
    alloc: Global,
    kind: Kind,
    attributes: &[Attribute],
    tags: &[Tag],
) -> Result<Option<Code>, AllocError>
    ensures { IfOk result (λ code. code ≡ first_broken (attribute_tests kind attributes.now tags.now)) }
{
    if attribute_has_two_values(kind, attributes) {
        return Ok(Some(Code::SrcAttribute1));
    }
    if attribute_has_idle_default(alloc, kind, attributes)? {
        return Ok(Some(Code::SrcAttribute2));
    }
    if attribute_has_not_one_name(kind, attributes) {
        return Ok(Some(Code::SrcAttribute3_1));
    }
    if attribute_reference_has_more(kind, attributes, tags) {
        return Ok(Some(Code::SrcAttribute3_2));
    }
    if attribute_has_two_types(kind, attributes, tags) {
        return Ok(Some(Code::SrcAttribute4));
    }
    Ok(None)
}

/// Whether a restriction has not exactly one of base and a simpleType child.
fn has_not_one_base(kind: Kind, attributes: &[Attribute], tags: &[Tag]) -> bool
    ensures { result ≡ spec.has_not_one_base kind attributes.now tags.now }
{
    match kind {
        Kind::Restriction => {
            has(AttributeName::Base, attributes) == has_child(Class::SimpleType, tags)
        }
        _ => false,
    }
}

/// Whether a list has not exactly one of itemType and a simpleType child.
fn has_not_one_item_type(kind: Kind, attributes: &[Attribute], tags: &[Tag]) -> bool
    ensures { result ≡ spec.has_not_one_item_type kind attributes.now tags.now }
{
    match kind {
        Kind::List => {
            has(AttributeName::ItemType, attributes) == has_child(Class::SimpleType, tags)
        }
        _ => false,
    }
}

/// Whether memberTypes names no type.
fn names_no_member(alloc: Global, attributes: &[Attribute]) -> Result<bool, AllocError>
    ensures { IfOk result (λ found. found ≡ spec.names_no_member attributes.now) }
{
    match value_of(alloc, AttributeName::MemberTypes, attributes)? {
        None => Ok(true),
        Some(text) => Ok(count_items(text.as_str()) == 0),
    }
}

/// Whether a union has no member.
fn has_no_member(
    alloc: Global,
    kind: Kind,
    attributes: &[Attribute],
    tags: &[Tag],
) -> Result<bool, AllocError>
    ensures { IfOk result (λ found. found ≡ spec.has_no_member kind attributes.now tags.now) }
{
    match kind {
        Kind::Union => {
            if has_child(Class::SimpleType, tags) {
                Ok(false)
            } else {
                names_no_member(alloc, attributes)
            }
        }
        _ => Ok(false),
    }
}

/// The code of the first constraint on simple types and on particles that an element breaks (Structures 3.14.3, 3.9.6).
#[tactic(auto, unfolding(crate::specs::Faults::simple_tests))]
pub(crate) fn simple_code(
    alloc: Global,
    kind: Kind,
    attributes: &[Attribute],
    tags: &[Tag],
) -> Result<Option<Code>, AllocError>
    ensures { IfOk result (λ code. code ≡ first_broken (simple_tests kind attributes.now tags.now)) }
{
    if has_not_one_base(kind, attributes, tags) {
        return Ok(Some(Code::SrcSimpleType2));
    }
    if has_not_one_item_type(kind, attributes, tags) {
        return Ok(Some(Code::SrcSimpleType3));
    }
    if has_no_member(alloc, kind, attributes, tags)? {
        return Ok(Some(Code::SrcUnionMemberTypesOrSimpleTypes));
    }
    if has_crossed_bounds(alloc, attributes)? {
        return Ok(Some(Code::PPropsCorrect2_1));
    }
    Ok(None)
}
