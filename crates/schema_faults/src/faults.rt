ghost use Rattle.std.specs.Prelude.{◌≡◌, IfOk};
ghost use Rattle.schema_faults.specs.Children.{child_tags};
ghost use Rattle.schema_faults.specs.Faults as spec;
ghost use Rattle.schema_faults.specs.Elements.{construct_of};

use crate::Broken;
use crate::children::child_tags;
use crate::element::Element;
use crate::limit_faults::limit_code;
use crate::representation::{attribute_code, element_code, simple_code};
use crate::shape_faults::{
    has_text, has_wrong_attribute, has_wrong_children, has_wrong_value, is_no_schema,
};
use crate::unsupported::{type_names, unsupported_type};
use schema_values::{Kind, Tag};
use std::alloc::{AllocError, Global};
use xs_codes::Code;

/// The code of the first constraint on its shape that an element breaks. The tags are those of its children.
#[tactic(auto, unfolding(crate::specs::Faults::shape_tests))]
fn shape_code(alloc: Global, element: &Element, tags: &[Tag]) -> Result<Option<Code>, AllocError>
    requires { tags.now ≡ child_tags element.now.children }
    ensures { IfOk result (λ code. code ≡ spec.first_broken (spec.shape_tests (construct_of element.now))) }
{
    if is_no_schema(element.kind) {
        return Ok(Some(Code::XShapeRoot));
    }
    if has_wrong_children(element.kind, tags) {
        return Ok(Some(Code::XShapeContent));
    }
    if has_text(element.kind, element.children.again()) {
        return Ok(Some(Code::XShapeText));
    }
    if has_wrong_attribute(element.kind, element.attributes) {
        return Ok(Some(Code::XShapeAttribute));
    }
    if has_wrong_value(alloc, element.scope, element.kind, element.attributes)? {
        return Ok(Some(Code::XShapeValue));
    }
    Ok(None)
}

/// The code of the first constraint that an element breaks.
#[tactic(auto, unfolding(crate::specs::Faults::first_code))]
fn first_code(alloc: Global, element: &Element) -> Result<Option<Code>, AllocError>
    ensures { IfOk result (λ code. code ≡ spec.first_code (construct_of element.now)) }
{
    let kind = element.kind;
    let attributes = element.attributes;
    let tags = child_tags(alloc, element.children.again())?;
    if let Some(code) = shape_code(alloc, element, &tags)? {
        return Ok(Some(code));
    }
    if let Some(code) = unsupported_type(&type_names(alloc, element.scope, attributes)?) {
        return Ok(Some(code));
    }
    if let Some(code) = limit_code(alloc, kind, attributes, &tags)? {
        return Ok(Some(code));
    }
    if let Some(code) = element_code(kind, attributes, &tags) {
        return Ok(Some(code));
    }
    if let Some(code) = attribute_code(alloc, kind, attributes, &tags)? {
        return Ok(Some(code));
    }
    simple_code(alloc, kind, attributes, &tags)
}

/// The code of an element: none below an annotation, and of a notation that it is not supported.
#[tactic(auto, unfolding(crate::specs::Faults::code_of))]
fn code_of(alloc: Global, element: &Element) -> Result<Option<Code>, AllocError>
    ensures { IfOk result (λ code. code ≡ spec.code_of (construct_of element.now)) }
{
    match element.kind {
        Kind::Ignored => Ok(None),
        Kind::Notation => Ok(Some(Code::XUnsupportedNotationElement)),
        _ => first_code(alloc, element),
    }
}

/// The fault of an element: the first constraint on its shape that it breaks, in the order of the codes.
///
/// # Errors
///
/// `AllocError` is want of memory.
pub fn fault_of(alloc: Global, element: &Element) -> Result<Option<Broken>, AllocError>
    ensures { IfOk result (λ fault. fault ≡ spec.fault_of (construct_of element.now)) }
{
    match code_of(alloc, element)? {
        None => Ok(None),
        Some(code) => Ok(Some(Broken {
            item: element.item,
            code,
        })),
    }
}

/// Of two faults the one at the lesser element.
pub fn lesser(fault: Option<Broken>, other: Option<Broken>) -> Option<Broken>
    ensures { result ≡ spec.lesser fault other }
{
    match (fault, other) {
        (None, other) => other,
        (fault, None) => fault,
        (Some(fault), Some(other)) => {
            if other.item < fault.item {
                Some(other)
            } else {
                Some(fault)
            }
        }
    }
}
