//! The codes of the content of an element.

ghost use Rattle.std.specs.Prelude.{◌≡◌, ◌<◌, ◌++◌, All, length, map, take, OnOk};
ghost use Rattle.std.specs.Option.{option_copied};
ghost use Rattle.elem_codes.specs.Codes as spec;

use crate::codes::push_if;
use crate::facts::has_elements;
use crate::outcome::TextOutcome;
use assess_records::{Codes, ElementShape, NamedText, instance_attribute};
use component_tables::ContentType;
use std::alloc::AllocError;
use xs_codes::{Code, Found};
use xs_names::{NameId, Names, Text, is_white_space};

// Whether an attribute is none of those of schema instances.
fn is_other_attribute(names: &Names, attr: &NamedText) -> bool
    requires { attr.now.name < length names.now.names }
    ensures { result ≡ spec.is_other_attribute names.now attr.now }
{
    instance_attribute(names, attr.name).is_none()
}

// Whether an attribute is there that is none of those of schema instances.
fn has_other_attributes(names: &Names, attrs: &[NamedText]) -> bool
    requires { All (λ a. a.name < length names.now.names) attrs.now }
    ensures { result ≡ spec.has_other_attributes names.now attrs.now }
{
    for attr in attrs {
        if is_other_attribute(names, attr) {
            return true;
        }
    }
    false
}

// The code of a text that is not valid, and that of its value behind it.
fn push_text_codes(codes: &mut Codes, code: Code, outcome: &TextOutcome) -> Result<(), AllocError>
    ensures { OnOk result (codes.new ≡ codes.old ++ spec.text_codes code outcome.now) }
{
    match outcome {
        TextOutcome::Invalid(value_code) => {
            codes.push(Found { code, place: 0 })?;
            codes.push(Found {
                code: *value_code,
                place: 0,
            })
        }
        TextOutcome::NotRead => Ok(()),
        TextOutcome::Valid { .. } => Ok(()),
    }
}

// The codes of an element of simple type.
fn push_simple_codes(
    codes: &mut Codes,
    names: &Names,
    nil: bool,
    shape: &ElementShape,
    outcome: &TextOutcome,
) -> Result<(), AllocError>
    requires named { All (λ a. a.name < length names.now.names) shape.now.attrs }
    ensures { OnOk result (codes.new ≡ codes.old ++ spec.simple_codes names.now nil shape.now outcome.now) }
{
    push_if(
        codes,
        has_other_attributes(names, shape.attrs.as_slice()),
        Code::CvcType3_1_1,
    )?;
    push_if(codes, !nil && has_elements(shape), Code::CvcType3_1_2)?;
    push_text_codes(codes, Code::CvcType3_1_3, outcome)
}

// The codes of an element with simple content.
fn push_simple_content_codes(
    codes: &mut Codes,
    shape: &ElementShape,
    outcome: &TextOutcome,
) -> Result<(), AllocError>
    ensures { OnOk result (codes.new ≡ codes.old ++ spec.simple_content_codes shape.now outcome.now) }
{
    push_if(codes, has_elements(shape), Code::CvcComplexType2_2)?;
    push_text_codes(codes, Code::CvcComplexType2_2, outcome)
}

// The codes of the content of an element of complex type.
fn push_content_codes(
    codes: &mut Codes,
    content: ContentType,
    shape: &ElementShape,
    text: &Text,
    outcome: &TextOutcome,
) -> Result<(), AllocError>
    ensures { OnOk result (codes.new ≡ codes.old ++ spec.content_codes content shape.now text.now outcome.now) }
{
    match content {
        ContentType::Empty => push_if(
            codes,
            has_elements(shape) || !text.as_str().is_empty(),
            Code::CvcComplexType2_1,
        ),
        ContentType::SimpleContent => push_simple_content_codes(codes, shape, outcome),
        ContentType::ElementOnly => push_if(
            codes,
            !is_white_space(text.as_str()),
            Code::CvcComplexType2_3,
        ),
        ContentType::SimpleType => Ok(()),
        ContentType::Mixed => Ok(()),
    }
}

// The code of the place where the child elements get stuck.
fn push_stuck_code(codes: &mut Codes, stuck: Option<u32>) -> Result<(), AllocError>
    ensures { OnOk result (codes.new ≡ codes.old ++ spec.stuck_codes stuck) }
{
    match stuck {
        None => Ok(()),
        Some(place) => codes.push(Found {
            code: Code::CvcComplexType2_4,
            place,
        }),
    }
}

// The code of a required attribute that is missing.
fn missing_code(_name: NameId) -> Found
    ensures { result ≡ spec.missing_code _name }
{
    Found {
        code: Code::CvcComplexType4,
        place: 0,
    }
}

// One code for each required attribute that is missing.
fn push_missing_codes(codes: &mut Codes, missing: &[NameId]) -> Result<(), AllocError>
    ensures { OnOk result (codes.new ≡ codes.old ++ spec.missing_codes missing.now) }
{
    for name in missing {
        codes.push(missing_code(*name))?;
    }
    Ok(())
}

// The codes of what an element of complex type holds, unless it is nil.
fn push_filled_codes(
    codes: &mut Codes,
    nil: bool,
    content: ContentType,
    shape: &ElementShape,
    text: &Text,
    outcome: &TextOutcome,
) -> Result<(), AllocError>
    ensures { OnOk result (codes.new ≡ codes.old ++ spec.filled_codes nil content shape.now text.now outcome.now) }
{
    if nil {
        return Ok(());
    }
    push_content_codes(codes, content, shape, text, outcome)?;
    push_stuck_code(codes, shape.stuck)
}

/// The codes of the content of an element and of the attributes that its type asks for, where a type governs.
pub(crate) fn push_governed_codes(
    codes: &mut Codes,
    names: &Names,
    nil: bool,
    content: Option<ContentType>,
    shape: &ElementShape,
    text: &Text,
    outcome: &TextOutcome,
    missing: &[NameId],
) -> Result<(), AllocError>
    requires named { All (λ a. a.name < length names.now.names) shape.now.attrs }
    ensures { OnOk result (codes.new ≡ codes.old ++ spec.governed_codes names.now nil content shape.now text.now outcome.now missing.now) }
{
    match content {
        None => Ok(()),
        Some(ContentType::SimpleType) => push_simple_codes(codes, names, nil, shape, outcome),
        Some(content) => {
            push_filled_codes(codes, nil, content, shape, text, outcome)?;
            push_missing_codes(codes, missing)
        }
    }
}
