//! The codes of an element that do not come of its content.

ghost use Rattle.std.specs.Prelude.{◌≡◌, ◌++◌, OnOk, slice_get};
ghost use Rattle.std.specs.Option.{option_copied};
ghost use Rattle.elem_codes.specs.Codes as spec;

use crate::facts::{governs, has_elements, is_bare, is_fixed, is_skipped, is_strict};
use crate::outcome::TextOutcome;
use assess_records::{Codes, ElementShape};
use component_tables::ContentType;
use elem_governing::{Governing, XsiType};
use std::alloc::AllocError;
use xs_codes::{Code, Found};
use xs_components::{Components, ElementDecl, TypeId, ValueConstraint};
use xs_names::Text;

/// Puts a code at the end, where the constraint is broken.
pub(crate) fn push_if(codes: &mut Codes, broken: bool, code: Code) -> Result<(), AllocError>
    ensures { OnOk result (codes.new ≡ codes.old ++ spec.code_if broken code) }
{
    if broken {
        codes.push(Found { code, place: 0 })?;
    }
    Ok(())
}

fn is_undeclared(governing: &Governing, said: &XsiType) -> bool
    ensures { result ≡ spec.is_undeclared governing.now said.now }
{
    is_strict(governing.mode) && (governing.declaration.is_none() && !governs(said))
}

fn is_abstract(decl: Option<&ElementDecl>) -> bool
    ensures { result ≡ spec.is_abstract (option_copied decl.entry) }
{
    match decl {
        None => false,
        Some(decl) => decl.is_abstract,
    }
}

/// The codes of the declaration, or of there being none.
pub(crate) fn push_declaration_codes(
    codes: &mut Codes,
    governing: &Governing,
    said: &XsiType,
    decl: Option<&ElementDecl>,
) -> Result<(), AllocError>
    ensures { OnOk result (codes.new ≡ codes.old ++ spec.declaration_codes governing.now said.now (option_copied decl.entry)) }
{
    push_if(codes, is_undeclared(governing, said), Code::CvcElt1)?;
    push_if(codes, is_abstract(decl), Code::CvcElt2)
}

// The code of an xsi:type that does not name the governing type.
fn said_code(said: &XsiType) -> Option<Code>
    ensures { result ≡ spec.said_code said.now }
{
    match said {
        XsiType::Absent => None,
        XsiType::NotQName => Some(Code::CvcElt4_1),
        XsiType::Unresolved => Some(Code::CvcElt4_2),
        XsiType::NotDerived => Some(Code::CvcElt4_3),
        XsiType::Governs(_) => None,
    }
}

// Puts a code at the end, if there is one.
fn push_some(codes: &mut Codes, code: Option<Code>) -> Result<(), AllocError>
    ensures { OnOk result (codes.new ≡ codes.old ++ spec.code_of code) }
{
    match code {
        None => Ok(()),
        Some(code) => codes.push(Found { code, place: 0 }),
    }
}

fn is_abstract_complex(parts: &Components, of: TypeId) -> bool
    ensures { result ≡ spec.is_abstract_complex parts.now of }
{
    match of {
        TypeId::AnyType => false,
        TypeId::Builtin(_) => false,
        TypeId::Simple(_) => false,
        TypeId::Complex(id) => match parts.complexes().get(id.number() as usize) {
            None => false,
            Some(part) => part.is_abstract,
        },
    }
}

fn is_abstract_type(parts: &Components, of: Option<TypeId>) -> bool
    ensures { result ≡ spec.is_abstract_type parts.now of }
{
    match of {
        None => false,
        Some(of) => is_abstract_complex(parts, of),
    }
}

fn said_unless_skipped(governing: &Governing, said: &XsiType) -> Option<Code>
    ensures { result ≡ spec.said_unless_skipped governing.now said.now }
{
    if is_skipped(governing.mode) {
        None
    } else {
        said_code(said)
    }
}

/// The codes of xsi:type and of the governing type.
pub(crate) fn push_type_codes(
    codes: &mut Codes,
    parts: &Components,
    governing: &Governing,
    said: &XsiType,
) -> Result<(), AllocError>
    ensures { OnOk result (codes.new ≡ codes.old ++ spec.type_codes parts.now governing.now said.now) }
{
    push_some(codes, said_unless_skipped(governing, said))?;
    push_if(codes, is_abstract_type(parts, governing.of), Code::CvcType2)
}

fn is_nil_refused(decl: Option<&ElementDecl>, xsi: Option<&Text>) -> bool
    ensures { result ≡ spec.is_nil_refused (option_copied decl.entry) (option_copied xsi.entry) }
{
    match decl {
        None => false,
        Some(decl) => !decl.nillable && xsi.is_some(),
    }
}

/// The codes of xsi:nil.
pub(crate) fn push_nil_codes(
    codes: &mut Codes,
    decl: Option<&ElementDecl>,
    constraint: Option<&ValueConstraint>,
    xsi: Option<&Text>,
    nil: bool,
    shape: &ElementShape,
) -> Result<(), AllocError>
    ensures { OnOk result (codes.new ≡ codes.old ++ spec.nil_codes (option_copied decl.entry) (option_copied constraint.entry) (option_copied xsi.entry) nil shape.now) }
{
    push_if(codes, is_nil_refused(decl, xsi), Code::CvcElt3_1)?;
    push_if(codes, nil && !is_bare(shape), Code::CvcElt3_2_1)?;
    push_if(codes, nil && is_fixed(constraint), Code::CvcElt3_2_2)
}

fn is_mixed(content: Option<ContentType>) -> bool
    ensures { result ≡ spec.is_mixed content }
{
    match content {
        Some(ContentType::Mixed) => true,
        _ => false,
    }
}

fn differs(fixed: Option<&ValueConstraint>, text: &Text) -> bool
    ensures { result ≡ spec.differs (option_copied fixed.entry) text.now }
{
    match fixed {
        None => false,
        Some(fixed) => text.as_str() != fixed.text.as_str(),
    }
}

fn is_unmet(outcome: &TextOutcome) -> bool
    ensures { result ≡ spec.is_unmet outcome.now }
{
    match outcome {
        TextOutcome::NotRead => false,
        TextOutcome::Invalid(_) => false,
        TextOutcome::Valid { met, .. } => !*met,
    }
}

// The codes of a fixed value on mixed content.
fn push_mixed_codes(
    codes: &mut Codes,
    fixed: Option<&ValueConstraint>,
    shape: &ElementShape,
) -> Result<(), AllocError>
    ensures { OnOk result (codes.new ≡ codes.old ++ spec.mixed_codes (option_copied fixed.entry) shape.now) }
{
    push_if(
        codes,
        fixed.is_some() && has_elements(shape),
        Code::CvcElt5_2_2_1,
    )?;
    push_if(codes, differs(fixed, &shape.text), Code::CvcElt5_2_2_2)
}

/// The codes of a fixed value.
pub(crate) fn push_fixed_codes(
    codes: &mut Codes,
    nil: bool,
    content: Option<ContentType>,
    fixed: Option<&ValueConstraint>,
    shape: &ElementShape,
    outcome: &TextOutcome,
) -> Result<(), AllocError>
    ensures { OnOk result (codes.new ≡ codes.old ++ spec.fixed_codes nil content (option_copied fixed.entry) shape.now outcome.now) }
{
    if is_mixed(content) && !nil {
        push_mixed_codes(codes, fixed, shape)?;
    }
    push_if(codes, is_unmet(outcome), Code::CvcElt5_2_2_2)
}
