//! The simple types that texts of types are of.

ghost use Rattle.std.specs.Prelude.{◌≡◌, ◌↔◌, IsTrue, IfOk, IfSome};
ghost use Rattle.component_references.specs.Heights.{IsType};
ghost use Rattle.component_references.specs.Ranked.{IsRanked};
ghost use Rattle.component_tables.specs.Bases.{AreLinesOf};
ghost use Rattle.type_derivation.specs.Within.{AreSimple};
ghost use Rattle.derive_restriction.specs.Given.{AreOwnThere};
ghost use Rattle.derive_restriction.specs.Contents as spec;

use crate::types::{derives_type, derives_type_member};
use component_tables::BaseLines;
use std::alloc::{AllocError, Global};
use xs_components::{ComplexType, Components, ContentForm, TypeId};

/// The simple type that a text is of: a type of the schema, or a restriction of one, which has no name (Structures 3.4.2).
#[derive(Clone, Copy)]
pub(crate) struct TextType {
    pub(crate) of: TypeId,
    pub(crate) is_restricted: bool,
}

/// What says of which simple type the text of a type is.
#[derive(Clone, Copy)]
pub(crate) enum TextStep {
    /// Its text is of no simple type.
    Nothing,
    Found(TextType),
    /// The text of this base; whether it is restricted.
    Up(TypeId, bool),
}

// What the content of a restriction says.
fn restricted_content(base: TypeId, content: &ContentForm) -> TextStep
    ensures { result ≡ spec.restricted_content base content.now }
{
    match content {
        ContentForm::Simple { own, .. } => match own {
            Some(own) => TextStep::Found(TextType {
                of: *own,
                is_restricted: true,
            }),
            None => TextStep::Up(base, true),
        },
        ContentForm::Complex { .. } => TextStep::Nothing,
    }
}

// What a complex type says.
fn complex_step(part: &ComplexType) -> TextStep
    ensures { result ≡ spec.complex_step part.now }
{
    if part.by_extension {
        TextStep::Up(part.base, false)
    } else {
        restricted_content(part.base, &part.content)
    }
}

// What a type says.
fn text_step(parts: &Components, of: &TypeId) -> TextStep
    requires there { IsType parts.now of.now }
    ensures { result ≡ spec.text_step parts.now of.now }
{
    match of {
        TypeId::AnyType => TextStep::Nothing,
        TypeId::Builtin(_) | TypeId::Simple(_) => TextStep::Found(TextType {
            of: *of,
            is_restricted: false,
        }),
        TypeId::Complex(id) => complex_step(parts.complex(*id)),
    }
}

// The same type, restricted or not.
fn restricted_if(is_restricted: bool, text: TextType) -> TextType
    ensures { result ≡ spec.restricted_if is_restricted text }
{
    TextType {
        of: text.of,
        is_restricted: is_restricted || text.is_restricted,
    }
}

/// The simple type that the text of a type is of, if it is of one.
pub(crate) fn text_type(parts: &Components, of: TypeId) -> Option<TextType>
    requires ranked { IsRanked parts.now }
    requires there { IsType parts.now of }
    ensures text { spec.IsTextType parts.now of result }
{
    let mut at = of;
    let mut is_restricted = false;
    'up: loop {
        match text_step(parts, &at) {
            TextStep::Nothing => return None,
            TextStep::Found(text) => return Some(restricted_if(is_restricted, text)),
            TextStep::Up(base, restricts) => {
                at = base;
                is_restricted = is_restricted || restricts;
            }
        }
    }
}

// Whether a simple type derives from that of a text.
fn derives_from(
    alloc: Global,
    parts: &Components,
    bases: &BaseLines,
    own: TypeId,
    text: TextType,
) -> Result<bool, AllocError>
    requires ranked { IsRanked parts.now }
    requires bases { AreLinesOf parts.now bases.now }
    requires simple { AreSimple parts.now }
    requires own { IsType parts.now own }
    requires text { IsType parts.now text.of }
    ensures derived { IfOk result (λ answer. IsTrue answer ↔ spec.DerivesFromText parts.now own text.of text.is_restricted) }
{
    if text.is_restricted {
        derives_type_member(alloc, parts, own, text.of)
    } else {
        derives_type(alloc, parts, bases, own, text.of)
    }
}

// Whether a simple type derives from that of the text of a base.
fn derives_text(
    alloc: Global,
    parts: &Components,
    bases: &BaseLines,
    own: TypeId,
    base: TypeId,
) -> Result<bool, AllocError>
    requires ranked { IsRanked parts.now }
    requires bases { AreLinesOf parts.now bases.now }
    requires simple { AreSimple parts.now }
    requires contents { AreOwnThere parts.now }
    requires own { IsType parts.now own }
    requires base { IsType parts.now base }
    ensures derived { IfOk result (λ answer. IsTrue answer ↔ spec.IsTextDerived parts.now (Some own) base) }
{
    match text_type(parts, base) {
        None => Ok(false),
        Some(text) => derives_from(alloc, parts, bases, own, text),
    }
}

/// Whether a simple type, if there is one, derives from that of the text of a base.
pub(crate) fn is_text_derived(
    alloc: Global,
    parts: &Components,
    bases: &BaseLines,
    own: Option<TypeId>,
    base: TypeId,
) -> Result<bool, AllocError>
    requires ranked { IsRanked parts.now }
    requires bases { AreLinesOf parts.now bases.now }
    requires simple { AreSimple parts.now }
    requires contents { AreOwnThere parts.now }
    requires own { IfSome own (IsType parts.now) }
    requires base { IsType parts.now base }
    ensures derived { IfOk result (λ answer. IsTrue answer ↔ spec.IsTextDerived parts.now own base) }
{
    match own {
        None => Ok(true),
        Some(own) => derives_text(alloc, parts, bases, own, base),
    }
}
