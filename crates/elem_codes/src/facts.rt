//! What the constraints on an element ask of it, and of what governs it.

ghost use Rattle.std.specs.Prelude.{◌≡◌, IfOk};
ghost use Rattle.std.specs.Option.{option_copied};
ghost use Rattle.elem_codes.specs.Facts as spec;

use assess_records::{AttrRecord, ChildCounts, ElementShape, Shared};
use component_tables::ContentTypes;
use elem_governing::{Governing, Mode, XsiType};
use std::alloc::{AllocError, Global};
use xs_components::{Components, ElementDecl, ValueConstraint};
use xs_names::{NameId, Names, Text, WhiteSpace, normalized};

/// What elements are judged by: the names and the components of a schema set, and the content types of its types.
#[derive(Clone, Copy)]
pub struct ElementSource<'a> {
    pub names: &'a Names,
    pub parts: &'a Components,
    pub contents: &'a ContentTypes,
}

/// An element that is to be judged.
#[derive(Clone, Copy)]
pub struct ElementInput<'a> {
    /// What governs it.
    pub governing: &'a Governing,
    /// What its attribute xsi:type says.
    pub said: &'a XsiType,
    /// What it has to show.
    pub shape: &'a ElementShape,
    /// The records of its attributes.
    pub attrs: &'a [Shared<AttrRecord>],
    /// The names of the required attributes that it lacks.
    pub missing: &'a [NameId],
}

/// The element declaration that governs, if there is one.
pub(crate) fn declaration_of<'a>(
    parts: &'a Components,
    governing: &Governing,
) -> Option<&'a ElementDecl>
    ensures { option_copied result ≡ spec.declaration_of parts.now governing.now }
{
    match governing.declaration {
        None => None,
        Some(declaration) => parts.elements().get(declaration.number() as usize),
    }
}

/// The value constraint of a declaration.
pub(crate) fn constraint_of<'a>(decl: Option<&'a ElementDecl>) -> Option<&'a ValueConstraint>
    ensures { option_copied result ≡ spec.constraint_of (option_copied decl.entry) }
{
    match decl {
        None => None,
        Some(decl) => decl.value.as_ref(),
    }
}

/// Whether a value constraint is there and fixed.
pub(crate) fn is_fixed(constraint: Option<&ValueConstraint>) -> bool
    ensures { result ≡ spec.is_fixed (option_copied constraint.entry) }
{
    match constraint {
        None => false,
        Some(constraint) => constraint.fixed,
    }
}

/// Whether an element is assessed strictly by its parent.
pub(crate) fn is_strict(mode: Mode) -> bool
    ensures { result ≡ spec.is_strict mode }
{
    match mode {
        Mode::Strict => true,
        Mode::Lax => false,
        Mode::Skip => false,
    }
}

/// Whether an element is skipped.
pub(crate) fn is_skipped(mode: Mode) -> bool
    ensures { result ≡ spec.is_skipped mode }
{
    match mode {
        Mode::Strict => false,
        Mode::Lax => false,
        Mode::Skip => true,
    }
}

/// Whether xsi:type names the governing type.
pub(crate) fn governs(said: &XsiType) -> bool
    ensures { result ≡ spec.governs said.now }
{
    match said {
        XsiType::Absent => false,
        XsiType::NotQName => false,
        XsiType::Unresolved => false,
        XsiType::NotDerived => false,
        XsiType::Governs(_) => true,
    }
}

/// Whether the element has a declaration, or a type from xsi:type.
pub(crate) fn is_strictly_assessed(governing: &Governing, said: &XsiType) -> bool
    ensures { result ≡ spec.is_strictly_assessed governing.now said.now }
{
    governing.declaration.is_some() || (!is_skipped(governing.mode) && governs(said))
}

fn has_children(counts: &ChildCounts) -> bool
    ensures { result ≡ spec.has_children counts.now }
{
    counts.valid != 0 || (counts.invalid != 0 || counts.not_known != 0)
}

/// Whether there are child elements.
pub fn has_elements(shape: &ElementShape) -> bool
    ensures { result ≡ spec.has_elements shape.now }
{
    has_children(&shape.counts)
}

/// Whether there are neither child elements nor characters.
pub(crate) fn is_bare(shape: &ElementShape) -> bool
    ensures { result ≡ spec.is_bare shape.now }
{
    !has_elements(shape) && shape.text.as_str().is_empty()
}

// Whether the value of a text as a boolean is true.
fn is_true(alloc: Global, text: &str) -> Result<bool, AllocError>
    ensures { IfOk result (λ answer. answer ≡ spec.is_true text.now) }
{
    let value = normalized(alloc, WhiteSpace::Collapse, text)?;
    Ok(value.as_str() == "true" || value.as_str() == "1")
}

fn says_nil(alloc: Global, xsi: Option<&Text>) -> Result<bool, AllocError>
    ensures { IfOk result (λ answer. answer ≡ spec.says_nil (option_copied xsi.entry)) }
{
    match xsi {
        None => Ok(false),
        Some(text) => is_true(alloc, text.as_str()),
    }
}

fn is_nillable(decl: Option<&ElementDecl>) -> bool
    ensures { result ≡ spec.is_nillable (option_copied decl.entry) }
{
    match decl {
        None => false,
        Some(decl) => decl.nillable,
    }
}

/// Whether the element is nil, by its declaration and the text of xsi:nil.
pub(crate) fn is_nil(
    alloc: Global,
    decl: Option<&ElementDecl>,
    xsi: Option<&Text>,
) -> Result<bool, AllocError>
    ensures { IfOk result (λ nil. nil ≡ spec.is_nil (option_copied decl.entry) (option_copied xsi.entry)) }
{
    if !is_nillable(decl) {
        return Ok(false);
    }
    says_nil(alloc, xsi)
}

/// Whether the element takes the text of the value constraint.
pub fn is_taken(nil: bool, constraint: Option<&ValueConstraint>, shape: &ElementShape) -> bool
    ensures { result ≡ spec.is_taken nil (option_copied constraint.entry) shape.now }
{
    constraint.is_some() && (!nil && is_bare(shape))
}
