//! The record of an element, by what its text comes to.

ghost use Rattle.std.specs.Prelude.{◌≡◌, ◌<◌, ◌++◌, All, length, IfOk, OnOk};
ghost use Rattle.std.specs.Option.{option_copied};
ghost use Rattle.xs_components.specs.Tables.{Tables};
ghost use Rattle.component_tables.specs.ContentTypes.{AreContentsOf};
ghost use Rattle.elem_codes.specs.Codes.{local_codes};
ghost use Rattle.elem_codes.specs.Facts.{governing_content};
ghost use Rattle.elem_codes.specs.Records as spec;

use crate::codes::{push_declaration_codes, push_fixed_codes, push_nil_codes, push_type_codes};
use crate::content::push_governed_codes;
use crate::facts::{
    ElementInput, ElementSource, constraint_of, declaration_of, is_nil, is_strictly_assessed,
    is_taken,
};
use crate::outcome::TextOutcome;
use crate::records::{any_invalid, attempted_of, validity_of};
use crate::used::{fixed_value, source_of, text_used};
use assess_records::{Codes, ElementRecord, InstanceAttribute, instance_text};
use component_tables::{ContentType, ContentTypes};
use std::alloc::{AllocError, Global};
use xs_codes::Found;
use xs_components::{ElementDecl, TypeId, ValueConstraint};
use xs_names::Text;

/// What the codes of an element go by, beside what its text comes to.
#[derive(Clone, Copy)]
pub struct ElementFacts<'a> {
    /// The declaration that governs it.
    pub decl: Option<&'a ElementDecl>,
    /// The value constraint of the declaration.
    pub constraint: Option<&'a ValueConstraint>,
    /// The text of xsi:nil.
    pub xsi: Option<&'a Text>,
    /// Whether it is nil.
    pub nil: bool,
    /// Whether it takes the text of the value constraint.
    pub taken: bool,
}

// The content type of the governing type, if one governs.
fn governing_content(contents: &ContentTypes, of: Option<TypeId>) -> Option<ContentType>
    ensures { (t : Tables) → AreContentsOf t contents.now → result ≡ governing_content t of }
{
    match of {
        None => None,
        Some(of) => Some(contents.content_of(of)),
    }
}

// The codes of an element by itself, put behind others.
fn push_local_codes(
    codes: &mut Codes,
    source: ElementSource<'_>,
    input: ElementInput<'_>,
    facts: ElementFacts<'_>,
    outcome: &TextOutcome,
) -> Result<(), AllocError>
    requires named { All (λ a. a.name < length source.names.now.names) input.shape.now.attrs }
    requires contents { AreContentsOf source.parts.now source.contents.now }
    ensures { OnOk result (codes.new ≡ codes.old ++ local_codes source.entry.names.now source.entry.parts.now input.entry.governing.now input.entry.said.now input.entry.shape.now input.entry.missing.now outcome.now
        (option_copied facts.entry.decl) (option_copied facts.entry.constraint) (option_copied facts.entry.xsi) facts.entry.nil facts.entry.taken) }
{
    let content = governing_content(source.contents, input.governing.of);
    let text = text_used(facts.taken, facts.constraint, input.shape);
    let fixed = fixed_value(facts.taken, facts.constraint);
    push_declaration_codes(codes, input.governing, input.said, facts.decl)?;
    push_type_codes(codes, source.parts, input.governing, input.said)?;
    push_nil_codes(
        codes,
        facts.decl,
        facts.constraint,
        facts.xsi,
        facts.nil,
        input.shape,
    )?;
    push_governed_codes(
        codes,
        source.names,
        facts.nil,
        content,
        input.shape,
        text,
        outcome,
        input.missing,
    )?;
    push_fixed_codes(codes, facts.nil, content, fixed, input.shape, outcome)
}

// Puts codes behind others.
fn push_all(codes: &mut Codes, more: &[Found]) -> Result<(), AllocError>
    ensures { OnOk result (codes.new ≡ codes.old ++ more.now) }
{
    for found in more {
        codes.push(*found)?;
    }
    Ok(())
}

// All codes of an element: those of its identity constraints and of ids come last.
fn all_codes(
    alloc: Global,
    source: ElementSource<'_>,
    input: ElementInput<'_>,
    facts: ElementFacts<'_>,
    outcome: &TextOutcome,
) -> Result<Codes, AllocError>
    requires named { All (λ a. a.name < length source.names.now.names) input.shape.now.attrs }
    requires contents { AreContentsOf source.parts.now source.contents.now }
    ensures { IfOk result (λ codes. codes ≡ local_codes source.entry.names.now source.entry.parts.now input.entry.governing.now input.entry.said.now input.entry.shape.now input.entry.missing.now outcome.now
        (option_copied facts.entry.decl) (option_copied facts.entry.constraint) (option_copied facts.entry.xsi) facts.entry.nil facts.entry.taken
        ++ (input.entry.shape.now.identity ++ input.entry.shape.now.ids)) }
{
    let mut codes = Codes::new(alloc);
    push_local_codes(&mut codes, source, input, facts, outcome)?;
    push_all(&mut codes, input.shape.identity.as_slice())?;
    push_all(&mut codes, input.shape.ids.as_slice())?;
    Ok(codes)
}

// The record with these codes.
fn record_of(input: ElementInput<'_>, taken: bool, codes: Codes) -> ElementRecord
    ensures { result ≡ spec.record_with input.entry.governing.now input.entry.said.now input.entry.shape.now input.entry.attrs.now taken codes }
{
    let strictly = is_strictly_assessed(input.governing, input.said);
    let counts = &input.shape.counts;
    let below = any_invalid(input.attrs, counts);
    ElementRecord {
        name: input.shape.name,
        of: input.governing.of,
        validity: validity_of(&codes, strictly, below),
        attempted: attempted_of(strictly, input.attrs, counts),
        source: source_of(taken),
        codes,
    }
}

/// What the codes of an element go by.
///
/// # Errors
///
/// `AllocError` is want of memory.
pub fn facts_of<'a>(
    alloc: Global,
    source: ElementSource<'a>,
    input: ElementInput<'a>,
) -> Result<ElementFacts<'a>, AllocError>
    requires named { All (λ a. a.name < length source.names.now.names) input.shape.now.attrs }
    ensures decl { IfOk result (λ facts. option_copied facts.decl ≡ spec.decl source.entry.names.now source.entry.parts.now input.entry.governing.now input.entry.shape.now) }
    ensures constraint { IfOk result (λ facts. option_copied facts.constraint ≡ spec.constraint source.entry.names.now source.entry.parts.now input.entry.governing.now input.entry.shape.now) }
    ensures xsi { IfOk result (λ facts. option_copied facts.xsi ≡ spec.nil_text source.entry.names.now source.entry.parts.now input.entry.governing.now input.entry.shape.now) }
    ensures nil { IfOk result (λ facts. facts.nil ≡ spec.nil source.entry.names.now source.entry.parts.now input.entry.governing.now input.entry.shape.now) }
    ensures taken { IfOk result (λ facts. facts.taken ≡ spec.taken source.entry.names.now source.entry.parts.now input.entry.governing.now input.entry.shape.now) }
{
    let decl = declaration_of(source.parts, input.governing);
    let constraint = constraint_of(decl);
    let xsi = instance_text(
        source.names,
        input.shape.attrs.as_slice(),
        InstanceAttribute::Nil,
    );
    let nil = is_nil(alloc, decl, xsi)?;
    let taken = is_taken(nil, constraint, input.shape);
    Ok(ElementFacts {
        decl,
        constraint,
        xsi,
        nil,
        taken,
    })
}

/// The record of an element by what its text comes to (Structures 3.3.4, 3.3.5, 3.4.4), where the facts are those of the element.
///
/// # Errors
///
/// `AllocError` is want of memory.
pub fn element_record(
    alloc: Global,
    source: ElementSource<'_>,
    input: ElementInput<'_>,
    facts: ElementFacts<'_>,
    outcome: &TextOutcome,
) -> Result<ElementRecord, AllocError>
    requires named { All (λ a. a.name < length source.names.now.names) input.shape.now.attrs }
    requires contents { AreContentsOf source.parts.now source.contents.now }
    requires decl { option_copied facts.decl ≡ spec.decl source.names.now source.parts.now input.governing.now input.shape.now }
    requires constraint { option_copied facts.constraint ≡ spec.constraint source.names.now source.parts.now input.governing.now input.shape.now }
    requires xsi { option_copied facts.xsi ≡ spec.nil_text source.names.now source.parts.now input.governing.now input.shape.now }
    requires nil { facts.nil ≡ spec.nil source.names.now source.parts.now input.governing.now input.shape.now }
    requires taken { facts.taken ≡ spec.taken source.names.now source.parts.now input.governing.now input.shape.now }
    ensures { IfOk result (λ made. made ≡ spec.element_record source.entry.names.now source.entry.parts.now input.entry.governing.now input.entry.shape.now input.entry.said.now input.entry.missing.now outcome.now input.entry.attrs.now) }
{
    let codes = all_codes(alloc, source, input, facts, outcome)?;
    Ok(record_of(input, facts.taken, codes))
}
