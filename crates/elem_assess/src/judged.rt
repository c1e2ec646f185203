//! The record of an element.

ghost use Rattle.std.specs.Prelude.{◌≡◌, ◌<◌, All, length, IfOk, IfSome};
ghost use Rattle.component_references.specs.Heights.{IsType};
ghost use Rattle.elem_assess.specs.Judged as spec;
ghost use Rattle.elem_assess.specs.Source.{IsSource};

use crate::outcomes::text_outcome;
use assess_records::ElementRecord;
use elem_codes::{ElementInput, ElementSource, element_record, facts_of};
use simple_types::SimpleTypes;
use simple_values::Value;
use std::alloc::{AllocError, Global};

/// What is found out about an element, and the value of its text, where that is valid by a simple type.
#[derive(Drop)]
pub struct JudgedElement {
    pub element: ElementRecord,
    pub value: Option<Value>,
}

/// The record of an element, and the value of its text, where that is valid by a simple type (Structures 3.3.4, 3.3.5,
/// 3.4.4). The names of its attributes are numbers of the table of names, and the
/// type that governs it is there.
///
/// # Errors
///
/// `AllocError` is want of memory.
pub fn judge_element(
    alloc: Global,
    source: ElementSource<'_>,
    types: &mut SimpleTypes,
    input: ElementInput<'_>,
) -> Result<JudgedElement, AllocError>
    requires source { IsSource source.parts.now source.contents.now types.old }
    requires there { IfSome input.governing.now.of (IsType source.parts.now) }
    requires named { All (λ a. a.name < length source.names.now.names) input.shape.now.attrs }
    ensures judged { IfOk result (λ judged. spec.IsElementJudged source.entry.names.now source.entry.parts.now input.entry.governing.now input.entry.said.now input.entry.shape.now input.entry.attrs.now input.entry.missing.now judged.element judged.value) }
    ensures same { types.new ≡ types.old }
{
    let facts = facts_of(alloc, source, input)?;
    let outcome = text_outcome(
        alloc,
        source,
        types,
        &input.governing.of,
        facts.nil,
        facts.constraint,
        input.shape,
    )?;
    let element = element_record(alloc, source, input, facts, &outcome)?;
    Ok(JudgedElement {
        element,
        value: outcome.into_value(),
    })
}
