//! What the text of an element comes to.

ghost use Rattle.std.specs.Prelude.{◌≡◌, IfOk, IfSome};
ghost use Rattle.component_references.specs.Heights.{IsType};
ghost use Rattle.std.specs.Option.{option_copied};
ghost use Rattle.elem_assess.specs.Texts as spec;
ghost use Rattle.elem_assess.specs.Source.{IsSource};

use crate::texts::read_text;
use assess_records::ElementShape;
use component_tables::ContentType;
use elem_codes::{
    ElementSource, TextOutcome, fixed_value, has_elements, is_taken, scope_used, text_used,
};
use simple_types::SimpleTypes;
use std::alloc::{AllocError, Global};
use xs_components::{TypeId, ValueConstraint};

fn is_simple_content(content: ContentType) -> bool
    ensures { result ≡ spec.is_simple_content content }
{
    match content {
        ContentType::SimpleType => true,
        ContentType::Empty => false,
        ContentType::SimpleContent => true,
        ContentType::ElementOnly => false,
        ContentType::Mixed => false,
    }
}

// Whether the text is read by a simple type.
fn is_read(content: ContentType, nil: bool, shape: &ElementShape) -> bool
    ensures { result ≡ spec.is_read content nil shape.now }
{
    is_simple_content(content) && (!nil && !has_elements(shape))
}

/// What the text of an element comes to by the type that governs it, if one does.
pub(crate) fn text_outcome(
    alloc: Global,
    source: ElementSource<'_>,
    types: &mut SimpleTypes,
    of: &Option<TypeId>,
    nil: bool,
    constraint: Option<&ValueConstraint>,
    shape: &ElementShape,
) -> Result<TextOutcome, AllocError>
    requires source { IsSource source.parts.now source.contents.now types.old }
    requires there { IfSome of.now (IsType source.parts.now) }
    ensures outcome { IfOk result (spec.IsTextOutcome source.entry.parts.now of.now nil (option_copied constraint.entry) shape.now) }
    ensures same { types.new ≡ types.old }
{
    let Some(of) = of else {
        return Ok(TextOutcome::NotRead);
    };
    if !is_read(source.contents.content_of(*of), nil, shape) {
        return Ok(TextOutcome::NotRead);
    }
    let taken = is_taken(nil, constraint, shape);
    let text = text_used(taken, constraint, shape);
    let scope = scope_used(taken, constraint, shape);
    read_text(
        alloc,
        types,
        of,
        fixed_value(taken, constraint),
        text.as_str(),
        scope,
    )
}
