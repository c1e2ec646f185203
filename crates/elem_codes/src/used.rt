//! Which text of an element is used.

ghost use Rattle.std.specs.Prelude.{◌≡◌};
ghost use Rattle.std.specs.Option.{option_copied};
ghost use Rattle.elem_codes.specs.Used as spec;

use assess_records::{ElementShape, ValueSource};
use xs_components::ValueConstraint;
use xs_names::{Scope, Text};

/// The source of the text.
pub fn source_of(taken: bool) -> ValueSource
    ensures { result ≡ spec.source_of taken }
{
    if taken {
        ValueSource::Schema
    } else {
        ValueSource::Given
    }
}

/// The characters of the element, or those of the constraint that are taken.
pub fn text_used<'a>(
    taken: bool,
    constraint: Option<&'a ValueConstraint>,
    shape: &'a ElementShape,
) -> &'a Text
    ensures { result.now ≡ spec.text_used taken (option_copied constraint.entry) shape.now }
{
    match constraint {
        None => &shape.text,
        Some(constraint) => { if taken { &constraint.text } else { &shape.text } }
    }
}

/// The scope of the element, or that of the constraint whose text is taken.
pub fn scope_used<'a>(
    taken: bool,
    constraint: Option<&'a ValueConstraint>,
    shape: &'a ElementShape,
) -> &'a Scope
    ensures { result.now ≡ spec.scope_used taken (option_copied constraint.entry) shape.now }
{
    match constraint {
        None => &shape.scope,
        Some(constraint) => {
            if taken {
                &constraint.scope
            } else {
                &shape.scope
            }
        }
    }
}

/// The fixed value that the element's own text has to come to.
pub fn fixed_value<'a>(
    taken: bool,
    constraint: Option<&'a ValueConstraint>,
) -> Option<&'a ValueConstraint>
    ensures { option_copied result ≡ spec.fixed_value taken (option_copied constraint.entry) }
{
    match constraint {
        None => None,
        Some(constraint) => {
            if constraint.fixed && !taken {
                Some(constraint)
            } else {
                None
            }
        }
    }
}
