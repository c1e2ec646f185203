//! What the text of an element comes to by its governing type.

ghost use Rattle.std.specs.Prelude.{◌≡◌, IfOk};
ghost use Rattle.std.specs.Option.{option_copied};
ghost use Rattle.xs_components.specs.Tables.{Tables};
ghost use Rattle.component_references.specs.Ranked.{IsRanked};
ghost use Rattle.simple_types.specs.SimpleTypes.{AreTypesOf, IsWhole};
ghost use Rattle.elem_assess.specs.Texts as spec;

use elem_codes::TextOutcome;
use simple_types::SimpleTypes;
use simple_values::{Value, same};
use std::alloc::{AllocError, Global};
use xs_components::{TypeId, ValueConstraint};
use xs_names::Scope;

// What a text comes to by a type, and by a fixed value, which is read in the scope of its schema element.
pub(crate) fn read_text(
    alloc: Global,
    types: &mut SimpleTypes,
    of: &TypeId,
    fixed: Option<&ValueConstraint>,
    text: &str,
    scope: &Scope,
) -> Result<TextOutcome, AllocError>
    ensures read { (t : Tables) → IsRanked t → AreTypesOf t types.old → IsWhole types.old of.now → IfOk result (spec.IsRead t of.now (option_copied fixed.entry) scope.now text.now) }
    ensures same { types.new ≡ types.old }
{
    match types.validate(alloc, *of, text, scope)? {
        Err(code) => Ok(TextOutcome::Invalid(code)),
        Ok(value) => {
            let met = is_met(alloc, types, of, fixed, &value)?;
            Ok(TextOutcome::Valid { value, met })
        }
    }
}

// Whether a value is the fixed one, if there is one.
fn is_met(
    alloc: Global,
    types: &mut SimpleTypes,
    of: &TypeId,
    fixed: Option<&ValueConstraint>,
    value: &Value,
) -> Result<bool, AllocError>
    ensures met { (t : Tables) → IsRanked t → AreTypesOf t types.old → IsWhole types.old of.now → IfOk result (spec.IsMet t of.now (option_copied fixed.entry) value.now) }
    ensures same { types.new ≡ types.old }
{
    let Some(fixed) = fixed else {
        return Ok(true);
    };
    match types.validate(alloc, *of, fixed.text.as_str(), &fixed.scope)? {
        Ok(fixed) => Ok(same(value, &fixed)),
        Err(_) => Ok(false),
    }
}
