//! What the text of an attribute comes to.

ghost use Rattle.std.specs.Prelude.{◌≡◌, IfOk};
ghost use Rattle.std.specs.Option.{option_copied};
ghost use Rattle.xs_components.specs.Tables.{Tables};
ghost use Rattle.component_references.specs.Ranked.{IsRanked};
ghost use Rattle.simple_types.specs.SimpleTypes.{AreTypesOf, IsWhole};
ghost use Rattle.attr_assess.specs.Values as spec;

use simple_types::SimpleTypes;
use simple_values::{Value, same};
use std::alloc::{AllocError, Global};
use xs_codes::Code;
use xs_components::{TypeId, ValueConstraint};
use xs_names::Scope;

/// What the text of an attribute comes to.
#[derive(Drop)]
pub enum AttrText {
    /// It is not valid, for this code.
    Invalid(Code),
    /// A value, and whether it meets the constraints on it of the declaration and of the attribute use.
    Valid {
        value: Value,
        by_declaration: bool,
        by_use: bool,
    },
}

/// What a text comes to by a type, and by the constraints of a declaration and of an attribute use (Structures 3.2.4,
/// 3.5.4). The text of a fixed constraint is read in the scope of its schema element.
///
/// # Errors
///
/// `AllocError` is want of memory.
pub fn read_text(
    alloc: Global,
    types: &mut SimpleTypes,
    of: &TypeId,
    declared: Option<&ValueConstraint>,
    used: Option<&ValueConstraint>,
    text: &str,
    scope: &Scope,
) -> Result<AttrText, AllocError>
    ensures read { (t : Tables) → IsRanked t → AreTypesOf t types.old → IsWhole types.old of.now → IfOk result (spec.IsRead t of.now (option_copied declared.entry) (option_copied used.entry) scope.now text.now) }
    ensures same { types.new ≡ types.old }
{
    let outcome = types.validate(alloc, *of, text, scope)?;
    judged_text(alloc, types, of, declared, used, outcome)
}

// The same, of what the text comes to by the type alone.
fn judged_text(
    alloc: Global,
    types: &mut SimpleTypes,
    of: &TypeId,
    declared: Option<&ValueConstraint>,
    used: Option<&ValueConstraint>,
    outcome: Result<Value, Code>,
) -> Result<AttrText, AllocError>
    ensures judged { (t : Tables) → IsRanked t → AreTypesOf t types.old → IsWhole types.old of.now → IfOk result (spec.IsJudged t of.now (option_copied declared.entry) (option_copied used.entry) outcome) }
    ensures same { types.new ≡ types.old }
{
    match outcome {
        Err(code) => Ok(AttrText::Invalid(code)),
        Ok(value) => {
            let by_declaration = is_met(alloc, types, of, declared, &value)?;
            let by_use = is_met(alloc, types, of, used, &value)?;
            Ok(AttrText::Valid {
                value,
                by_declaration,
                by_use,
            })
        }
    }
}

// Whether a value meets a value constraint: it is the fixed one, if there is one.
fn is_met(
    alloc: Global,
    types: &mut SimpleTypes,
    of: &TypeId,
    constraint: Option<&ValueConstraint>,
    value: &Value,
) -> Result<bool, AllocError>
    ensures met { (t : Tables) → IsRanked t → AreTypesOf t types.old → IsWhole types.old of.now → IfOk result (spec.IsMet t of.now (option_copied constraint.entry) value.now) }
    ensures same { types.new ≡ types.old }
{
    match constraint {
        None => Ok(true),
        Some(constraint) => is_fixed_met(alloc, types, of, constraint, value),
    }
}

fn is_fixed_met(
    alloc: Global,
    types: &mut SimpleTypes,
    of: &TypeId,
    constraint: &ValueConstraint,
    value: &Value,
) -> Result<bool, AllocError>
    ensures met { (t : Tables) → IsRanked t → AreTypesOf t types.old → IsWhole types.old of.now → IfOk result (spec.IsFixedMet t of.now constraint.now.fixed constraint.now value.now) }
    ensures same { types.new ≡ types.old }
{
    if constraint.fixed {
        let text = constraint.text.as_str();
        let fixed = types.validate(alloc, *of, text, &constraint.scope)?;
        Ok(is_value(value, &fixed))
    } else {
        Ok(true)
    }
}

// Whether a value is the one that the text of a constraint comes to.
fn is_value(value: &Value, fixed: &Result<Value, Code>) -> bool
    ensures { result ≡ spec.is_value value.now fixed.now }
{
    match fixed {
        Ok(fixed) => same(value, fixed),
        Err(_) => false,
    }
}
