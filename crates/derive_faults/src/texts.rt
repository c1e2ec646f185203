//! The texts of value constraints.

ghost use Rattle.std.specs.Prelude.{◌≡◌, IfOk};
ghost use Rattle.xs_components.specs.Tables.{Tables};
ghost use Rattle.component_references.specs.Ranked.{IsRanked};
ghost use Rattle.simple_types.specs.SimpleTypes.{AreTypesOf, IsWhole};
ghost use Rattle.derive_faults.specs.TypeFaults.{IsFirstCode};
ghost use Rattle.derive_faults.specs.Texts as spec;

use simple_types::SimpleTypes;
use simple_values::Value;
use std::alloc::{AllocError, Global};
use xs_codes::Code;
use xs_components::{TypeId, ValueConstraint};

// The code of why a text is not valid, where another code is broken by such a text.
fn refused_code(broken: Code, refusal: Code) -> Code
    ensures { result ≡ spec.refused_code broken refusal }
{
    match refusal {
        Code::XLimitValue => Code::XLimitValue,
        _ => broken,
    }
}

// The code of what a text comes to.
fn refusal(broken: Code, outcome: &Result<Value, Code>) -> Option<Code>
    ensures { result ≡ spec.refusal broken outcome.now }
{
    match outcome {
        Ok(_) => None,
        Err(code) => Some(refused_code(broken, *code)),
    }
}

/// The code of the text of a constraint that is not valid by a type: the code that such a text breaks, or that of a limit.
pub(crate) fn text_code(
    alloc: Global,
    types: &mut SimpleTypes,
    broken: Code,
    of: TypeId,
    constraint: &ValueConstraint,
) -> Result<Option<Code>, AllocError>
    ensures first { (t : Tables) → IsRanked t → AreTypesOf t types.old → IsWhole types.old of → IfOk result (IsFirstCode (spec.IsRefused t broken of constraint.now)) }
    ensures same { types.new ≡ types.old }
{
    let outcome = types.validate(alloc, of, constraint.text.as_str(), &constraint.scope)?;
    Ok(refusal(broken, &outcome))
}
