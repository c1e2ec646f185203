//! Fixed values of attributes.

ghost use Rattle.std.specs.Prelude.{◌≡◌, ◌↔◌, IsTrue, IfOk};
ghost use Rattle.std.specs.Option.{option_copied};
ghost use Rattle.xs_components.specs.Tables.{Tables};
ghost use Rattle.component_references.specs.Ranked.{IsRanked};
ghost use Rattle.simple_types.specs.SimpleTypes.{AreTypesOf, IsWhole};
ghost use Rattle.derive_faults.specs.Values as spec;

use simple_types::SimpleTypes;
use simple_values::{Value, same};
use std::alloc::{AllocError, Global};
use xs_codes::Code;
use xs_components::{AttrUse, AttributeDecl, TypeId, ValueConstraint};

/// The effective value constraint of an attribute use.
pub fn effective<'a>(part: &'a AttrUse, decl: &'a AttributeDecl) -> Option<&'a ValueConstraint>
    ensures { option_copied result ≡ spec.effective part.now decl.now }
{
    match &part.value {
        Some(own) => Some(own),
        None => decl.value.as_ref(),
    }
}

// Whether both texts have values, which are not the same.
fn other_values(a: &Result<Value, Code>, b: &Result<Value, Code>) -> bool
    ensures { result ≡ spec.other_values a.now b.now }
{
    match a {
        Ok(value) => match b {
            Ok(other) => !same(value, other),
            Err(_) => false,
        },
        Err(_) => false,
    }
}

// Whether the texts of two constraints have values, which are not the same.
fn has_other_value(
    alloc: Global,
    types: &mut SimpleTypes,
    of: TypeId,
    own: &ValueConstraint,
    base_of: TypeId,
    base: &ValueConstraint,
) -> Result<bool, AllocError>
    ensures lost { (t : Tables) → IsRanked t → AreTypesOf t types.old → IsWhole types.old of → IsWhole types.old base_of → IfOk result (λ answer. IsTrue answer ↔ spec.HasOtherValue t of base_of own.now base.now) }
    ensures same { types.new ≡ types.old }
{
    let value = types.validate(alloc, of, own.text.as_str(), &own.scope)?;
    let other = types.validate(alloc, base_of, base.text.as_str(), &base.scope)?;
    Ok(other_values(&value, &other))
}

// Whether a constraint, if there is one, does not fix the value of another.
fn is_lost(
    alloc: Global,
    types: &mut SimpleTypes,
    of: TypeId,
    own: Option<&ValueConstraint>,
    base_of: TypeId,
    base: &ValueConstraint,
) -> Result<bool, AllocError>
    ensures lost { (t : Tables) → IsRanked t → AreTypesOf t types.old → IsWhole types.old of → IsWhole types.old base_of → IfOk result (λ answer. IsTrue answer ↔ spec.IsLost t of base_of (option_copied own.entry) base.now) }
    ensures same { types.new ≡ types.old }
{
    match own {
        None => Ok(true),
        Some(own) => {
            if own.fixed {
                has_other_value(alloc, types, of, own, base_of, base)
            } else {
                Ok(true)
            }
        }
    }
}

/// Whether the base fixes a value, which is not kept.
pub fn loses_fixed(
    alloc: Global,
    types: &mut SimpleTypes,
    of: TypeId,
    own: Option<&ValueConstraint>,
    base_of: TypeId,
    base: Option<&ValueConstraint>,
) -> Result<bool, AllocError>
    ensures lost { (t : Tables) → IsRanked t → AreTypesOf t types.old → IsWhole types.old of → IsWhole types.old base_of → IfOk result (λ answer. IsTrue answer ↔ spec.LosesFixed t of base_of (option_copied own.entry) (option_copied base.entry)) }
    ensures same { types.new ≡ types.old }
{
    match base {
        None => Ok(false),
        Some(base) => {
            if base.fixed {
                is_lost(alloc, types, of, own, base_of, base)
            } else {
                Ok(false)
            }
        }
    }
}
