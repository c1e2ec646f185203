//! The first fault of phases 6 and 7: attributes and value constraints, and derivation.

ghost use Rattle.std.specs.Prelude.{◌≡◌, IfOk, IfNone};
ghost use Rattle.xs_codes.specs.Least.{IsLeast};
ghost use Rattle.schema_models.specs.SetModels.{AreContentsLimited};
ghost use Rattle.schema_check.specs.Phases.{IsFirstOfPhases};
ghost use Rattle.derive_faults.specs.ValueFaults.{IsValueFault};
ghost use Rattle.schema_compile.specs.Fit.{IsFit};
ghost use Rattle.schema_compile.specs.Outcomes as phases;
ghost use Rattle.schema_compile.specs.inside.Finding as spec;

use crate::finding::Found;
use derive_faults::{first_attr_fault, first_value_fault};
use derive_restriction::{DerivedSet, first_derivation_fault};
use schema_check::CompiledSet;
use std::alloc::{AllocError, Global};
use xs_codes::{Fault, sooner};

// The first fault of value constraints.
fn value_fault(
    alloc: Global,
    set: &mut CompiledSet,
    found: &Found,
) -> Result<Option<Fault>, AllocError>
    requires fit { IsFit set.old }
    requires found { spec.IsFound set.old.parts found.now }
    ensures least { IfOk result (IsLeast (IsValueFault set.old.parts)) }
    ensures same { set.new ≡ set.old }
{
    first_value_fault(
        alloc,
        &set.parts,
        &found.declarations,
        &found.contents,
        &mut set.types,
    )
}

// The first fault of phase 6.
fn attr_fault(
    alloc: Global,
    set: &mut CompiledSet,
    found: &Found,
) -> Result<Option<Fault>, AllocError>
    requires fit { IsFit set.old }
    requires found { spec.IsFound set.old.parts found.now }
    ensures least { IfOk result (phases.attr_phase set.old) }
    ensures same { set.new ≡ set.old }
{
    let uses = first_attr_fault(&set.parts, &found.attr_uses);
    let values = value_fault(alloc, set, found)?;
    Ok(sooner(uses, values))
}

// The first fault of phase 7.
fn derivation_fault(
    alloc: Global,
    set: &mut CompiledSet,
    found: &Found,
) -> Result<Option<Fault>, AllocError>
    requires fit { IsFit set.old }
    requires found { spec.IsFound set.old.parts found.now }
    requires there { spec.AreContentsThere set.old.parts }
    ensures least { IfOk result (phases.derivation_phase set.old) }
    ensures limited { IfOk result (λ fault. IfNone fault (AreContentsLimited set.old.parts)) }
    ensures same { set.new ≡ set.old }
{
    let derived = DerivedSet {
        names: &set.names,
        parts: &set.parts,
        declarations: &found.declarations,
        tables: &found.attr_uses,
        contents: &found.contents,
        redefined: &set.redefined.attr_groups,
    };
    first_derivation_fault(alloc, &derived, &mut set.types)
}

/// The first fault of phases 6 and 7.
pub(crate) fn first_fault(
    alloc: Global,
    set: &mut CompiledSet,
    found: &Found,
) -> Result<Option<Fault>, AllocError>
    requires fit { IsFit set.old }
    requires found { spec.IsFound set.old.parts found.now }
    requires there { spec.AreContentsThere set.old.parts }
    ensures first { IfOk result (IsFirstOfPhases (spec.early_phases set.old)) }
    ensures limited { IfOk result (λ fault. IfNone fault (AreContentsLimited set.old.parts)) }
    ensures same { set.new ≡ set.old }
{
    match attr_fault(alloc, set, found)? {
        Some(fault) => Ok(Some(fault)),
        None => derivation_fault(alloc, set, found),
    }
}
