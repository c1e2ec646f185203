//! Value constraints of attribute declarations and of attribute uses.

ghost use Rattle.std.specs.Prelude.{◌≡◌, ◌<◌, ℕ, IfOk, length};
ghost use Rattle.xs_codes.specs.Least.{IsLeast};
ghost use Rattle.derive_faults.specs.TypeFaults.{IsFirstCode};
ghost use Rattle.component_references.specs.Heights.{IsType};
ghost use Rattle.simple_types.specs.SimpleTypes.{IsWhole};
ghost use Rattle.derive_faults.specs.Given.{IsFound, AreRead};
ghost use Rattle.derive_faults.specs.Attributes as spec;
ghost use Rattle.derive_faults.specs.ValueFaults as faults;

use crate::set::ValueSet;
use crate::texts::text_code;
use crate::value_faults::PHASE;
use crate::value_ids::is_id_type;
use crate::values::loses_fixed;
use crate::{coded, earlier, when};
use simple_types::SimpleTypes;
use std::alloc::{AllocError, Global};
use xs_codes::{Code, Fault, sooner};
use xs_components::{AttrUse, AttributeDecl, AttributeId, TypeId, ValueConstraint};

// The first code of a constraint on an attribute, by its type.
fn value_code(
    alloc: Global,
    set: &ValueSet<'_>,
    types: &mut SimpleTypes,
    of: &TypeId,
    constraint: &ValueConstraint,
) -> Result<Option<Code>, AllocError>
    requires found { IsFound set.now }
    requires read { AreRead set.now.parts.now types.old }
    requires there { IsType set.now.parts.now of.now }
    requires whole { IsWhole types.old of.now }
    ensures first { IfOk result (IsFirstCode (spec.BreaksValue set.now.parts.now of.now constraint.now)) }
    ensures same { types.new ≡ types.old }
{
    let refused = text_code(alloc, types, Code::APropsCorrect2, *of, constraint)?;
    let of_id = is_id_type(set, of);
    Ok(earlier(refused, when(of_id, Code::APropsCorrect3)))
}

// The first code of an attribute declaration.
fn decl_code(
    alloc: Global,
    set: &ValueSet<'_>,
    types: &mut SimpleTypes,
    decl: &AttributeDecl,
) -> Result<Option<Code>, AllocError>
    requires found { IsFound set.now }
    requires read { AreRead set.now.parts.now types.old }
    requires there { IsType set.now.parts.now decl.now.of }
    requires whole { IsWhole types.old decl.now.of }
    ensures first { IfOk result (IsFirstCode (spec.BreaksDecl set.now.parts.now decl.now)) }
    ensures same { types.new ≡ types.old }
{
    match &decl.value {
        None => Ok(None),
        Some(constraint) => value_code(alloc, set, types, &decl.of, constraint),
    }
}

// The code of a constraint of a use that does not keep what the declaration fixes.
fn kept_code(
    alloc: Global,
    set: &ValueSet<'_>,
    types: &mut SimpleTypes,
    decl: &AttributeDecl,
    own: &ValueConstraint,
) -> Result<Option<Code>, AllocError>
    requires found { IsFound set.now }
    requires read { AreRead set.now.parts.now types.old }
    requires whole { IsWhole types.old decl.now.of }
    ensures first { IfOk result (IsFirstCode (spec.IsNotKept set.now.parts.now decl.now own.now)) }
    ensures same { types.new ≡ types.old }
{
    let fixed = decl.value.as_ref();
    let lost = loses_fixed(alloc, types, decl.of, Some(own), decl.of, fixed)?;
    Ok(when(lost, Code::AuPropsCorrect2))
}

// The first code of a use of a declaration, which has a constraint of its own.
fn own_code(
    alloc: Global,
    set: &ValueSet<'_>,
    types: &mut SimpleTypes,
    decl: &AttributeDecl,
    own: &ValueConstraint,
) -> Result<Option<Code>, AllocError>
    requires found { IsFound set.now }
    requires read { AreRead set.now.parts.now types.old }
    requires there { IsType set.now.parts.now decl.now.of }
    requires whole { IsWhole types.old decl.now.of }
    ensures first { IfOk result (IsFirstCode (spec.BreaksOwn set.now.parts.now decl.now own.now)) }
    ensures same { types.new ≡ types.old }
{
    let value = value_code(alloc, set, types, &decl.of, own)?;
    let kept = kept_code(alloc, set, types, decl, own)?;
    Ok(earlier(value, kept))
}

// The first code of an attribute use.
fn use_code(
    alloc: Global,
    set: &ValueSet<'_>,
    types: &mut SimpleTypes,
    part: &AttrUse,
) -> Result<Option<Code>, AllocError>
    requires found { IsFound set.now }
    requires read { AreRead set.now.parts.now types.old }
    ensures first { IfOk result (IsFirstCode (spec.BreaksUse set.now.parts.now part.now)) }
    ensures same { types.new ≡ types.old }
{
    let Some(own) = &part.value else {
        return Ok(None);
    };
    match set.parts.attributes().get(part.attribute.number() as usize) {
        None => Ok(None),
        Some(decl) => own_code(alloc, set, types, decl, own),
    }
}

// The first fault of an attribute declaration.
fn decl_fault(
    alloc: Global,
    set: &ValueSet<'_>,
    types: &mut SimpleTypes,
    id: AttributeId,
) -> Result<Option<Fault>, AllocError>
    requires found { IsFound set.now }
    requires read { AreRead set.now.parts.now types.old }
    requires there { id < length set.now.parts.now.attributes.parts }
    ensures least { IfOk result (IsLeast (spec.IsDeclAt set.now.parts.now id)) }
    ensures same { types.new ≡ types.old }
{
    let decl = set.parts.attribute(id);
    let code = decl_code(alloc, set, types, decl)?;
    Ok(coded(PHASE, decl.at, code))
}

// The first fault of attribute declarations.
fn first_of_decls(
    alloc: Global,
    set: &ValueSet<'_>,
    types: &mut SimpleTypes,
) -> Result<Option<Fault>, AllocError>
    requires found { IsFound set.now }
    requires read { AreRead set.now.parts.now types.old }
    ensures least { IfOk result (IsLeast (λ f. (n : ℕ) × spec.IsDeclAt set.now.parts.now n f)) }
    ensures same { types.new ≡ types.old }
{
    let mut best = None;
    let mut number = 0;
    while let Some(id) = set.parts.attribute_at(number) {
        let found = decl_fault(alloc, set, types, id)?;
        best = sooner(best, found);
        number += 1;
    }
    Ok(best)
}

// The first fault of some attribute uses.
fn first_of_uses(
    alloc: Global,
    set: &ValueSet<'_>,
    types: &mut SimpleTypes,
    uses: &[AttrUse],
) -> Result<Option<Fault>, AllocError>
    requires found { IsFound set.now }
    requires read { AreRead set.now.parts.now types.old }
    ensures least { IfOk result (IsLeast (spec.IsUseFault set.now.parts.now uses.now)) }
    ensures same { types.new ≡ types.old }
{
    let mut best = None;
    for part in uses {
        let code = use_code(alloc, set, types, part)?;
        best = sooner(best, coded(PHASE, part.at, code));
    }
    Ok(best)
}

// The first fault of the uses that are written in complex types.
fn first_of_types(
    alloc: Global,
    set: &ValueSet<'_>,
    types: &mut SimpleTypes,
) -> Result<Option<Fault>, AllocError>
    requires found { IsFound set.now }
    requires read { AreRead set.now.parts.now types.old }
    ensures least { IfOk result (IsLeast (λ f. (n : ℕ) × spec.IsTypeAt set.now.parts.now n f)) }
    ensures same { types.new ≡ types.old }
{
    let mut best = None;
    let mut number = 0;
    while let Some(id) = set.parts.complex_at(number) {
        let uses = set.parts.complex(id).uses.as_slice();
        let found = first_of_uses(alloc, set, types, uses)?;
        best = sooner(best, found);
        number += 1;
    }
    Ok(best)
}

// The first fault of the uses that are written in attribute groups.
fn first_of_groups(
    alloc: Global,
    set: &ValueSet<'_>,
    types: &mut SimpleTypes,
) -> Result<Option<Fault>, AllocError>
    requires found { IsFound set.now }
    requires read { AreRead set.now.parts.now types.old }
    ensures least { IfOk result (IsLeast (λ f. (n : ℕ) × spec.IsGroupAt set.now.parts.now n f)) }
    ensures same { types.new ≡ types.old }
{
    let mut best = None;
    let mut number = 0;
    while let Some(id) = set.parts.attr_group_at(number) {
        let uses = set.parts.attr_group(id).uses.as_slice();
        let found = first_of_uses(alloc, set, types, uses)?;
        best = sooner(best, found);
        number += 1;
    }
    Ok(best)
}

/// The first fault of attribute declarations and attribute uses.
pub(crate) fn first_of_attributes(
    alloc: Global,
    set: &ValueSet<'_>,
    types: &mut SimpleTypes,
) -> Result<Option<Fault>, AllocError>
    requires found { IsFound set.now }
    requires read { AreRead set.now.parts.now types.old }
    ensures least { IfOk result (IsLeast (faults.IsAttributeFault set.now.parts.now)) }
    ensures same { types.new ≡ types.old }
{
    let decls = first_of_decls(alloc, set, types)?;
    let in_types = first_of_types(alloc, set, types)?;
    let in_groups = first_of_groups(alloc, set, types)?;
    Ok(sooner(decls, sooner(in_types, in_groups)))
}
