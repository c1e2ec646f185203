//! The first restriction that its base does not allow.

ghost use Rattle.std.specs.Prelude.{◌≡◌, ◌⊎◌, ◌<◌, List, Bool, true, false, Some, Ok, IfOk, length, slice_get};
ghost use Rattle.xs_components.specs.declared.common.TypeId.TheVariants.{Complex};
ghost use Rattle.xs_codes.specs.Least.{IsLeast};
ghost use Rattle.component_references.specs.Heights.{IsType};
ghost use Rattle.component_tables.specs.Bases.{AreLinesOf};
ghost use Rattle.attr_uses.specs.Tables.{AreTablesOf, StandsFor, IsStore};
ghost use Rattle.attr_uses.specs.Uses.{AttrUses, uses_of, any_type_uses};
ghost use Rattle.component_tables.specs.ContentTypes.{AreContentsOf};
ghost use Rattle.particle_forms.specs.Ranges.{AreRangesOf};
ghost use Rattle.derive_faults.specs.TypeFaults.{IsFirstCode, IsFaultAt, IsTypeFault};
ghost use Rattle.derive_restriction.specs.Given.{AreGiven, AreTypes, AreKnown};
ghost use Rattle.derive_restriction.specs.Uses.{BreaksUses};
ghost use Rattle.derive_restriction.specs.Wildcards.{BreaksWildcard};
ghost use Rattle.derive_restriction.specs.Restrictions as spec;

use crate::ComparedSet;
use crate::contents::content_code;
use crate::uses::uses_code;
use crate::wildcards::wildcard_code;
use attr_uses::KeptTable;
use derive_faults::{coded, earlier, finals_of, when};
use simple_types::SimpleTypes;
use std::alloc::{AllocError, Global};
use xs_codes::{Code, Fault, sooner};
use xs_components::{ComplexId, ComplexType, Components, TypeId};

// The phase of compiling that looks at derivation.
const PHASE: u8 = 7;

// Whether the type is anyType.
fn is_any_type(of: &TypeId) -> bool
    ensures { result ≡ spec.is_any_type of.now }
{
    *of == TypeId::AnyType
}

/// The first code of the attribute uses and the wildcard of one table against another, as those of a restriction against those of
/// its base, which is not anyType (derivation-ok-restriction.2.1.1 to .4.3).
///
/// # Errors
///
/// `AllocError` is want of memory.
pub fn tables_code(
    alloc: Global,
    set: &ComparedSet<'_>,
    types: &mut SimpleTypes,
    own: KeptTable,
    base: KeptTable,
) -> Result<Option<Code>, AllocError>
    requires given { AreGiven set.now.parts.now set.now.names.now }
    requires bases { AreLinesOf set.now.parts.now set.now.bases.now }
    requires types { AreTypes set.now.parts.now types.old }
    requires store { IsStore set.now.tables.now.store }
    requires tables { (ids : List Bool) × (value also : AttrUses) × StandsFor set.now.parts.now ids set.now.tables.now.store own value × StandsFor set.now.parts.now ids set.now.tables.now.store base also }
    ensures first { (ids : List Bool) (value also : AttrUses) → StandsFor set.now.parts.now ids set.now.tables.now.store own value → StandsFor set.now.parts.now ids set.now.tables.now.store base also
        → IfOk result (IsFirstCode (λ code. BreaksUses set.now.parts.now set.now.names.now value also code ⊎ BreaksWildcard false value.wildcard also.wildcard code)) }
    ensures same { types.new ≡ types.old }
{
    let uses = uses_code(alloc, set, types, own, base)?;
    let wildcard = wildcard_code(false, set.tables.wildcard(own), set.tables.wildcard(base));
    Ok(earlier(uses, wildcard))
}

// The first code of the attributes of a type against those of anyType, which has no uses, and whose wildcard admits each name.
fn any_type_code(set: &ComparedSet<'_>, own: KeptTable, base: KeptTable) -> Option<Code>
    ensures { (ids : List Bool) (value : AttrUses) → StandsFor set.now.parts.now ids set.now.tables.now.store own value → StandsFor set.now.parts.now ids set.now.tables.now.store base any_type_uses
        → IsFirstCode (λ code. BreaksUses set.now.parts.now set.now.names.now value any_type_uses code ⊎ BreaksWildcard true value.wildcard any_type_uses.wildcard code) result }
{
    wildcard_code(true, set.tables.wildcard(own), set.tables.wildcard(base))
}

// The first code of the attributes of a type against those of its base, by the tables of both.
fn base_code(
    alloc: Global,
    set: &ComparedSet<'_>,
    types: &mut SimpleTypes,
    base: &TypeId,
    own: KeptTable,
    table: KeptTable,
) -> Result<Option<Code>, AllocError>
    requires given { AreGiven set.now.parts.now set.now.names.now }
    requires bases { AreLinesOf set.now.parts.now set.now.bases.now }
    requires types { AreTypes set.now.parts.now types.old }
    requires store { IsStore set.now.tables.now.store }
    requires tables { (ids : List Bool) × (value also : AttrUses) × StandsFor set.now.parts.now ids set.now.tables.now.store own value × StandsFor set.now.parts.now ids set.now.tables.now.store table also }
    ensures first { (ids : List Bool) (value also : AttrUses) → StandsFor set.now.parts.now ids set.now.tables.now.store own value → StandsFor set.now.parts.now ids set.now.tables.now.store table also → uses_of set.now.parts.now base.now ≡ Ok also
        → IfOk result (IsFirstCode (λ code. BreaksUses set.now.parts.now set.now.names.now value also code ⊎ BreaksWildcard (spec.is_any_type base.now) value.wildcard also.wildcard code)) }
    ensures same { types.new ≡ types.old }
{
    if is_any_type(base) {
        Ok(any_type_code(set, own, table))
    } else {
        tables_code(alloc, set, types, own, table)
    }
}

// The first code of the attributes of a type against those of its base, where both have tables.
fn attributes_code(
    alloc: Global,
    set: &ComparedSet<'_>,
    types: &mut SimpleTypes,
    id: ComplexId,
    base: &TypeId,
) -> Result<Option<Code>, AllocError>
    requires given { AreGiven set.now.parts.now set.now.names.now }
    requires bases { AreLinesOf set.now.parts.now set.now.bases.now }
    requires types { AreTypes set.now.parts.now types.old }
    requires tables { (ids : List Bool) × AreTablesOf set.now.parts.now ids set.now.tables.now }
    requires there { id < length set.now.parts.now.complexes.parts }
    requires base { IsType set.now.parts.now base.now }
    ensures first { IfOk result (IsFirstCode (spec.BreaksTables set.now.parts.now set.now.names.now id base.now)) }
    ensures same { types.new ≡ types.old }
{
    match set.tables.of_type(TypeId::Complex(id)) {
        Err(_error) => Ok(None),
        Ok(own) => match set.tables.of_type(*base) {
            Err(_error) => Ok(None),
            Ok(table) => base_code(alloc, set, types, base, own, table),
        },
    }
}

// The first code of a restriction.
fn first_code(
    alloc: Global,
    set: &ComparedSet<'_>,
    types: &mut SimpleTypes,
    id: ComplexId,
    part: &ComplexType,
) -> Result<Option<Code>, AllocError>
    requires known { AreKnown set.now }
    requires types { AreTypes set.now.parts.now types.old }
    requires part { slice_get set.now.parts.now.complexes.parts id ≡ Some part.now }
    ensures first { IfOk result (IsFirstCode (spec.BreaksAny set.now.parts.now set.now.names.now id part.now)) }
    ensures same { types.new ≡ types.old }
{
    let finals = finals_of(set.parts, part.base);
    let attributes = attributes_code(alloc, set, types, id, &part.base)?;
    let content = content_code(alloc, set, part)?;
    Ok(earlier(
        when(finals.restriction, Code::DerivationOkRestriction1),
        earlier(attributes, content),
    ))
}

// The first code of a complex type, if it is a restriction.
fn restriction_code(
    alloc: Global,
    set: &ComparedSet<'_>,
    types: &mut SimpleTypes,
    id: ComplexId,
    part: &ComplexType,
) -> Result<Option<Code>, AllocError>
    requires known { AreKnown set.now }
    requires types { AreTypes set.now.parts.now types.old }
    requires part { slice_get set.now.parts.now.complexes.parts id ≡ Some part.now }
    ensures first { IfOk result (IsFirstCode (spec.BreaksRestriction set.now.parts.now set.now.names.now id part.now)) }
    ensures same { types.new ≡ types.old }
{
    if part.by_extension {
        Ok(None)
    } else {
        first_code(alloc, set, types, id, part)
    }
}

// The first fault of a complex type.
fn fault_of(
    alloc: Global,
    set: &ComparedSet<'_>,
    types: &mut SimpleTypes,
    id: ComplexId,
) -> Result<Option<Fault>, AllocError>
    requires known { AreKnown set.now }
    requires types { AreTypes set.now.parts.now types.old }
    requires there { id < length set.now.parts.now.complexes.parts }
    ensures least { IfOk result (IsLeast (IsFaultAt 7 set.now.parts.now (spec.Breaks set.now.parts.now set.now.names.now) id)) }
    ensures same { types.new ≡ types.old }
{
    let part = set.parts.complex(id);
    let code = restriction_code(alloc, set, types, id, part)?;
    Ok(coded(PHASE, part.at, code))
}

/// The first complex type that restricts its base as this does not allow, but for its content model: the base is final for
/// restriction (derivation-ok-restriction.1); attribute uses (.2.1.1 to .3); the attribute wildcard (.4.1 to .4.3); simple,
/// empty and mixed content (.5.2, .5.3, .5.4.1).
///
/// # Errors
///
/// `AllocError` is want of memory.
pub fn first_restriction(
    alloc: Global,
    set: &ComparedSet<'_>,
    types: &mut SimpleTypes,
) -> Result<Option<Fault>, AllocError>
    requires known { AreKnown set.now }
    requires types { AreTypes set.now.parts.now types.old }
    ensures least { IfOk result (IsLeast (spec.IsRestrictionFault set.now.parts.now set.now.names.now)) }
    ensures same { types.new ≡ types.old }
{
    let mut best = None;
    let mut number = 0;
    while let Some(id) = set.parts.complex_at(number) {
        let found = fault_of(alloc, set, types, id)?;
        best = sooner(best, found);
        number += 1;
    }
    Ok(best)
}
