//! The first redefining attribute group that is no restriction of what it redefines.

ghost use Rattle.std.specs.Prelude.{◌≡◌, ◌<◌, List, Bool, IfOk, length};
ghost use Rattle.component_tables.specs.Bases.{AreLinesOf};
ghost use Rattle.xs_codes.specs.Least.{IsLeast};
ghost use Rattle.attr_uses.specs.Tables.{AreTablesOf};
ghost use Rattle.derive_restriction.specs.Given.{AreGiven, AreTypes};
ghost use Rattle.derive_faults.specs.TypeFaults.{IsFirstCode};
ghost use Rattle.derive_restriction.specs.AttrGroupRestrictions as spec;

use crate::{ComparedSet, tables_code};
use derive_faults::{coded, when};
use redefine_names::RedefinedPair;
use simple_types::SimpleTypes;
use std::alloc::{AllocError, Global};
use xs_codes::{Code, Fault, sooner};
use xs_components::AttrGroupId;

// The phase of compiling that looks at derivation.
const PHASE: u8 = 7;

/// The first attribute group that redefines another without a reference to itself, and whose attribute uses and wildcard are no
/// valid restrictions of those of the other (src-redefine.7.2.2; Structures 3.4.6, Derivation Valid (Restriction, Complex), 2 to
/// 4): by document and item of what redefines. `pairs` has the numbers of these attribute groups and of what they redefine.
///
/// # Errors
///
/// `AllocError` is want of memory.
pub fn first_attr_group_fault(
    alloc: Global,
    set: &ComparedSet<'_>,
    types: &mut SimpleTypes,
    pairs: &[RedefinedPair],
) -> Result<Option<Fault>, AllocError>
    requires given { AreGiven set.now.parts.now set.now.names.now }
    requires bases { AreLinesOf set.now.parts.now set.now.bases.now }
    requires types { AreTypes set.now.parts.now types.old }
    requires tables { (ids : List Bool) × AreTablesOf set.now.parts.now ids set.now.tables.now }
    ensures least { IfOk result (IsLeast (spec.IsAttrGroupFault set.now.parts.now set.now.names.now pairs.now)) }
    ensures same { types.new ≡ types.old }
{
    let mut best = None;
    for pair in pairs {
        let found = fault_of(alloc, set, types, pair)?;
        best = sooner(best, found);
    }
    Ok(best)
}

// The fault of a pair.
fn fault_of(
    alloc: Global,
    set: &ComparedSet<'_>,
    types: &mut SimpleTypes,
    pair: &RedefinedPair,
) -> Result<Option<Fault>, AllocError>
    requires given { AreGiven set.now.parts.now set.now.names.now }
    requires bases { AreLinesOf set.now.parts.now set.now.bases.now }
    requires types { AreTypes set.now.parts.now types.old }
    requires tables { (ids : List Bool) × AreTablesOf set.now.parts.now ids set.now.tables.now }
    ensures least { IfOk result (IsLeast (spec.IsPairFault set.now.parts.now set.now.names.now pair.now)) }
    ensures same { types.new ≡ types.old }
{
    let Some(own) = set.parts.attr_group_at(pair.own) else {
        return Ok(None);
    };
    let Some(original) = set.parts.attr_group_at(pair.original) else {
        return Ok(None);
    };
    let code = pair_code(alloc, set, types, own, original)?;
    Ok(coded(PHASE, set.parts.attr_group(own).at, code))
}

// The code of one attribute group against another.
fn pair_code(
    alloc: Global,
    set: &ComparedSet<'_>,
    types: &mut SimpleTypes,
    own: AttrGroupId,
    original: AttrGroupId,
) -> Result<Option<Code>, AllocError>
    requires given { AreGiven set.now.parts.now set.now.names.now }
    requires bases { AreLinesOf set.now.parts.now set.now.bases.now }
    requires types { AreTypes set.now.parts.now types.old }
    requires tables { (ids : List Bool) × AreTablesOf set.now.parts.now ids set.now.tables.now }
    requires own { own < length set.now.parts.now.attr_groups.parts }
    requires original { original < length set.now.parts.now.attr_groups.parts }
    ensures first { IfOk result (IsFirstCode (spec.BreaksGroup set.now.parts.now set.now.names.now own original)) }
    ensures same { types.new ≡ types.old }
{
    let found = broken_code(alloc, set, types, own, original)?;
    Ok(when(found.is_some(), Code::SrcRedefine7_2_2))
}

// The first code of the attribute uses and the wildcard of one attribute group against another, where both have them.
fn broken_code(
    alloc: Global,
    set: &ComparedSet<'_>,
    types: &mut SimpleTypes,
    own: AttrGroupId,
    original: AttrGroupId,
) -> Result<Option<Code>, AllocError>
    requires given { AreGiven set.now.parts.now set.now.names.now }
    requires bases { AreLinesOf set.now.parts.now set.now.bases.now }
    requires types { AreTypes set.now.parts.now types.old }
    requires tables { (ids : List Bool) × AreTablesOf set.now.parts.now ids set.now.tables.now }
    requires own { own < length set.now.parts.now.attr_groups.parts }
    requires original { original < length set.now.parts.now.attr_groups.parts }
    ensures first { IfOk result (IsFirstCode (spec.BreaksTables set.now.parts.now set.now.names.now own original)) }
    ensures same { types.new ≡ types.old }
{
    match set.tables.of_group(own) {
        Err(_error) => Ok(None),
        Ok(own) => match set.tables.of_group(original) {
            Err(_error) => Ok(None),
            Ok(table) => tables_code(alloc, set, types, own, table),
        },
    }
}
