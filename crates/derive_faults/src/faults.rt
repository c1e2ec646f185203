//! The first fault of attribute uses and wildcards.

ghost use Rattle.std.specs.Prelude.{◌≡◌, ◌⊎◌, ◌<◌, ℕ, List, Bool, Ok, Err, length, slice_get};
ghost use Rattle.xs_components.specs.Tables.{Tables};
ghost use Rattle.xs_codes.specs.Least.{IsLeast};
ghost use Rattle.attr_uses.specs.Uses.{AttrUses};
ghost use Rattle.attr_uses.specs.Tables.{AreTablesOf, StandsFor, IsStore};
ghost use Rattle.derive_faults.specs.TypeFaults.{IsFirstCode};
ghost use Rattle.derive_faults.specs.AttrFaults as spec;

use crate::{coded, earlier, when};
use attr_uses::{AttrTables, KeptTable};
use xs_codes::{Code, Fault, sooner};
use xs_components::{AttrGroupId, ComplexId, Components, TypeId};

// The phase of compiling that looks at attributes and value constraints.
const PHASE: u8 = 6;

// The first code of the attribute uses of a table.
fn props_code(
    tables: &AttrTables,
    table: KeptTable,
    of_one_name: Code,
    of_ids: Code,
) -> Option<Code>
    requires store { IsStore tables.now.store }
    requires table { (t : Tables) × (ids : List Bool) × (value : AttrUses) × StandsFor t ids tables.now.store table value }
    ensures first { (t : Tables) (ids : List Bool) (value : AttrUses) → StandsFor t ids tables.now.store table value → IsFirstCode (spec.BreaksProps t ids of_one_name of_ids value) result }
{
    earlier(
        when(tables.has_two_of_one_name(table), of_one_name),
        when(tables.has_two_ids(table), of_ids),
    )
}

// The first fault of a complex type, or of what it is made of.
fn type_fault(parts: &Components, tables: &AttrTables, id: ComplexId) -> Option<Fault>
    requires tables { (ids : List Bool) × AreTablesOf parts.now ids tables.now }
    requires there { id < length parts.now.complexes.parts }
    ensures least { (ids : List Bool) → AreTablesOf parts.now ids tables.now → IsLeast (spec.IsTypeAt parts.now ids id) result }
{
    match tables.of_type(TypeId::Complex(id)) {
        Err(fault) => Some(fault),
        Ok(table) => {
            let code = props_code(tables, table, Code::CtPropsCorrect4, Code::CtPropsCorrect5);
            coded(PHASE, parts.complex(id).at, code)
        }
    }
}

// The first fault of an attribute group, or of what it is made of.
fn group_fault(parts: &Components, tables: &AttrTables, id: AttrGroupId) -> Option<Fault>
    requires tables { (ids : List Bool) × AreTablesOf parts.now ids tables.now }
    requires there { id < length parts.now.attr_groups.parts }
    ensures least { (ids : List Bool) → AreTablesOf parts.now ids tables.now → IsLeast (spec.IsGroupAt parts.now ids id) result }
{
    match tables.of_group(id) {
        Err(fault) => Some(fault),
        Ok(table) => {
            let code = props_code(tables, table, Code::AgPropsCorrect2, Code::AgPropsCorrect3);
            coded(PHASE, parts.attr_group(id).at, code)
        }
    }
}

// The first fault of complex types.
fn first_of_types(parts: &Components, tables: &AttrTables) -> Option<Fault>
    requires tables { (ids : List Bool) × AreTablesOf parts.now ids tables.now }
    ensures least { (ids : List Bool) → AreTablesOf parts.now ids tables.now → IsLeast (λ f. (n : ℕ) × spec.IsTypeAt parts.now ids n f) result }
{
    let mut best = None;
    let mut number = 0;
    while let Some(id) = parts.complex_at(number) {
        best = sooner(best, type_fault(parts, tables, id));
        number += 1;
    }
    best
}

// The first fault of attribute groups.
fn first_of_groups(parts: &Components, tables: &AttrTables) -> Option<Fault>
    requires tables { (ids : List Bool) × AreTablesOf parts.now ids tables.now }
    ensures least { (ids : List Bool) → AreTablesOf parts.now ids tables.now → IsLeast (λ f. (n : ℕ) × spec.IsGroupAt parts.now ids n f) result }
{
    let mut best = None;
    let mut number = 0;
    while let Some(id) = parts.attr_group_at(number) {
        best = sooner(best, group_fault(parts, tables, id));
        number += 1;
    }
    best
}

/// The first fault of the attribute uses and the wildcards of complex types and attribute groups: two uses of one name
/// (ct-props-correct.4, ag-props-correct.2), two of types of IDs (ct-props-correct.5, ag-props-correct.3), wildcards whose
/// intersection or union has no form (src-ct.4, src-ct.5, src-attribute_group.2).
pub fn first_attr_fault(parts: &Components, tables: &AttrTables) -> Option<Fault>
    requires tables { (ids : List Bool) × AreTablesOf parts.now ids tables.now }
    ensures least { (ids : List Bool) → AreTablesOf parts.now ids tables.now → IsLeast (spec.IsAttrFault parts.now ids) result }
{
    sooner(
        first_of_types(parts, tables),
        first_of_groups(parts, tables),
    )
}
