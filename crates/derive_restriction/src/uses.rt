//! The attribute uses of a restriction against those of its base.

ghost use Rattle.std.specs.Prelude.{◌≡◌, ◌↔◌, ◌+◌, ◌<◌, None, Some, List, Bool, IsTrue, IfOk, IfSome, length, slice_get};
ghost use Rattle.component_tables.specs.Bases.{AreLinesOf};
ghost use Rattle.xs_names.specs.Names.{space_of};
ghost use Rattle.std.specs.Option.{option_map, option_copied};
ghost use Rattle.xs_components.specs.Tables.{Tables};
ghost use Rattle.attr_uses.specs.Uses.{AttrUses};
ghost use Rattle.attr_uses.specs.Tables.{StandsFor, IsStore, IsNextUnlike};
ghost use Rattle.derive_faults.specs.TypeFaults.{IsFirstCode};
ghost use Rattle.derive_restriction.specs.Given.{AreGiven, AreTypes, IsDeclaration};
ghost use Rattle.derive_restriction.specs.Uses as spec;

use crate::ComparedSet;
use crate::types::derives_type;
use attr_uses::{AttrTables, KeptTable, UseAt, use_at};
use derive_faults::{earlier, effective, loses_fixed, when, when_not};
use simple_types::SimpleTypes;
use std::alloc::{AllocError, Global};
use xs_codes::Code;
use xs_components::{AttrUse, AttributeDecl, Components, Wildcard};

// An attribute use with its declaration.
#[derive(Clone, Copy)]
struct DeclaredUse<'a> {
    part: &'a AttrUse,
    decl: &'a AttributeDecl,
}

// The attribute use of a place, with its declaration.
fn declared_at(parts: &Components, at: Option<UseAt>) -> Option<DeclaredUse<'_>>
    ensures found { option_map spec.declared result ≡ spec.declared_at parts.now at }
{
    let part = use_at(parts, at?)?;
    match parts.attributes().get(part.attribute.number() as usize) {
        None => None,
        Some(decl) => Some(DeclaredUse { part, decl }),
    }
}

// The attribute use of the name of a number, with its declaration.
fn use_for<'a>(
    parts: &'a Components,
    tables: &AttrTables,
    table: KeptTable,
    name: u32,
) -> Option<DeclaredUse<'a>>
    requires store { IsStore tables.now.store }
    requires table { (t : Tables) × (ids : List Bool) × (value : AttrUses) × StandsFor t ids tables.now.store table value }
    ensures found { (ids : List Bool) (value : AttrUses) → StandsFor parts.now ids tables.now.store table value
        → option_map spec.declared result ≡ spec.use_for parts.now value.uses name }
{
    declared_at(parts, tables.use_numbered(table, name))
}

// The first code of two uses of one name.
fn both_code(
    alloc: Global,
    set: &ComparedSet<'_>,
    types: &mut SimpleTypes,
    own: &DeclaredUse<'_>,
    base: &DeclaredUse<'_>,
) -> Result<Option<Code>, AllocError>
    requires given { AreGiven set.now.parts.now set.now.names.now }
    requires bases { AreLinesOf set.now.parts.now set.now.bases.now }
    requires types { AreTypes set.now.parts.now types.old }
    requires own { IsDeclaration set.now.parts.now set.now.names.now own.now.decl.now }
    requires base { IsDeclaration set.now.parts.now set.now.names.now base.now.decl.now }
    ensures first { IfOk result (IsFirstCode (spec.BreaksName set.now.parts.now set.now.names.now None
        (Some (spec.declared own.now)) (Some (spec.declared base.now)))) }
    ensures same { types.new ≡ types.old }
{
    let derived = derives_type(alloc, set.parts, set.bases, own.decl.of, base.decl.of)?;
    let constraint = effective(own.part, own.decl);
    let base_constraint = effective(base.part, base.decl);
    let lost = loses_fixed(
        alloc,
        types,
        own.decl.of,
        constraint,
        base.decl.of,
        base_constraint,
    )?;
    Ok(three_codes(base.part.required, own.part.required, derived, lost))
}

// The first of the codes of two uses of one name.
fn three_codes(base_required: bool, required: bool, derived: bool, lost: bool) -> Option<Code>
    ensures { result ≡ spec.three_codes base_required required derived lost }
{
    earlier(
        when_not(base_required, required, Code::DerivationOkRestriction2_1_1),
        earlier(
            when(!derived, Code::DerivationOkRestriction2_1_2),
            when(lost, Code::DerivationOkRestriction2_1_3),
        ),
    )
}

// Whether a wildcard is there and admits the namespace of a name.
fn is_admitted(set: &ComparedSet<'_>, wildcard: Option<&Wildcard>, decl: &AttributeDecl) -> bool
    requires named { decl.now.name < length set.now.names.now.names }
    ensures { result ≡ spec.is_admitted (option_copied wildcard.entry) (space_of set.now.names.now decl.now.name) }
{
    match wildcard {
        None => false,
        Some(wildcard) => wildcard.namespaces.admits(set.names.ns(decl.name)),
    }
}

// The first code of a name, by the uses that the type and its base have.
fn name_code(
    alloc: Global,
    set: &ComparedSet<'_>,
    types: &mut SimpleTypes,
    wildcard: Option<&Wildcard>,
    own: Option<DeclaredUse<'_>>,
    base: Option<DeclaredUse<'_>>,
) -> Result<Option<Code>, AllocError>
    requires given { AreGiven set.now.parts.now set.now.names.now }
    requires bases { AreLinesOf set.now.parts.now set.now.bases.now }
    requires types { AreTypes set.now.parts.now types.old }
    requires own { IfSome own (λ u. IsDeclaration set.now.parts.now set.now.names.now u.decl.now) }
    requires base { IfSome base (λ u. IsDeclaration set.now.parts.now set.now.names.now u.decl.now) }
    ensures first { IfOk result (IsFirstCode (spec.BreaksName set.now.parts.now set.now.names.now (option_copied wildcard.entry)
        (option_map spec.declared own.entry) (option_map spec.declared base.entry))) }
    ensures same { types.new ≡ types.old }
{
    match own {
        Some(own) => match base {
            Some(base) => both_code(alloc, set, types, &own, &base),
            None => Ok(when(
                !is_admitted(set, wildcard, own.decl),
                Code::DerivationOkRestriction2_2,
            )),
        },
        None => match base {
            Some(base) => Ok(when(base.part.required, Code::DerivationOkRestriction3)),
            None => Ok(None),
        },
    }
}

// The first code of the name of a number.
fn code_at(
    alloc: Global,
    set: &ComparedSet<'_>,
    types: &mut SimpleTypes,
    own: KeptTable,
    base: KeptTable,
    name: u32,
) -> Result<Option<Code>, AllocError>
    requires given { AreGiven set.now.parts.now set.now.names.now }
    requires bases { AreLinesOf set.now.parts.now set.now.bases.now }
    requires types { AreTypes set.now.parts.now types.old }
    requires store { IsStore set.now.tables.now.store }
    requires tables { (ids : List Bool) × (value also : AttrUses) × StandsFor set.now.parts.now ids set.now.tables.now.store own value × StandsFor set.now.parts.now ids set.now.tables.now.store base also }
    ensures first { (ids : List Bool) (value also : AttrUses) → StandsFor set.now.parts.now ids set.now.tables.now.store own value → StandsFor set.now.parts.now ids set.now.tables.now.store base also
        → IfOk result (IsFirstCode (spec.BreaksName set.now.parts.now set.now.names.now also.wildcard (spec.use_for set.now.parts.now value.uses name) (spec.use_for set.now.parts.now also.uses name))) }
    ensures same { types.new ≡ types.old }
{
    let wildcard = set.tables.wildcard(base);
    let own = use_for(set.parts, set.tables, own, name);
    let base = use_for(set.parts, set.tables, base, name);
    name_code(alloc, set, types, wildcard, own, base)
}

// The next name behind this one for which two tables may have different first uses.
fn next_after(tables: &AttrTables, own: KeptTable, base: KeptTable, name: u32) -> Option<u32>
    requires store { IsStore tables.now.store }
    requires tables { (t : Tables) × (ids : List Bool) × (value also : AttrUses) × StandsFor t ids tables.now.store own value × StandsFor t ids tables.now.store base also }
    ensures next { (t : Tables) (ids : List Bool) (value also : AttrUses) → StandsFor t ids tables.now.store own value → StandsFor t ids tables.now.store base also → IsNextUnlike t value.uses also.uses (name + 1) result }
{
    if name < u32::MAX {
        tables.next_unlike(own, base, name + 1)
    } else {
        None
    }
}

/// The first code of the attribute uses of a type against those of its base.
pub(crate) fn uses_code(
    alloc: Global,
    set: &ComparedSet<'_>,
    types: &mut SimpleTypes,
    own: KeptTable,
    base: KeptTable,
) -> Result<Option<Code>, AllocError>
    requires given { AreGiven set.now.parts.now set.now.names.now }
    requires bases { AreLinesOf set.now.parts.now set.now.bases.now }
    requires types { AreTypes set.now.parts.now types.old }
    requires store { IsStore set.now.tables.now.store }
    requires tables { (ids : List Bool) × (value also : AttrUses) × StandsFor set.now.parts.now ids set.now.tables.now.store own value × StandsFor set.now.parts.now ids set.now.tables.now.store base also }
    ensures first { (ids : List Bool) (value also : AttrUses) → StandsFor set.now.parts.now ids set.now.tables.now.store own value → StandsFor set.now.parts.now ids set.now.tables.now.store base also
        → IfOk result (IsFirstCode (spec.BreaksUses set.now.parts.now set.now.names.now value also)) }
    ensures same { types.new ≡ types.old }
{
    let mut best = None;
    let mut next = set.tables.next_unlike(own, base, 0);
    while let Some(name) = next {
        let found = code_at(alloc, set, types, own, base, name)?;
        best = earlier(best, found);
        next = next_after(set.tables, own, base, name);
    }
    Ok(best)
}
