//! The types that others are made of.
ghost use Rattle.std.specs.Prelude.{◌≡◌, IfOk};
ghost use Rattle.simple_types.specs.Lookup as spec;

use crate::{JudgedType, TypeFacets};
use facets::{Facets, Known};
use std::alloc::{AllocError, Global};
use xs_components::TypeId;

/// What is in force for a simple type: for one of the tables by the table of those that are judged.
pub(crate) fn looked_up(
    alloc: Global,
    table: &[JudgedType],
    of: &TypeId,
) -> Result<TypeFacets, AllocError>
    ensures { IfOk result (λ found. found ≡ spec.looked_up table.now of.now) }
{
    match of {
        TypeId::Builtin(kind) => Ok(TypeFacets {
            facets: Facets::of_builtin(alloc, *kind),
            known: Known::Whole,
        }),
        TypeId::Simple(id) => entry_at(alloc, table, id.number()),
        _ => Ok(TypeFacets::unknown(alloc)),
    }
}

/// What is in force for the type of a number.
pub(crate) fn entry_at(
    alloc: Global,
    table: &[JudgedType],
    number: u32,
) -> Result<TypeFacets, AllocError>
    ensures { IfOk result (λ found. found ≡ spec.entry_at table.now number) }
{
    if (number as usize) < table.len() {
        table[number as usize].of.try_clone(alloc)
    } else {
        Ok(TypeFacets::unknown(alloc))
    }
}
