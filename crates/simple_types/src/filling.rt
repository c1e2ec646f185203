//! The simple types, judged in the order of their ranks.
ghost use Rattle.std.specs.Prelude.{◌≡◌, ◌<◌, length, set, IfOk, OnOk};
ghost use Rattle.component_references.specs.Order.{IsOrder};
ghost use Rattle.component_references.specs.Ranked.{IsRanked};
ghost use Rattle.simple_types.specs.Judging as spec;

use crate::forms::judged_part;
use crate::{JudgedType, TypeFacets};
use component_references::order_of;
use std::alloc::{AllocError, Global};
use xs_components::Components;

/// So many types, of which nothing is known yet.
pub(crate) fn unknown_types(alloc: Global, count: usize) -> Result<Vec<JudgedType>, AllocError>
    ensures { IfOk result (λ table. length table.items ≡ count) }
{
    let mut table = Vec::new(alloc);
    for _ in 0..count {
        table.push(JudgedType {
            of: TypeFacets::unknown(alloc),
            fault: None,
        })?;
    }
    Ok(table)
}

/// The simple types of a set, judged.
pub(crate) fn judged_simples(
    alloc: Global,
    parts: &Components,
) -> Result<Vec<JudgedType>, AllocError>
    requires ranked { IsRanked parts.now }
    ensures { IfOk result (λ table. spec.AreSimplesJudged parts.now table.items) }
{
    let order = order_of(alloc, parts.simple_ranks())?;
    let mut table = unknown_types(alloc, parts.simple_ranks().len())?;
    fill_simples(alloc, parts, order.as_slice(), table.as_mut_slice())?;
    Ok(table)
}

// Judges each type, those that it is made of before it.
fn fill_simples(
    alloc: Global,
    parts: &Components,
    order: &[u32],
    table: &mut [JudgedType],
) -> Result<(), AllocError>
    requires ranked { IsRanked parts.now }
    requires order { IsOrder (length parts.now.simples.parts) parts.now.simples.ranks order.now }
    requires alike { length table.old ≡ length parts.now.simples.parts }
    ensures { OnOk result (spec.AreSimplesJudged parts.now table.new) }
{
    for x in order {
        let judged = judged_number(alloc, parts, table, *x)?;
        put_at(table, *x, judged);
    }
    Ok(())
}

// Puts what judging a type came to into its place.
pub(crate) fn put_at(table: &mut [JudgedType], number: u32, judged: JudgedType)
    requires there { number < length table.old }
    ensures { table.new ≡ set table.old number judged }
{
    table[number as usize] = judged;
}

// The simple type of a number, judged.
fn judged_number(
    alloc: Global,
    parts: &Components,
    table: &[JudgedType],
    number: u32,
) -> Result<JudgedType, AllocError>
    requires there { number < length parts.now.simples.parts }
    ensures { IfOk result (λ judged. spec.IsSimpleAt parts.now table.now number judged) }
{
    match parts.simple_at(number) {
        Some(id) => judged_part(alloc, parts, table, parts.simple(id)),
        None => Err(AllocError),
    }
}
