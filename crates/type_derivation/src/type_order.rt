ghost use Rattle.std.specs.Prelude.{◌≡◌, ◌+◌, ◌*◌, ◌<◌, ◌^◌, length, slice_index, IfOk};
ghost use Rattle.type_derivation.specs.Filled.{IsTypeOrder};
ghost use Rattle.type_derivation.specs.inside.Filling.{AreCounted};

use std::alloc::{AllocError, Global};

// The rank of a number; 0 past the last.
fn rank_at(ranks: &[u32], number: u32) -> u32
    ensures { result ≡ slice_index ranks.now number }
{
    if (number as usize) < ranks.len() {
        ranks[number as usize]
    } else {
        0
    }
}

// A number that rises with the rank of a type, and with the number of those of one rank.
fn key_at(ranks: &[u32], number: u32) -> u64
    ensures { result ≡ 4_294_967_296 * slice_index ranks.now number + number }
{
    4_294_967_296 * (rank_at(ranks, number) as u64) + (number as u64)
}

// The numbers below a count.
fn counted(alloc: Global, count: u32) -> Result<Vec<u32>, AllocError>
    ensures { IfOk result (λ numbers. AreCounted count numbers.items) }
{
    let mut numbers = Vec::new(alloc);
    for number in 0..count {
        numbers.push(number)?;
    }
    Ok(numbers)
}

/// The numbers of types by rank, and those of one rank by number.
pub(crate) fn types_in_order(alloc: Global, ranks: &[u32]) -> Result<Vec<u32>, AllocError>
    requires few { length ranks.now < 2 ^ 32 }
    ensures { IfOk result (λ order. IsTypeOrder (length ranks.now) ranks.now order.items) }
{
    let mut order = counted(alloc, ranks.len() as u32)?;
    order.sort_by_key(|number| key_at(ranks, *number))?;
    Ok(order)
}
