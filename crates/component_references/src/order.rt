ghost use Rattle.std.specs.Prelude.{◌≡◌, ℕ, ◌<◌, ◌^◌, length, slice_index, IfOk};
ghost use Rattle.component_references.specs.Order.{IsOrder, AreNumbers};

use std::alloc::{AllocError, Global};

// The rank of a number; 0 past the last.
fn rank_at(ranks: &[u32], x: u32) -> u32
    ensures { result ≡ slice_index ranks.now x }
{
    if (x as usize) < ranks.len() {
        ranks[x as usize]
    } else {
        0
    }
}

// The numbers below a count.
fn numbers(alloc: Global, count: u32) -> Result<Vec<u32>, AllocError>
    ensures { IfOk result (λ all. AreNumbers count all.items) }
{
    let mut all = Vec::new(alloc);
    for x in 0..count {
        all.push(x)?;
    }
    Ok(all)
}

/// The numbers of all parts of one kind, lowest rank first, from the ranks of its table.
pub fn order_of(alloc: Global, ranks: &[u32]) -> Result<Vec<u32>, AllocError>
    requires few { length ranks.now < 2 ^ 32 }
    ensures order { IfOk result (λ order. IsOrder (length ranks.now) ranks.now order.items) }
{
    let mut order = numbers(alloc, ranks.len() as u32)?;
    order.sort_by_key(|x| rank_at(ranks, *x))?;
    Ok(order)
}
