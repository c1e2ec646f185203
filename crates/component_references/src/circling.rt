ghost use Rattle.std.specs.Prelude.{◌≡◌, ◌<◌, ◌↔◌, true, All, length, slice_index, IfOk};
ghost use Rattle.component_references.specs.NumberedCircles.{IsWithin, NeverRise, Leads};

use crate::graph::{number_at, refs_at};
use crate::leading::reach;
use std::alloc::{AllocError, Global};
use xs_lists::Listed;

// Whether all of these parts are below a level.
fn are_below(xs: &[u32], levels: &[u32], level: u32) -> bool
    ensures { result ≡ true → All (λ y. slice_index levels.now y < level) xs.now }
{
    for x in xs {
        if number_at(levels, *x) >= level {
            return false;
        }
    }
    true
}

/// Whether a part comes back to itself, by levels that never rise along references: one above all that it refers to does
/// not.
pub fn comes_back(
    alloc: Global,
    refs: &[Listed<u32>],
    levels: &[u32],
    x: u32,
) -> Result<bool, AllocError>
    requires within { IsWithin refs.now }
    requires levels { NeverRise refs.now levels.now }
    requires there { x < length refs.now }
    ensures exact { IfOk result (λ back. (back ≡ true) ↔ Leads refs.now x x) }
{
    if are_below(refs_at(refs, x as usize), levels, number_at(levels, x)) {
        return Ok(false);
    }
    let seen = reach(alloc, refs, x)?;
    Ok(seen[x as usize])
}
