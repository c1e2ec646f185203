ghost use Rattle.std.specs.Prelude.{◌≡◌, ◌<◌, ◌≤◌, ◌^◌, true, All, ℕ, length, slice_index, IfOk};
ghost use Rattle.component_references.specs.NumberedCircles.{refs_of, NeverRise};

use crate::graph::{number_at, refs_at};
use crate::search::set_levels;
use std::alloc::{AllocError, Global};
use xs_lists::Listed;

// Whether no part of these is above a level.
fn are_within(xs: &[u32], levels: &[u32], level: u32) -> bool
    ensures { result ≡ true → All (λ y. slice_index levels.now y ≤ level) xs.now }
{
    for x in xs {
        if number_at(levels, *x) > level {
            return false;
        }
    }
    true
}

// Whether no reference goes to a higher level.
fn never_rise(refs: &[Listed<u32>], levels: &[u32]) -> bool
    requires few { length refs.now < 2 ^ 32 }
    ensures { result ≡ true → NeverRise refs.now levels.now }
{
    for x in 0..refs.len() {
        let level = number_at(levels, x as u32);
        if !are_within(refs_at(refs, x), levels, level) {
            return false;
        }
    }
    true
}

/// Levels of parts, to none of which a reference goes from a lower one. Parts that come back to themselves are on the
/// level of what they lead to there; where levels are as they should be, all others are above what they refer to.
pub fn levels(alloc: Global, refs: &[Listed<u32>]) -> Result<Vec<u32>, AllocError>
    requires few { length refs.now < 2 ^ 32 }
    ensures level { IfOk result (λ levels. NeverRise refs.now levels.items) }
{
    let levels = set_levels(alloc, refs)?;
    if never_rise(refs, levels.as_slice()) {
        return Ok(levels);
    }
    Ok(Vec::new(alloc))
}
