//! Maps without an order.

ghost use Rattle.std.specs.Prelude.{◌≡◌, ℕ, ◌<◌, ◌↔◌, ◌||◌, false, length, slice_index_or, IsTrue, IfOk, MatchOption};
ghost use Rattle.particle_restrict.specs.Maps.{HasFirstMap, IsFirst, EachRestrictsSome};

use crate::pairs::Pairs;
use std::alloc::{AllocError, Global};

/// Whether each member restricts some member of the base, the first of these is that of no other member, and all members of the
/// base that are nobody's first may be left out (Structures 3.9.6, RecurseUnordered).
///
/// # Errors
/// When memory runs out.
pub fn has_first_map<P: Pairs>(
    alloc: Global,
    pairs: &P,
    members: usize,
    optional: &[bool],
) -> Result<bool, AllocError>
    requires valid { P.is_valid pairs.now }
    requires members { members ≡ P.count pairs.now }
    requires base { length optional.now ≡ P.base_count pairs.now }
    ensures map { IfOk result (λ fits. IsTrue fits ↔ HasFirstMap (P.restricts pairs.now) members optional.now) }
{
    let mut taken = vec![in alloc; false; optional.len()]?;
    for member in 0..members {
        let Some(target) = first_target(pairs, member, optional.len()) else {
            return Ok(false);
        };
        if taken[target] {
            return Ok(false);
        }
        taken[target] = true;
    }
    Ok(are_covered(&taken, optional))
}

/// Whether each member restricts some member of the base (Structures 3.9.6, MapAndSum).
pub fn each_restricts_some<P: Pairs>(pairs: &P, members: usize, base: usize) -> bool
    requires valid { P.is_valid pairs.now }
    requires members { members ≡ P.count pairs.now }
    requires base { base ≡ P.base_count pairs.now }
    ensures some { IsTrue result ↔ EachRestrictsSome (P.restricts pairs.now) members base }
{
    for member in 0..members {
        let Some(_) = first_target(pairs, member, base) else {
            return false;
        };
    }
    true
}

/// The first member of the base that a member restricts.
fn first_target<P: Pairs>(pairs: &P, member: usize, base: usize) -> Option<usize>
    requires valid { P.is_valid pairs.now }
    requires member { member < P.count pairs.now }
    requires base { base ≡ P.base_count pairs.now }
    ensures { MatchOption result ((j : ℕ) → j < base → P.restricts pairs.now member j → ⊥)
        (λ target. (target < base) × IsFirst (P.restricts pairs.now) member target) }
{
    for j in 0..base {
        if pairs.pair(member, j) {
            return Some(j);
        }
    }
    None
}

/// Whether each place is taken or optional.
fn are_covered(taken: &[bool], optional: &[bool]) -> bool
    requires { length taken.now ≡ length optional.now }
    ensures { IsTrue result ↔ ((j : ℕ) → j < length optional.now → IsTrue (slice_index_or taken.now j false || slice_index_or optional.now j false)) }
{
    for j in 0..optional.len() {
        if !taken[j] && !optional[j] {
            return false;
        }
    }
    true
}
