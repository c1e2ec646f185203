//! Groups over groups, where it is known which member restricts which.

ghost use Rattle.std.specs.Prelude.{◌≡◌, ◌↔◌, IsTrue, IfOk, length};
ghost use Rattle.particle_restrict.specs.Groups.{IsRecurse, IsRecurseLax, IsRecurseUnordered, IsMapAndSum, GroupRestricts};

use crate::leaves::{range_ok, sum_ok};
use crate::{Pairs, each_restricts_some, has_first_map, has_lax_map, has_map};
use particle_models::{Bounds, Compositor};
use std::alloc::{AllocError, Global};

/// Whether a group restricts another. `emptiable` says which members of the other are emptiable.
pub(crate) fn group_restricts<P: Pairs>(
    alloc: Global,
    pairs: &P,
    bounds: Bounds,
    compositor: Compositor,
    members: usize,
    base: Bounds,
    base_compositor: Compositor,
    emptiable: &[bool],
) -> Result<bool, AllocError>
    requires valid { P.is_valid pairs.now }
    requires members { members ≡ P.count pairs.now }
    requires base { length emptiable.now ≡ P.base_count pairs.now }
    ensures { IfOk result (λ fits. IsTrue fits ↔ GroupRestricts (P.restricts pairs.now) bounds base members emptiable.now compositor base_compositor) }
{
    match compositor {
        Compositor::Sequence => match base_compositor {
            Compositor::Sequence => recurse(alloc, pairs, bounds, members, base, emptiable),
            Compositor::Choice => Ok(map_and_sum(pairs, bounds, members, base, emptiable)),
            Compositor::All => recurse_unordered(alloc, pairs, bounds, members, base, emptiable),
        },
        Compositor::Choice => match base_compositor {
            Compositor::Choice => recurse_lax(alloc, pairs, bounds, members, base, emptiable),
            Compositor::Sequence | Compositor::All => Ok(false),
        },
        Compositor::All => match base_compositor {
            Compositor::All => recurse(alloc, pairs, bounds, members, base, emptiable),
            Compositor::Sequence | Compositor::Choice => Ok(false),
        },
    }
}

/// Recurse (Structures 3.9.6).
fn recurse<P: Pairs>(
    alloc: Global,
    pairs: &P,
    bounds: Bounds,
    members: usize,
    base: Bounds,
    emptiable: &[bool],
) -> Result<bool, AllocError>
    requires valid { P.is_valid pairs.now }
    requires members { members ≡ P.count pairs.now }
    requires base { length emptiable.now ≡ P.base_count pairs.now }
    ensures { IfOk result (λ fits. IsTrue fits ↔ IsRecurse (P.restricts pairs.now) bounds base members emptiable.now) }
{
    if !range_ok(bounds, base) {
        return Ok(false);
    }
    let fits = has_map(alloc, pairs, members, emptiable)?;
    Ok(fits)
}

/// RecurseLax (Structures 3.9.6).
fn recurse_lax<P: Pairs>(
    alloc: Global,
    pairs: &P,
    bounds: Bounds,
    members: usize,
    base: Bounds,
    emptiable: &[bool],
) -> Result<bool, AllocError>
    requires valid { P.is_valid pairs.now }
    requires members { members ≡ P.count pairs.now }
    requires base { length emptiable.now ≡ P.base_count pairs.now }
    ensures { IfOk result (λ fits. IsTrue fits ↔ IsRecurseLax (P.restricts pairs.now) bounds base members emptiable.now) }
{
    if !range_ok(bounds, base) {
        return Ok(false);
    }
    let fits = has_lax_map(alloc, pairs, members, emptiable.len())?;
    Ok(fits)
}

/// RecurseUnordered (Structures 3.9.6).
fn recurse_unordered<P: Pairs>(
    alloc: Global,
    pairs: &P,
    bounds: Bounds,
    members: usize,
    base: Bounds,
    emptiable: &[bool],
) -> Result<bool, AllocError>
    requires valid { P.is_valid pairs.now }
    requires members { members ≡ P.count pairs.now }
    requires base { length emptiable.now ≡ P.base_count pairs.now }
    ensures { IfOk result (λ fits. IsTrue fits ↔ IsRecurseUnordered (P.restricts pairs.now) bounds base members emptiable.now) }
{
    if !range_ok(bounds, base) {
        return Ok(false);
    }
    let fits = has_first_map(alloc, pairs, members, emptiable)?;
    Ok(fits)
}

/// MapAndSum (Structures 3.9.6).
fn map_and_sum<P: Pairs>(
    pairs: &P,
    bounds: Bounds,
    members: usize,
    base: Bounds,
    emptiable: &[bool],
) -> bool
    requires valid { P.is_valid pairs.now }
    requires members { members ≡ P.count pairs.now }
    requires base { length emptiable.now ≡ P.base_count pairs.now }
    ensures { IsTrue result ↔ IsMapAndSum (P.restricts pairs.now) bounds base members emptiable.now }
{
    if !sum_ok(bounds, members, base) {
        return false;
    }
    each_restricts_some(pairs, members, emptiable.len())
}
