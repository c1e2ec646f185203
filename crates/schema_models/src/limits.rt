//! The first fault of an `all`.

ghost use Rattle.std.specs.Prelude.{◌≡◌, ◌<◌, ◌≤◌, ℕ, length, IfOk, IfNone};
ghost use Rattle.component_references.specs.Ranked.{IsRanked};
ghost use Rattle.xs_codes.specs.Least.{IsLeast};
ghost use Rattle.schema_models.specs.SetModels.{AreContentsLimited};
ghost use Rattle.schema_models.specs.AllLimits.{AreContentsThere, IsUnlimited, IsUnlimitedAt};
ghost use Rattle.schema_models.specs.inside.Marks.{AreStanding, IsUnlimitedIn, marked};

use crate::faults::{first_at, repeated_empty};
use crate::standing::standing;
use std::alloc::{AllocError, Global};
use xs_codes::{Fault, sooner};
use xs_components::{Components, ParticleId};

// The first fault of a particle, if it stands in the schema set; elsewhere an `all` without members may be repeated.
fn first_in(parts: &Components, marks: &[bool], p: ParticleId) -> Option<Fault>
    requires ranked { IsRanked parts.now }
    requires there { p < length parts.now.particles.parts }
    requires marks { AreStanding parts.now marks.now }
    ensures { IsLeast (IsUnlimitedIn parts.now p) result }
{
    if !marks[p.number() as usize] {
        return repeated_empty(parts, p);
    }
    first_at(parts, p)
}

// The first fault of all particles.
fn first_marked(parts: &Components, marks: &[bool]) -> Option<Fault>
    requires ranked { IsRanked parts.now }
    requires marks { AreStanding parts.now marks.now }
    ensures { IsLeast (IsUnlimited parts.now) result }
{
    let mut best = None;
    let mut number = 0;
    while let Some(p) = parts.particle_at(number) {
        best = sooner(best, first_in(parts, marks, p));
        number += 1;
    }
    best
}

/// The first fault of an `all` in a schema set (Structures 3.8.6): too many members; not the whole of a content, or repeated, also
/// where it has no members; a member that is repeated. Where there is none, each content model that an `all` stands in is that `all`, as limited as it must
/// be.
///
/// # Errors
///
/// `AllocError` is want of memory.
pub fn first_unlimited(alloc: Global, parts: &Components) -> Result<Option<Fault>, AllocError>
    requires ranked { IsRanked parts.now }
    requires contents { AreContentsThere parts.now }
    ensures least { IfOk result (IsLeast (IsUnlimited parts.now)) }
    ensures limited { IfOk result (λ found. IfNone found (AreContentsLimited parts.now)) }
{
    let marks = standing(alloc, parts)?;
    Ok(first_marked(parts, &marks))
}
