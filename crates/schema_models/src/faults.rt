//! The first fault of a particle that stands in a schema set.

ghost use Rattle.std.specs.Prelude.{◌≡◌, ◌<◌, All, length};
ghost use Rattle.component_references.specs.Ranked.{IsRanked};
ghost use Rattle.xs_codes.specs.Least.{IsLeast};
ghost use Rattle.schema_models.specs.AllLimits.{IsCrowded, IsRepeated, IsEmptyRepeated, IsNested, IsMisfit, IsUnlimitedAt, IsMemberMisfit, particle_fault};
ghost use Rattle.schema_models.specs.inside.Marks.{Among};

use crate::finding::{all_members, comes_once, find_all, held, is_single};
use xs_codes::{Code, Fault, sooner};
use xs_components::{Components, ParticleId};

// The phase of compiling that looks at groups by all.
const PHASE: u8 = 7;

// How many members an `all` may have.
const MOST_MEMBERS: usize = 64;

// The fault of a particle.
fn particle_fault(parts: &Components, p: ParticleId, code: Code) -> Fault
    requires there { p < length parts.now.particles.parts }
    ensures { result ≡ particle_fault parts.now p code }
{
    let at = parts.particle(p).at;
    Fault {
        phase: PHASE,
        document: at.document,
        item: at.item,
        code,
    }
}

// An `all` with too many members.
fn crowded(parts: &Components, p: ParticleId) -> Option<Fault>
    requires there { p < length parts.now.particles.parts }
    ensures { IsLeast (IsCrowded parts.now p) result }
{
    let members = all_members(&parts.particle(p).term)?;
    if members.len() <= MOST_MEMBERS {
        return None;
    }
    Some(particle_fault(parts, p, Code::XLimitAll))
}

// An `all` that comes otherwise than once at most.
fn repeated(parts: &Components, p: ParticleId) -> Option<Fault>
    requires ranked { IsRanked parts.now }
    requires there { p < length parts.now.particles.parts }
    ensures { IsLeast (IsRepeated parts.now p) result }
{
    if comes_once(parts, p) {
        return None;
    }
    nested(parts, p)
}

/// An `all` without members that comes otherwise than once at most.
pub(crate) fn repeated_empty(parts: &Components, p: ParticleId) -> Option<Fault>
    requires there { p < length parts.now.particles.parts }
    ensures { IsLeast (IsEmptyRepeated parts.now p) result }
{
    let members = all_members(&parts.particle(p).term)?;
    if !members.is_empty() || comes_once(parts, p) {
        return None;
    }
    Some(particle_fault(parts, p, Code::CosAllLimited1))
}

// An `all` as a member of a model group.
fn nested(parts: &Components, q: ParticleId) -> Option<Fault>
    requires ranked { IsRanked parts.now }
    requires there { q < length parts.now.particles.parts }
    ensures { IsLeast (IsNested parts.now q) result }
{
    let all = find_all(parts, q)?;
    Some(particle_fault(parts, all, Code::CosAllLimited1))
}

// A member of an `all` that is not an element that comes once at most.
fn misfit(parts: &Components, q: ParticleId) -> Option<Fault>
    requires there { q < length parts.now.particles.parts }
    ensures { IsLeast (IsMisfit parts.now q) result }
{
    if is_single(parts, q) {
        return None;
    }
    Some(particle_fault(parts, q, Code::CosAllLimited2))
}

// The first `all` among the members of a model group.
fn first_nested(parts: &Components, members: &[ParticleId]) -> Option<Fault>
    requires ranked { IsRanked parts.now }
    requires there { All (λ q. q < length parts.now.particles.parts) members.now }
    ensures { IsLeast (Among (IsNested parts.now) members.now) result }
{
    let mut best = None;
    for q in members {
        best = sooner(best, nested(parts, *q));
    }
    best
}

// The first of the members of an `all` that is none.
fn first_misfit(parts: &Components, members: &[ParticleId]) -> Option<Fault>
    requires there { All (λ q. q < length parts.now.particles.parts) members.now }
    ensures { IsLeast (Among (IsMisfit parts.now) members.now) result }
{
    let mut best = None;
    for q in members {
        best = sooner(best, misfit(parts, *q));
    }
    best
}

// The first fault of the members of an `all`.
fn first_member(parts: &Components, p: ParticleId) -> Option<Fault>
    requires ranked { IsRanked parts.now }
    requires there { p < length parts.now.particles.parts }
    ensures { IsLeast (IsMemberMisfit parts.now p) result }
{
    let members = all_members(&parts.particle(p).term)?;
    first_misfit(parts, members)
}

/// The first fault of a particle, and of its members.
pub(crate) fn first_at(parts: &Components, p: ParticleId) -> Option<Fault>
    requires ranked { IsRanked parts.now }
    requires there { p < length parts.now.particles.parts }
    ensures { IsLeast (IsUnlimitedAt parts.now p) result }
{
    let own = sooner(crowded(parts, p), repeated(parts, p));
    let nested = first_nested(parts, held(&parts.particle(p).term));
    sooner(own, sooner(nested, first_member(parts, p)))
}
