//! Which `all` a particle is, and which particles stand in a model group.

ghost use Rattle.std.specs.Prelude.{◌≡◌, ◌<◌, ℕ, length, IfSome, IfNone, option_map};
ghost use Rattle.component_references.specs.Ranked.{IsRanked, held_particles};
ghost use Rattle.content_models.specs.Ways.{group_below};
ghost use Rattle.schema_models.specs.AllLimits.{IsAllAt, all_in, all_at, members_at, is_one, comes_once, is_single};

use xs_components::{Components, ParticleId, Term};

// The particle of the group that a particle refers to.
fn group_below(parts: &Components, p: ParticleId) -> Option<ParticleId>
    requires ranked { IsRanked parts.now }
    requires there { p < length parts.now.particles.parts }
    ensures { result ≡ group_below parts.now p }
{
    match &parts.particle(p).term {
        Term::Group(group) => parts.group(*group).particle,
        Term::Element(_) | Term::Any(_) | Term::Sequence(_) | Term::Choice(_) | Term::All(_) => {
            None
        }
    }
}

/// The `all` that a particle is, directly or by references to groups.
pub(crate) fn find_all(parts: &Components, p: ParticleId) -> Option<ParticleId>
    requires ranked { IsRanked parts.now }
    requires there { p < length parts.now.particles.parts }
    ensures found { IfSome result (λ all. IsAllAt parts.now p all) }
    ensures none { IfNone result ((all : ℕ) → IsAllAt parts.now p all → ⊥) }
{
    let mut at = p;
    while let Some(below) = group_below(parts, at) {
        at = below;
    }
    match all_members(&parts.particle(at).term) {
        Some(_) => Some(at),
        None => None,
    }
}

/// The members of a term that is an `all`.
pub(crate) fn all_members(term: &Term) -> Option<&[ParticleId]>
    ensures { option_map (λ members. members.now) result ≡ all_in term.now }
{
    match term {
        Term::All(members) => Some(members.as_slice()),
        Term::Element(_) | Term::Any(_) | Term::Group(_) | Term::Sequence(_) | Term::Choice(_) => {
            None
        }
    }
}

/// The particles that a model group holds.
pub(crate) fn held(term: &Term) -> &[ParticleId]
    ensures { result.now ≡ held_particles term.now }
{
    match term {
        Term::Sequence(members) | Term::Choice(members) | Term::All(members) => members.as_slice(),
        Term::Element(_) | Term::Any(_) | Term::Group(_) => &[],
    }
}

/// Whether a particle comes once at most.
pub(crate) fn comes_once(parts: &Components, p: ParticleId) -> bool
    requires there { p < length parts.now.particles.parts }
    ensures { result ≡ comes_once parts.now p }
{
    let part = parts.particle(p);
    part.min < 2 && is_one(part.max)
}

// Whether a bound is 1.
fn is_one(most: Option<u32>) -> bool
    ensures { result ≡ is_one most }
{
    match most {
        Some(most) => most == 1,
        None => false,
    }
}

/// Whether a particle is an element or a wildcard that comes once at most.
pub(crate) fn is_single(parts: &Components, p: ParticleId) -> bool
    requires there { p < length parts.now.particles.parts }
    ensures { result ≡ is_single parts.now p }
{
    comes_once(parts, p) && parts.term(p).is_some()
}
