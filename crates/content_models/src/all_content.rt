//! Content models that are an `all`.

ghost use Rattle.std.specs.Prelude.{◌≡◌, ◌<◌, All, ◌++◌, map, length, IfSome, IfNone, IfOk, OnOk};
ghost use Rattle.std.specs.List.{flat_map};
ghost use Rattle.content_models.specs.declared.member.AllMember.{AllMember as AllMemberData};
ghost use Rattle.component_references.specs.Ranked.{IsRanked};
ghost use Rattle.content_models.specs.Ways.{group_below, is_optional, IsAllFound, IsNoAll, member_at};

use crate::AllMember;
use std::alloc::{AllocError, Global};
use xs_components::{Components, ParticleId, Term, TermId};

/// An `all` that a content model is: its members, and whether it may be left out.
#[derive(Clone, Copy)]
pub(crate) struct AllFound<'a> {
    pub(crate) members: &'a [ParticleId],
    pub(crate) optional: bool,
}

/// The `all` that a content model is, directly or by references to groups.
pub(crate) fn find_all(parts: &Components, p: ParticleId) -> Option<AllFound<'_>>
    requires ranked { IsRanked parts.now }
    requires there { p < length parts.now.particles.parts }
    ensures found { IfSome result (λ f. IsAllFound parts.now p f.members.now f.optional) }
    ensures none { IfNone result (IsNoAll parts.now p) }
{
    let mut at = p;
    let mut optional = is_optional(parts, at);
    while let Some(below) = group_below(parts, at) {
        at = below;
        optional |= is_optional(parts, at);
    }
    match &parts.particle(at).term {
        Term::All(members) => Some(AllFound {
            members: members.as_slice(),
            optional,
        }),
        Term::Element(_) | Term::Any(_) | Term::Group(_) | Term::Sequence(_) | Term::Choice(_) => {
            None
        }
    }
}

// The particle of the group that a particle refers to.
fn group_below(parts: &Components, id: ParticleId) -> Option<ParticleId>
    requires ranked { IsRanked parts.now }
    requires there { id < length parts.now.particles.parts }
    ensures { result ≡ group_below parts.now id }
{
    match &parts.particle(id).term {
        Term::Group(group) => parts.group(*group).particle,
        Term::Element(_) | Term::Any(_) | Term::Sequence(_) | Term::Choice(_) | Term::All(_) => {
            None
        }
    }
}

// Whether a particle may come no times.
fn is_optional(parts: &Components, id: ParticleId) -> bool
    requires there { id < length parts.now.particles.parts }
    ensures { result ≡ is_optional parts.now id }
{
    parts.particle(id).min == 0
}

/// The members of an `all`, and their terms.
#[derive(Drop)]
pub(crate) struct ReadMembers {
    pub(crate) members: Vec<AllMember>,
    pub(crate) ids: Vec<TermId>,
}

/// Reads the members of an `all` that are elements or wildcards.
pub(crate) fn read_members(
    alloc: Global,
    parts: &Components,
    members: &[ParticleId],
) -> Result<ReadMembers, AllocError>
    requires there { All (λ id. id < length parts.now.particles.parts) members.now }
    ensures members { IfOk result (λ r. r.members.items ≡ flat_map (member_at parts.now) members.now) }
    ensures ids { IfOk result (λ r. r.ids.items ≡ map (λ (m : AllMemberData). m.term) r.members.items) }
{
    let mut read = ReadMembers {
        members: Vec::new(alloc),
        ids: Vec::new(alloc),
    };
    for id in members {
        read.add(parts, *id)?;
    }
    Ok(read)
}

impl ReadMembers {
    // Adds a member, if it is an element or a wildcard.
    fn add(&mut self, parts: &Components, id: ParticleId) -> Result<(), AllocError>
        requires there { id < length parts.now.particles.parts }
        ensures members { OnOk result (self.new.members.items ≡ self.old.members.items ++ member_at parts.now id) }
        ensures ids { OnOk result (self.new.ids.items ≡ self.old.ids.items ++ map (λ (m : AllMemberData). m.term) (member_at parts.now id)) }
    {
        let Some(term) = parts.term(id) else {
            return Ok(());
        };
        let part = parts.particle(id);
        self.members.push(AllMember {
            term: term.number(),
            least: part.min,
            most: part.max,
        })?;
        self.ids.push(term)?;
        Ok(())
    }
}
