//! What a component has by the attribute groups that it refers to.

ghost use Rattle.std.specs.Prelude.{◌≡◌, ◌<◌, List, Bool, Result, All, length, slice_get, map, IfOk};
ghost use Rattle.xs_codes.specs.declared.fault.Fault.{Fault};
ghost use Rattle.xs_components.specs.Tables.{Tables};
ghost use Rattle.attr_uses.specs.Written.{own_parts};
ghost use Rattle.attr_uses.specs.Uses as spec;
ghost use Rattle.attr_uses.specs.Uses.{AttrUses, group_uses, uses_with_groups};
ghost use Rattle.attr_uses.specs.Tables.{StandsFor, Answers};
ghost use Rattle.attr_uses.specs.declared.store.Store.{Store};
ghost use Rattle.attr_uses.specs.inside.Kept.{Keeps, IsTable, IsMade, IsAnswerAt, table_of, fault_of, with_next, table_or, accepted_uses};

use crate::own::{groups_in, no_form_in};
use crate::store::{KeptTable, Store};
use crate::wildcards::Joining;
use crate::{Join, UseHolder};
use std::alloc::{AllocError, Global};
use xs_codes::Fault;
use xs_components::{AttrGroupId, Components};

// A table, or the fault for which there is none.
pub(crate) type Answer = Result<KeptTable, Fault>;

impl Store {
    // The uses of a component and of its groups; `groups` has the tables of the groups that it refers to.
    pub(crate) fn with_own_groups(
        &mut self,
        alloc: Global,
        parts: &Components,
        ids: &[bool],
        groups: &[Answer],
        holder: UseHolder,
    ) -> Result<Answer, AllocError>
        requires deep { self.old.maps.depth ≡ 32 }
        requires groups { All (λ g. IsAnswerAt parts.now ids.now self.old (slice_get groups.now g) (group_uses parts.now g)) (own_parts parts.now holder).groups }
        ensures made { IfOk result (λ answer. Keeps self.old self.new × Answers parts.now ids.now self.new answer (uses_with_groups (group_uses parts.now) holder (own_parts parts.now holder))) }
    {
        match first_refused(groups, groups_in(parts, holder)) {
            Some(fault) => Ok(Err(fault)),
            None => self.with_accepted(alloc, parts, ids, groups, holder),
        }
    }

    // The uses of a component and of its groups, those that have tables.
    fn with_accepted(
        &mut self,
        alloc: Global,
        parts: &Components,
        ids: &[bool],
        groups: &[Answer],
        holder: UseHolder,
    ) -> Result<Answer, AllocError>
        requires deep { self.old.maps.depth ≡ 32 }
        requires groups { All (λ g. IsAnswerAt parts.now ids.now self.old (slice_get groups.now g) (group_uses parts.now g)) (own_parts parts.now holder).groups }
        ensures made { IfOk result (λ answer. Keeps self.old self.new
            × Answers parts.now ids.now self.new answer (accepted_uses (group_uses parts.now) holder (own_parts parts.now holder))) }
    {
        let named = groups_in(parts, holder);
        let own = self.own_table(parts, ids, holder)?;
        let made = self.with_groups(alloc, parts, ids, groups, named, own)?;
        Ok(or_fault(made, no_form_in(parts, holder)))
    }

    // A table and those of groups, one after another; None where an intersection of wildcards has no form.
    fn with_groups(
        &mut self,
        alloc: Global,
        parts: &Components,
        ids: &[bool],
        groups: &[Answer],
        named: &[AttrGroupId],
        own: KeptTable,
    ) -> Result<Option<KeptTable>, AllocError>
        requires groups { All (λ g. IsAnswerAt parts.now ids.now self.old (slice_get groups.now g) (group_uses parts.now g)) named.now }
        requires own { (value : AttrUses) × StandsFor parts.now ids.now self.old own value }
        ensures made { (value : AttrUses) → StandsFor parts.now ids.now self.old own value
            → IfOk result (λ made. Keeps self.old self.new × IsMade parts.now ids.now self.new made (spec.with_groups value (spec.accepted_groups (map (group_uses parts.now) named.now)))) }
    {
        let mut table = own;
        for group in named {
            let made = self.with_next(alloc, groups, table, *group)?;
            match made {
                Some(both) => table = both,
                None => return Ok(None),
            }
        }
        Ok(Some(table))
    }

    // A table and that of the group of a number, if it has one.
    fn with_next(
        &mut self,
        alloc: Global,
        groups: &[Answer],
        own: KeptTable,
        group: AttrGroupId,
    ) -> Result<Option<KeptTable>, AllocError>
        requires own { IsTable self.old own }
        requires group { (t : Tables) × (ids : List Bool) × (value : Result AttrUses Fault) × IsAnswerAt t ids self.old (slice_get groups.now group) value }
        ensures made { (t : Tables) (ids : List Bool) (a : AttrUses) (b : Result AttrUses Fault) → StandsFor t ids self.old own a → IsAnswerAt t ids self.old (slice_get groups.now group) b
            → IfOk result (λ made. Keeps self.old self.new × IsMade t ids self.new made (with_next a b)) }
    {
        match table_at(groups, group) {
            Some(other) => self.with_group(alloc, own, other),
            None => Ok(Some(own)),
        }
    }

    // A table and that of a group; None where the intersection of the wildcards has no form.
    fn with_group(
        &mut self,
        alloc: Global,
        own: KeptTable,
        group: KeptTable,
    ) -> Result<Option<KeptTable>, AllocError>
        requires own { IsTable self.old own }
        requires group { IsTable self.old group }
        ensures made { (t : Tables) (ids : List Bool) (a b : AttrUses) → StandsFor t ids self.old own a → StandsFor t ids self.old group b
            → IfOk result (λ made. Keeps self.old self.new × IsMade t ids self.new made (spec.with_group a b)) }
    {
        let wildcard = match self.joined(
            alloc,
            Joining::Intersection,
            own.wildcard,
            group.wildcard,
        )? {
            Some(wildcard) => wildcard,
            None => return Ok(None),
        };
        let uses = self.maps.combine(Join::Union, own.uses, group.uses)?;
        let prohibited = self
            .maps
            .combine(Join::Union, own.prohibited, group.prohibited)?;
        Ok(Some(KeptTable {
            uses,
            prohibited,
            wildcard,
        }))
    }
}

// The table of a group, if it has one.
fn table_at(groups: &[Answer], group: AttrGroupId) -> Option<KeptTable>
    ensures { result ≡ table_of (slice_get groups.now group) }
{
    match groups.get(group.number() as usize) {
        Some(Ok(table)) => Some(*table),
        Some(Err(_)) | None => None,
    }
}

// The fault of the first group that has no table for one.
fn first_refused(groups: &[Answer], named: &[AttrGroupId]) -> Option<Fault>
    ensures { (t : Tables) (ids : List Bool) (store : Store) → All (λ g. IsAnswerAt t ids store (slice_get groups.now g) (group_uses t g)) named.now
        → result ≡ spec.first_refusal (map (group_uses t) named.now) }
{
    for group in named {
        match fault_at(groups, *group) {
            Some(fault) => return Some(fault),
            None => {}
        }
    }
    None
}

// The fault of a group, if it has one.
fn fault_at(groups: &[Answer], group: AttrGroupId) -> Option<Fault>
    ensures { result ≡ fault_of (slice_get groups.now group) }
{
    match groups.get(group.number() as usize) {
        Some(Err(fault)) => Some(*fault),
        Some(Ok(_)) | None => None,
    }
}

// The table, or the fault where there is none.
pub(crate) fn or_fault(made: Option<KeptTable>, fault: Fault) -> Answer
    ensures { result ≡ table_or made fault }
{
    match made {
        Some(table) => Ok(table),
        None => Err(fault),
    }
}
