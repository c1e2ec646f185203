ghost use Rattle.std.specs.Prelude.{◌≡◌, ◌<◌, ◌≤◌, ◌^◌, Some, length, slice_get, IfSome, IfNone, IfOk, OnOk, OnErr};
ghost use Rattle.xs_components.specs.Table.{with_part, with_rank, with_change};
ghost use Rattle.xs_components.specs.Changes.{with_particle};

use crate::{Components, ParticleId, Place};
use std::alloc::AllocError;
use std::marker::Model;
use xs_names::NameId;

/// The number of a model group definition in its table, counted from 0 in the order of adding. Contracts see the number.
#[derive(Clone, Copy)]
pub struct GroupId {
    pub(crate) number: u32,
}

impl Model for GroupId {
    ghost use Rattle.std.specs.Prelude.{ℕ};

    ghost Value = { ℕ };

    ghost view = { λ id. id.number };

    ghost inverse = { λ n. record { number = n } };
}

impl GroupId {
    /// The number.
    pub fn number(&self) -> u32
        ensures { result ≡ self.now }
    {
        self.number
    }
}

/// A model group definition (Structures 3.7.1).
#[derive(Drop)]
pub struct GroupDef {
    pub name: NameId,
    pub at: Place,
    /// The particle of its model group, once there is one.
    pub particle: Option<ParticleId>,
}

impl Components {
    /// Adds a model group definition, of rank 0, and answers its number.
    pub fn add_group(&mut self, part: GroupDef) -> Result<GroupId, AllocError>
        ensures number { IfOk result (λ id. id ≡ length self.old.groups.parts) }
        ensures table { OnOk result (self.new ≡ record self.old { groups = with_part self.old.groups part }) }
        ensures err { OnErr result (self.new ≡ self.old) }
    {
        let number = self.groups.add(part)?;
        Ok(GroupId { number })
    }

    /// The model group definition of a number.
    pub fn group(&self, id: GroupId) -> &GroupDef
        requires { id < length self.now.groups.parts }
        ensures part { slice_get self.now.groups.parts id ≡ Some result.now }
    {
        self.groups.part(id.number)
    }

    /// The number of a model group definition that wraps this one; `None` where the table has no such number.
    pub fn group_at(&self, number: u32) -> Option<GroupId>
        ensures there { IfSome result (λ id. (id ≡ number) × (number < length self.now.groups.parts)) }
        ensures past { IfNone result (length self.now.groups.parts ≤ number) }
        ensures few { length self.now.groups.parts < 2 ^ 32 }
    {
        if (number as usize) < self.groups.len() {
            Some(GroupId { number })
        } else {
            None
        }
    }

    /// The parts of the table, in the order of adding.
    pub fn groups(&self) -> &[GroupDef]
        ensures parts { result.now ≡ self.now.groups.parts }
        ensures few { length self.now.groups.parts < 2 ^ 32 }
    {
        self.groups.as_slice()
    }

    /// Writes the rank of a model group definition, and nothing else.
    pub fn rank_group(&mut self, id: GroupId, rank: u32)
        requires { id < length self.old.groups.parts }
        ensures ranked { self.new ≡ record self.old { groups = with_rank self.old.groups id rank } }
    {
        self.groups.set_rank(id.number, rank);
    }

    /// The ranks of the table, in the order of adding.
    pub fn group_ranks(&self) -> &[u32]
        ensures ranks { result.now ≡ self.now.groups.ranks }
        ensures alike { length self.now.groups.ranks ≡ length self.now.groups.parts }
        ensures few { length self.now.groups.parts < 2 ^ 32 }
    {
        self.groups.ranks()
    }

    /// Writes the particle of a model group definition, and nothing else.
    pub fn set_particle(&mut self, id: GroupId, particle: ParticleId)
        requires { id < length self.old.groups.parts }
        ensures particle { self.new ≡ record self.old { groups = with_change self.old.groups id (with_particle particle) } }
    {
        self.groups.part_mut(id.number).particle = Some(particle);
    }
}
