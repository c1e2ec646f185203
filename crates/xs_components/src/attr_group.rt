ghost use Rattle.std.specs.Prelude.{◌≡◌, ◌<◌, ◌≤◌, ◌^◌, Some, length, slice_get, IfSome, IfNone, IfOk, OnOk, OnErr};
ghost use Rattle.xs_components.specs.Table.{with_part, with_rank, with_other};

use crate::{AttrUseList, Components, NameIdList, Place, Wildcard};
use std::alloc::AllocError;
use std::marker::Model;
use xs_lists::Listed;
use xs_names::NameId;

/// The number of an attribute group definition in its table, counted from 0 in the order of adding. Contracts see the number.
#[derive(Clone, Copy)]
pub struct AttrGroupId {
    pub(crate) number: u32,
}

impl Model for AttrGroupId {
    ghost use Rattle.std.specs.Prelude.{ℕ};

    ghost Value = { ℕ };

    ghost view = { λ id. id.number };

    ghost inverse = { λ n. record { number = n } };
}

impl AttrGroupId {
    /// The number.
    pub fn number(&self) -> u32
        ensures { result ≡ self.now }
    {
        self.number
    }
}

/// Attribute groups, in the order of the document.
pub type AttrGroupIdList = Listed<AttrGroupId>;

/// An attribute group definition (Structures 3.6.1).
#[derive(Drop)]
pub struct AttrGroupDef {
    pub name: NameId,
    pub at: Place,
    pub uses: AttrUseList,
    /// The groups that it refers to.
    pub groups: AttrGroupIdList,
    /// The names of attributes that are prohibited.
    pub prohibited: NameIdList,
    pub wildcard: Option<Wildcard>,
}

impl Components {
    /// Adds an attribute group definition, of rank 0, and answers its number.
    pub fn add_attr_group(&mut self, part: AttrGroupDef) -> Result<AttrGroupId, AllocError>
        ensures number { IfOk result (λ id. id ≡ length self.old.attr_groups.parts) }
        ensures table { OnOk result (self.new ≡ record self.old { attr_groups = with_part self.old.attr_groups part }) }
        ensures err { OnErr result (self.new ≡ self.old) }
    {
        let number = self.attr_groups.add(part)?;
        Ok(AttrGroupId { number })
    }

    /// The attribute group definition of a number.
    pub fn attr_group(&self, id: AttrGroupId) -> &AttrGroupDef
        requires { id < length self.now.attr_groups.parts }
        ensures part { slice_get self.now.attr_groups.parts id ≡ Some result.now }
    {
        self.attr_groups.part(id.number)
    }

    /// The number of an attribute group definition that wraps this one; `None` where the table has no such number.
    pub fn attr_group_at(&self, number: u32) -> Option<AttrGroupId>
        ensures there { IfSome result (λ id. (id ≡ number) × (number < length self.now.attr_groups.parts)) }
        ensures past { IfNone result (length self.now.attr_groups.parts ≤ number) }
        ensures few { length self.now.attr_groups.parts < 2 ^ 32 }
    {
        if (number as usize) < self.attr_groups.len() {
            Some(AttrGroupId { number })
        } else {
            None
        }
    }

    /// The parts of the table, in the order of adding.
    pub fn attr_groups(&self) -> &[AttrGroupDef]
        ensures parts { result.now ≡ self.now.attr_groups.parts }
        ensures few { length self.now.attr_groups.parts < 2 ^ 32 }
    {
        self.attr_groups.as_slice()
    }

    /// Writes the rank of an attribute group definition, and nothing else.
    pub fn rank_attr_group(&mut self, id: AttrGroupId, rank: u32)
        requires { id < length self.old.attr_groups.parts }
        ensures ranked { self.new ≡ record self.old { attr_groups = with_rank self.old.attr_groups id rank } }
    {
        self.attr_groups.set_rank(id.number, rank);
    }

    /// The ranks of the table, in the order of adding.
    pub fn attr_group_ranks(&self) -> &[u32]
        ensures ranks { result.now ≡ self.now.attr_groups.ranks }
        ensures alike { length self.now.attr_groups.ranks ≡ length self.now.attr_groups.parts }
        ensures few { length self.now.attr_groups.parts < 2 ^ 32 }
    {
        self.attr_groups.ranks()
    }

    /// Puts an attribute group definition in the place of another, which it drops, and changes nothing else.
    pub fn set_attr_group(&mut self, id: AttrGroupId, part: AttrGroupDef)
        requires { id < length self.old.attr_groups.parts }
        ensures part { self.new ≡ record self.old { attr_groups = with_other self.old.attr_groups id part } }
    {
        self.attr_groups.set(id.number, part);
    }
}
