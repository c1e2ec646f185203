ghost use Rattle.std.specs.Prelude.{◌≡◌, ◌<◌, ◌≤◌, ◌^◌, Some, length, slice_get, IfSome, IfNone, IfOk, OnOk, OnErr};
ghost use Rattle.xs_components.specs.Table.{with_part, with_rank};

use crate::{Components, Place, TypeId, ValueConstraint};
use std::alloc::AllocError;
use std::marker::Model;
use xs_lists::Listed;
use xs_names::NameId;

/// The number of an attribute declaration in its table, counted from 0 in the order of adding. Contracts see the number.
#[derive(Clone, Copy)]
pub struct AttributeId {
    pub(crate) number: u32,
}

impl Model for AttributeId {
    ghost use Rattle.std.specs.Prelude.{ℕ};

    ghost Value = { ℕ };

    ghost view = { λ id. id.number };

    ghost inverse = { λ n. record { number = n } };
}

impl AttributeId {
    /// The number.
    pub fn number(&self) -> u32
        ensures { result ≡ self.now }
    {
        self.number
    }
}

/// An attribute declaration (Structures 3.2.1).
#[derive(Drop)]
pub struct AttributeDecl {
    pub name: NameId,
    pub at: Place,
    /// Whether it stands at the top of a schema document.
    pub global: bool,
    pub of: TypeId,
    pub value: Option<ValueConstraint>,
}

/// A use of an attribute (Structures 3.5.1).
pub struct AttrUse {
    pub attribute: AttributeId,
    pub at: Place,
    pub required: bool,
    /// The value constraint of the use itself, apart from that of its declaration.
    pub value: Option<ValueConstraint>,
}

/// Attribute uses, in the order of the document.
pub type AttrUseList = Listed<AttrUse>;

impl Components {
    /// Adds an attribute declaration, of rank 0, and answers its number.
    pub fn add_attribute(&mut self, part: AttributeDecl) -> Result<AttributeId, AllocError>
        ensures number { IfOk result (λ id. id ≡ length self.old.attributes.parts) }
        ensures table { OnOk result (self.new ≡ record self.old { attributes = with_part self.old.attributes part }) }
        ensures err { OnErr result (self.new ≡ self.old) }
    {
        let number = self.attributes.add(part)?;
        Ok(AttributeId { number })
    }

    /// The attribute declaration of a number.
    pub fn attribute(&self, id: AttributeId) -> &AttributeDecl
        requires { id < length self.now.attributes.parts }
        ensures part { slice_get self.now.attributes.parts id ≡ Some result.now }
    {
        self.attributes.part(id.number)
    }

    /// The number of an attribute declaration that wraps this one; `None` where the table has no such number.
    pub fn attribute_at(&self, number: u32) -> Option<AttributeId>
        ensures there { IfSome result (λ id. (id ≡ number) × (number < length self.now.attributes.parts)) }
        ensures past { IfNone result (length self.now.attributes.parts ≤ number) }
        ensures few { length self.now.attributes.parts < 2 ^ 32 }
    {
        if (number as usize) < self.attributes.len() {
            Some(AttributeId { number })
        } else {
            None
        }
    }

    /// The parts of the table, in the order of adding.
    pub fn attributes(&self) -> &[AttributeDecl]
        ensures parts { result.now ≡ self.now.attributes.parts }
        ensures few { length self.now.attributes.parts < 2 ^ 32 }
    {
        self.attributes.as_slice()
    }

    /// Writes the rank of an attribute declaration, and nothing else.
    pub fn rank_attribute(&mut self, id: AttributeId, rank: u32)
        requires { id < length self.old.attributes.parts }
        ensures ranked { self.new ≡ record self.old { attributes = with_rank self.old.attributes id rank } }
    {
        self.attributes.set_rank(id.number, rank);
    }

    /// The ranks of the table, in the order of adding.
    pub fn attribute_ranks(&self) -> &[u32]
        ensures ranks { result.now ≡ self.now.attributes.ranks }
        ensures alike { length self.now.attributes.ranks ≡ length self.now.attributes.parts }
        ensures few { length self.now.attributes.parts < 2 ^ 32 }
    {
        self.attributes.ranks()
    }
}

impl Drop for AttrUse {
    fn drop(self) {
        let AttrUse {
            attribute: _,
            at: _,
            required: _,
            value,
        } = self;
        drop(value);
    }
}
