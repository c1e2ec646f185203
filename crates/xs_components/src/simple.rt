ghost use Rattle.std.specs.Prelude.{◌≡◌, ◌<◌, ◌≤◌, ◌^◌, Some, length, slice_get, IfSome, IfNone, IfOk, OnOk, OnErr};
ghost use Rattle.xs_components.specs.Table.{with_part, with_rank, with_other};

use crate::{Components, Methods, Place, TypeId, TypeIdList};
use std::alloc::AllocError;
use std::marker::Model;
use xs_lists::Listed;
use xs_names::{NameId, Scope, Text};

/// The number of a simple type in its table, counted from 0 in the order of adding. Contracts see the number.
#[derive(Clone, Copy, PartialEq, Eq)]
pub struct SimpleId {
    pub(crate) number: u32,
}

impl Model for SimpleId {
    ghost use Rattle.std.specs.Prelude.{ℕ};

    ghost Value = { ℕ };

    ghost view = { λ id. id.number };

    ghost inverse = { λ n. record { number = n } };
}

impl SimpleId {
    /// The number.
    pub fn number(&self) -> u32
        ensures { result ≡ self.now }
    {
        self.number
    }
}

/// The constraining facets (Datatypes 4.3).
#[derive(Clone, Copy, PartialEq)]
pub enum FacetKind {
    Length,
    MinLength,
    MaxLength,
    Pattern,
    Enumeration,
    WhiteSpace,
    MaxInclusive,
    MaxExclusive,
    MinExclusive,
    MinInclusive,
    TotalDigits,
    FractionDigits,
}

/// A facet as it is written: its value, and the scope in which the value is read.
#[derive(Drop)]
pub struct FacetItem {
    pub kind: FacetKind,
    pub text: Text,
    pub fixed: bool,
    pub at: Place,
    pub scope: Scope,
}

/// The facets of one step of restriction, in the order of the document.
pub type FacetStep = Listed<FacetItem>;

/// How a simple type is made from others (Structures 3.14.2).
#[derive(Drop)]
pub enum SimpleForm {
    /// A restriction of a base by facets.
    Restrict { base: TypeId, step: FacetStep },
    /// A list of items of a type.
    ListOf { item: TypeId },
    /// A union of member types.
    UnionOf { members: TypeIdList },
}

/// A simple type definition (Structures 3.14.1).
pub struct SimpleType {
    /// None for a type without a name of its own.
    pub name: Option<NameId>,
    pub at: Place,
    /// The methods by which no type is derived from this one.
    pub finals: Methods,
    pub form: SimpleForm,
}

impl Components {
    /// Adds a simple type, of rank 0, and answers its number.
    pub fn add_simple(&mut self, part: SimpleType) -> Result<SimpleId, AllocError>
        ensures number { IfOk result (λ id. id ≡ length self.old.simples.parts) }
        ensures table { OnOk result (self.new ≡ record self.old { simples = with_part self.old.simples part }) }
        ensures err { OnErr result (self.new ≡ self.old) }
    {
        let number = self.simples.add(part)?;
        Ok(SimpleId { number })
    }

    /// The simple type of a number.
    pub fn simple(&self, id: SimpleId) -> &SimpleType
        requires { id < length self.now.simples.parts }
        ensures part { slice_get self.now.simples.parts id ≡ Some result.now }
    {
        self.simples.part(id.number)
    }

    /// The number of a simple type that wraps this one; `None` where the table has no such number.
    pub fn simple_at(&self, number: u32) -> Option<SimpleId>
        ensures there { IfSome result (λ id. (id ≡ number) × (number < length self.now.simples.parts)) }
        ensures past { IfNone result (length self.now.simples.parts ≤ number) }
        ensures few { length self.now.simples.parts < 2 ^ 32 }
    {
        if (number as usize) < self.simples.len() {
            Some(SimpleId { number })
        } else {
            None
        }
    }

    /// The parts of the table, in the order of adding.
    pub fn simples(&self) -> &[SimpleType]
        ensures parts { result.now ≡ self.now.simples.parts }
        ensures few { length self.now.simples.parts < 2 ^ 32 }
    {
        self.simples.as_slice()
    }

    /// Writes the rank of a simple type, and nothing else.
    pub fn rank_simple(&mut self, id: SimpleId, rank: u32)
        requires { id < length self.old.simples.parts }
        ensures ranked { self.new ≡ record self.old { simples = with_rank self.old.simples id rank } }
    {
        self.simples.set_rank(id.number, rank);
    }

    /// The ranks of the table, in the order of adding.
    pub fn simple_ranks(&self) -> &[u32]
        ensures ranks { result.now ≡ self.now.simples.ranks }
        ensures alike { length self.now.simples.ranks ≡ length self.now.simples.parts }
        ensures few { length self.now.simples.parts < 2 ^ 32 }
    {
        self.simples.ranks()
    }

    /// Puts a simple type in the place of another, which it drops, and changes nothing else.
    pub fn set_simple(&mut self, id: SimpleId, part: SimpleType)
        requires { id < length self.old.simples.parts }
        ensures part { self.new ≡ record self.old { simples = with_other self.old.simples id part } }
    {
        self.simples.set(id.number, part);
    }
}

impl Drop for SimpleType {
    fn drop(self) {
        let SimpleType {
            name: _,
            at: _,
            finals: _,
            form,
        } = self;
        drop(form);
    }
}
