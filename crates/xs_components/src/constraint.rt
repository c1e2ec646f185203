ghost use Rattle.std.specs.Prelude.{◌≡◌, ◌<◌, ◌≤◌, ◌^◌, Some, length, slice_get, IfSome, IfNone, IfOk, OnOk, OnErr};
ghost use Rattle.xs_components.specs.Table.{with_part, with_rank};

use crate::{Components, Place};
use std::alloc::AllocError;
use std::marker::Model;
use xs_lists::Listed;
use xs_names::{NameId, Scope, Text};

/// The number of an identity constraint in its table, counted from 0 in the order of adding. Contracts see the number.
#[derive(Clone, Copy, PartialEq)]
pub struct ConstraintId {
    pub(crate) number: u32,
}

impl Model for ConstraintId {
    ghost use Rattle.std.specs.Prelude.{ℕ};

    ghost Value = { ℕ };

    ghost view = { λ id. id.number };

    ghost inverse = { λ n. record { number = n } };
}

impl ConstraintId {
    /// The number.
    pub fn number(&self) -> u32
        ensures { result ≡ self.now }
    {
        self.number
    }
}

/// Identity constraints, in the order of the document.
pub type ConstraintIdList = Listed<ConstraintId>;

/// What an identity constraint asks for (Structures 3.11.1).
#[derive(Clone, Copy)]
pub enum ConstraintKind {
    Unique,
    Key,
    /// The key or unique that it refers to.
    Keyref(ConstraintId),
}

/// A path as it is written, and the scope in which its prefixes are read.
#[derive(Drop)]
pub struct PathText {
    pub text: Text,
    pub at: Place,
    pub scope: Scope,
}

/// The paths of the fields, in order.
pub type PathTextList = Listed<PathText>;

/// An identity constraint definition (Structures 3.11.1).
#[derive(Drop)]
pub struct Constraint {
    pub name: NameId,
    pub at: Place,
    pub kind: ConstraintKind,
    pub selector: PathText,
    pub fields: PathTextList,
}

impl Components {
    /// Adds an identity constraint, of rank 0, and answers its number.
    pub fn add_constraint(&mut self, part: Constraint) -> Result<ConstraintId, AllocError>
        ensures number { IfOk result (λ id. id ≡ length self.old.constraints.parts) }
        ensures table { OnOk result (self.new ≡ record self.old { constraints = with_part self.old.constraints part }) }
        ensures err { OnErr result (self.new ≡ self.old) }
    {
        let number = self.constraints.add(part)?;
        Ok(ConstraintId { number })
    }

    /// The identity constraint of a number.
    pub fn constraint(&self, id: ConstraintId) -> &Constraint
        requires { id < length self.now.constraints.parts }
        ensures part { slice_get self.now.constraints.parts id ≡ Some result.now }
    {
        self.constraints.part(id.number)
    }

    /// The number of an identity constraint that wraps this one; `None` where the table has no such number.
    pub fn constraint_at(&self, number: u32) -> Option<ConstraintId>
        ensures there { IfSome result (λ id. (id ≡ number) × (number < length self.now.constraints.parts)) }
        ensures past { IfNone result (length self.now.constraints.parts ≤ number) }
        ensures few { length self.now.constraints.parts < 2 ^ 32 }
    {
        if (number as usize) < self.constraints.len() {
            Some(ConstraintId { number })
        } else {
            None
        }
    }

    /// The parts of the table, in the order of adding.
    pub fn constraints(&self) -> &[Constraint]
        ensures parts { result.now ≡ self.now.constraints.parts }
        ensures few { length self.now.constraints.parts < 2 ^ 32 }
    {
        self.constraints.as_slice()
    }

    /// Writes the rank of an identity constraint, and nothing else.
    pub fn rank_constraint(&mut self, id: ConstraintId, rank: u32)
        requires { id < length self.old.constraints.parts }
        ensures ranked { self.new ≡ record self.old { constraints = with_rank self.old.constraints id rank } }
    {
        self.constraints.set_rank(id.number, rank);
    }

    /// The ranks of the table, in the order of adding.
    pub fn constraint_ranks(&self) -> &[u32]
        ensures ranks { result.now ≡ self.now.constraints.ranks }
        ensures alike { length self.now.constraints.ranks ≡ length self.now.constraints.parts }
        ensures few { length self.now.constraints.parts < 2 ^ 32 }
    {
        self.constraints.ranks()
    }
}
