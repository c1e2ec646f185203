ghost use Rattle.std.specs.Prelude.{◌≡◌, ◌<◌, ◌≤◌, ◌^◌, Some, length, slice_get, IfSome, IfNone, IfOk, OnOk, OnErr};
ghost use Rattle.xs_components.specs.Table.{with_part, with_rank, with_change};
ghost use Rattle.xs_components.specs.Changes.{with_head, with_constraints};

use crate::{Components, ConstraintIdList, Methods, Place, TypeId, ValueConstraint};
use std::alloc::AllocError;
use std::marker::Model;
use xs_names::NameId;

/// The number of an element declaration in its table, counted from 0 in the order of adding. Contracts see the number.
#[derive(Clone, Copy, PartialEq)]
pub struct ElementId {
    pub(crate) number: u32,
}

impl Model for ElementId {
    ghost use Rattle.std.specs.Prelude.{ℕ};

    ghost Value = { ℕ };

    ghost view = { λ id. id.number };

    ghost inverse = { λ n. record { number = n } };
}

impl ElementId {
    /// The number.
    pub fn number(&self) -> u32
        ensures { result ≡ self.now }
    {
        self.number
    }
}

/// An element declaration (Structures 3.3.1).
#[derive(Drop)]
pub struct ElementDecl {
    pub name: NameId,
    pub at: Place,
    /// Whether it stands at the top of a schema document.
    pub global: bool,
    /// The type that is named or stands below; without one it is that of the head, or anyType.
    pub of: Option<TypeId>,
    /// The head of its substitution group (Structures 3.3.6).
    pub head: Option<ElementId>,
    pub value: Option<ValueConstraint>,
    pub nillable: bool,
    pub is_abstract: bool,
    /// The methods by which the types of substitution members are not derived.
    pub finals: Methods,
    /// The methods by which nothing stands for this element in a document.
    pub blocks: Methods,
    /// The identity constraints, in the order of the document.
    pub constraints: ConstraintIdList,
}

impl Components {
    /// Adds an element declaration, of rank 0, and answers its number.
    pub fn add_element(&mut self, part: ElementDecl) -> Result<ElementId, AllocError>
        ensures number { IfOk result (λ id. id ≡ length self.old.elements.parts) }
        ensures table { OnOk result (self.new ≡ record self.old { elements = with_part self.old.elements part }) }
        ensures err { OnErr result (self.new ≡ self.old) }
    {
        let number = self.elements.add(part)?;
        Ok(ElementId { number })
    }

    /// The element declaration of a number.
    pub fn element(&self, id: ElementId) -> &ElementDecl
        requires { id < length self.now.elements.parts }
        ensures part { slice_get self.now.elements.parts id ≡ Some result.now }
    {
        self.elements.part(id.number)
    }

    /// The number of an element declaration that wraps this one; `None` where the table has no such number.
    pub fn element_at(&self, number: u32) -> Option<ElementId>
        ensures there { IfSome result (λ id. (id ≡ number) × (number < length self.now.elements.parts)) }
        ensures past { IfNone result (length self.now.elements.parts ≤ number) }
        ensures few { length self.now.elements.parts < 2 ^ 32 }
    {
        if (number as usize) < self.elements.len() {
            Some(ElementId { number })
        } else {
            None
        }
    }

    /// The parts of the table, in the order of adding.
    pub fn elements(&self) -> &[ElementDecl]
        ensures parts { result.now ≡ self.now.elements.parts }
        ensures few { length self.now.elements.parts < 2 ^ 32 }
    {
        self.elements.as_slice()
    }

    /// Writes the rank of an element declaration, and nothing else.
    pub fn rank_element(&mut self, id: ElementId, rank: u32)
        requires { id < length self.old.elements.parts }
        ensures ranked { self.new ≡ record self.old { elements = with_rank self.old.elements id rank } }
    {
        self.elements.set_rank(id.number, rank);
    }

    /// The ranks of the table, in the order of adding.
    pub fn element_ranks(&self) -> &[u32]
        ensures ranks { result.now ≡ self.now.elements.ranks }
        ensures alike { length self.now.elements.ranks ≡ length self.now.elements.parts }
        ensures few { length self.now.elements.parts < 2 ^ 32 }
    {
        self.elements.ranks()
    }

    /// Writes the head of an element declaration, and nothing else.
    pub fn set_head(&mut self, id: ElementId, head: ElementId)
        requires { id < length self.old.elements.parts }
        ensures head { self.new ≡ record self.old { elements = with_change self.old.elements id (with_head head) } }
    {
        self.elements.part_mut(id.number).head = Some(head);
    }

    /// Writes the identity constraints of an element declaration, and nothing else.
    pub fn set_constraints(&mut self, id: ElementId, constraints: ConstraintIdList)
        requires { id < length self.old.elements.parts }
        ensures constraints { self.new ≡ record self.old { elements = with_change self.old.elements id (with_constraints constraints) } }
    {
        self.elements.part_mut(id.number).constraints = constraints;
    }
}
