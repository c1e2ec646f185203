ghost use Rattle.std.specs.Prelude.{◌≡◌, ◌<◌, ◌≤◌, ◌^◌, [], ◌∷◌, ◌++◌, None, Some, length, slice_get, slice_set, IfSome, IfNone, IfOk, OnOk, OnErr};
ghost use Rattle.xs_components.specs.Table.{with_part, with_rank, with_other};

use crate::{
    AttrGroupIdList, AttrUseList, Components, FacetStep, Methods, NameIdList, ParticleId, Place,
    TypeId, Wildcard,
};
use std::alloc::AllocError;
use std::marker::Model;
use xs_names::NameId;

/// The number of a complex type in its table, counted from 0 in the order of adding. Contracts see the number.
#[derive(Clone, Copy, PartialEq, Eq)]
pub struct ComplexId {
    pub(crate) number: u32,
}

impl Model for ComplexId {
    ghost use Rattle.std.specs.Prelude.{ℕ};

    ghost Value = { ℕ };

    ghost view = { λ id. id.number };

    ghost inverse = { λ n. record { number = n } };
}

impl ComplexId {
    /// The number.
    pub fn number(&self) -> u32
        ensures { result ≡ self.now }
    {
        self.number
    }
}

/// The content of a complex type, as it is written (Structures 3.4.2).
pub enum ContentForm {
    /// Simple content: the simple type that stands in the restriction, if one does, and the facets.
    Simple {
        own: Option<TypeId>,
        step: FacetStep,
    },
    /// Complex content: the particle of the effective content, if there is one, and whether the type is mixed.
    Complex {
        effective: Option<ParticleId>,
        mixed: bool,
    },
}

/// A complex type definition (Structures 3.4.1).
#[derive(Drop)]
pub struct ComplexType {
    /// None for a type without a name of its own.
    pub name: Option<NameId>,
    pub at: Place,
    pub base: TypeId,
    /// Whether the type extends its base; else it restricts it.
    pub by_extension: bool,
    pub is_abstract: bool,
    /// The methods by which no type is derived from this one.
    pub finals: Methods,
    /// The methods whose types may not stand for this one in a document.
    pub blocks: Methods,
    pub content: ContentForm,
    pub uses: AttrUseList,
    pub groups: AttrGroupIdList,
    /// The names of attributes that are prohibited.
    pub prohibited: NameIdList,
    pub wildcard: Option<Wildcard>,
}

impl Components {
    /// Adds a complex type, of rank 0 and without a particle of its content, and answers its number.
    pub fn add_complex(&mut self, part: ComplexType) -> Result<ComplexId, AllocError>
        ensures number { IfOk result (λ id. id ≡ length self.old.complexes.parts) }
        ensures table { OnOk result (self.new ≡ record self.old {
          complexes = with_part self.old.complexes part;
          contents = self.old.contents ++ None ∷ [];
        }) }
        ensures err { OnErr result (self.new ≡ self.old) }
    {
        self.contents.push(None)?;
        match self.complexes.add(part) {
            Ok(number) => Ok(ComplexId { number }),
            Err(AllocError) => {
                self.contents.pop();
                Err(AllocError)
            }
        }
    }

    /// The particle of the content of a complex type; `None` until it is set.
    pub fn content(&self, id: ComplexId) -> Option<ParticleId>
        requires { id < length self.now.complexes.parts }
        ensures content { slice_get self.now.contents id ≡ Some result }
    {
        self.contents[id.number as usize]
    }

    /// Writes the particle of the content of a complex type, and nothing else.
    pub fn set_content(&mut self, id: ComplexId, particle: ParticleId)
        requires { id < length self.old.complexes.parts }
        ensures content { self.new ≡ record self.old { contents = slice_set self.old.contents id (Some particle) } }
    {
        self.contents[id.number as usize] = Some(particle);
    }

    /// The particles of the contents of all complex types, in the order of adding.
    pub fn contents(&self) -> &[Option<ParticleId>]
        ensures contents { result.now ≡ self.now.contents }
        ensures alike { length self.now.contents ≡ length self.now.complexes.parts }
    {
        self.contents.as_slice()
    }

    /// The complex type of a number.
    pub fn complex(&self, id: ComplexId) -> &ComplexType
        requires { id < length self.now.complexes.parts }
        ensures part { slice_get self.now.complexes.parts id ≡ Some result.now }
    {
        self.complexes.part(id.number)
    }

    /// The number of a complex type that wraps this one; `None` where the table has no such number.
    pub fn complex_at(&self, number: u32) -> Option<ComplexId>
        ensures there { IfSome result (λ id. (id ≡ number) × (number < length self.now.complexes.parts)) }
        ensures past { IfNone result (length self.now.complexes.parts ≤ number) }
        ensures few { length self.now.complexes.parts < 2 ^ 32 }
    {
        if (number as usize) < self.complexes.len() {
            Some(ComplexId { number })
        } else {
            None
        }
    }

    /// The parts of the table, in the order of adding.
    pub fn complexes(&self) -> &[ComplexType]
        ensures parts { result.now ≡ self.now.complexes.parts }
        ensures few { length self.now.complexes.parts < 2 ^ 32 }
    {
        self.complexes.as_slice()
    }

    /// Writes the rank of a complex type, and nothing else.
    pub fn rank_complex(&mut self, id: ComplexId, rank: u32)
        requires { id < length self.old.complexes.parts }
        ensures ranked { self.new ≡ record self.old { complexes = with_rank self.old.complexes id rank } }
    {
        self.complexes.set_rank(id.number, rank);
    }

    /// The ranks of the table, in the order of adding.
    pub fn complex_ranks(&self) -> &[u32]
        ensures ranks { result.now ≡ self.now.complexes.ranks }
        ensures alike { length self.now.complexes.ranks ≡ length self.now.complexes.parts }
        ensures few { length self.now.complexes.parts < 2 ^ 32 }
    {
        self.complexes.ranks()
    }

    /// Puts a complex type in the place of another, which it drops, and changes nothing else.
    pub fn set_complex(&mut self, id: ComplexId, part: ComplexType)
        requires { id < length self.old.complexes.parts }
        ensures part { self.new ≡ record self.old { complexes = with_other self.old.complexes id part } }
    {
        self.complexes.set(id.number, part);
    }
}

impl Drop for ContentForm {
    fn drop(self) {
        match self {
            ContentForm::Simple { own: _, step } => drop(step),
            ContentForm::Complex {
                effective: _,
                mixed: _,
            } => {}
        }
    }
}
