//! What the restriction of particles asks of declarations and wildcards.

ghost use Rattle.std.specs.Prelude.{◌≡◌, Bool};
ghost use Rattle.xs_components.specs.declared.common.TypeId.{TypeId as TypeData};

use xs_components::{ConstraintIdList, Methods, TypeId, Wildcard};
use xs_names::{NameId, NsId};

/// An element declaration (Structures 3.3.1), as far as the restriction of particles looks at it.
#[derive(Drop)]
pub struct Declaration {
    pub name: NameId,
    /// The namespace of the name.
    pub space: NsId,
    pub nillable: bool,
    /// The fixed value, by a number that two declarations share exactly where their values are the same.
    pub fixed: Option<u32>,
    pub constraints: ConstraintIdList,
    pub blocks: Methods,
    pub of: TypeId,
}

/// A wildcard (Structures 3.10.1).
#[derive(Drop)]
pub struct Space {
    pub wildcard: Wildcard,
    /// Whether it is that of anyType's content (Structures 3.4.7).
    pub of_any_type: bool,
}

/// What the leaf of a form stands for.
#[derive(Drop)]
pub enum Term {
    Element(Declaration),
    Any(Space),
}

/// Which types derive from which without extension, list and union. `is_valid` is what an answer needs, `is_type` says which types
/// are there, and `derives` is the answer that a definition gives.
pub trait Derivation {
    ghost is_valid: { Self → Type 0 };

    ghost is_type: { Self → TypeData → Type 0 };

    ghost derives: { Self → TypeData → TypeData → Bool };

    /// Whether the one type derives from the other without extension, list and union.
    fn restricts_type(&self, sub: TypeId, base: TypeId) -> bool
        requires valid { is_valid self.now }
        requires sub { is_type self.now sub }
        requires base { is_type self.now base }
        ensures derives { result ≡ derives self.now sub base };
}
