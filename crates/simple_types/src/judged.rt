//! What judging a type comes to.
ghost use Rattle.std.specs.Prelude.{◌≡◌, IfOk};
ghost use Rattle.simple_types.specs.Lookup as spec;

use facets::{Facets, Known};
use std::alloc::{AllocError, Global};
use xs_codes::{Builtin, Fault};

/// The facets in force for a type, and what is known of it.
#[derive(Drop)]
pub struct TypeFacets {
    pub facets: Facets,
    pub known: Known,
}

/// What judging a type comes to: what is in force for it, and the first fault of its own.
#[derive(Drop)]
pub struct JudgedType {
    pub of: TypeFacets,
    pub fault: Option<Fault>,
}

impl TypeFacets {
    /// Those of a type of which nothing is known.
    pub(crate) fn unknown(alloc: Global) -> TypeFacets
        ensures { result ≡ spec.unknown }
    {
        TypeFacets {
            facets: Facets::of_builtin(alloc, Builtin::AnySimpleType),
            known: Known::Neither,
        }
    }

    /// The same, with memory of their own.
    pub(crate) fn try_clone(&self, alloc: Global) -> Result<TypeFacets, AllocError>
        ensures { IfOk result (λ copy. copy ≡ self.now) }
    {
        Ok(TypeFacets {
            facets: self.facets.try_clone(alloc)?,
            known: self.known,
        })
    }
}
