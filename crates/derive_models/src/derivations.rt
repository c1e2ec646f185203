//! Which types of elements derive from which.

ghost use Rattle.std.specs.Prelude.{◌≡◌, ℕ, ◌<◌, Some, length, slice_get, IfOk, IfSome};
ghost use Rattle.std.specs.Option.{option_copied};
ghost use Rattle.xs_components.specs.declared.element.ElementDecl.{ElementDecl as ElementData};
ghost use Rattle.component_references.specs.Heights.{IsType};
ghost use Rattle.component_references.specs.Ranked.{IsRanked};
ghost use Rattle.component_tables.specs.Types.{type_of, AreDeclarationsOf};
ghost use Rattle.type_derivation.specs.Within.{AreSimple};
ghost use Rattle.elem_governing.specs.Derived.{derives};
ghost use Rattle.derive_models.specs.Derivation as spec;
ghost use Rattle.derive_models.specs.Derivation.{IsDerivation, IsKnown, IsAsked};
ghost use Rattle.derive_models.specs.inside.Asked.{marks_of};

use crate::chains::{derives_along, excluded};
use crate::unions::{asked_simples, find_unions};
use component_tables::Declarations;
use particle_restrict::Derivation;
use std::alloc::{AllocError, Global};
use type_derivation::Within;
use xs_components::{Components, TypeId};

/// The components of a schema set with the simple types within each union that is the type of an element.
#[derive(Drop)]
pub struct Derivations<'a> {
    pub(crate) parts: &'a Components,
    // by the numbers of the simple types
    pub(crate) unions: Vec<Option<Within>>,
}

impl<'a> Derivations<'a> {
    /// Finds what is within each union that is the type of an element, once, so that the answers take no memory.
    ///
    /// # Errors
    ///
    /// `AllocError` is want of memory.
    pub fn of(
        alloc: Global,
        parts: &'a Components,
        declarations: &Declarations,
    ) -> Result<Derivations<'a>, AllocError>
        requires ranked { IsRanked parts.now }
        requires simple { AreSimple parts.now }
        requires elements { (n : ℕ) (part : ElementData) → slice_get parts.now.elements.parts n ≡ Some part → IfSome part.of (IsType parts.now) }
        requires declarations { AreDeclarationsOf parts.now declarations.now }
        ensures parts { IfOk result (λ d. d.parts.now ≡ parts.now) }
        ensures known { IfOk result IsKnown }
        ensures types { IfOk result (λ d. (element : ℕ) → element < length parts.now.elements.parts → IsAsked d (type_of parts.now element)) }
        ensures derivation { IfOk result (λ d. IsDerivation parts.now (derives d.parts.now spec.excluded)) }
    {
        let asked = asked_simples(alloc, parts, declarations)?;
        let unions = find_unions(alloc, parts, &asked)?;
        Ok(Derivations { parts, unions })
    }

    // What is within a union that is asked for.
    fn within<'s>(&'s self, base: &TypeId) -> Option<&'s Within>
        ensures { option_copied result ≡ marks_of self.now.unions.items base.now }
    {
        let TypeId::Simple(id) = base else {
            return None;
        };
        match self.unions.get(id.number() as usize) {
            Some(within) => within.as_ref(),
            None => None,
        }
    }
}

/// The answers are those of types of elements, without extension, list and union (Structures 3.9.6); they take no memory.
impl Derivation for Derivations<'_> {
    ghost is_valid = { IsKnown };

    ghost is_type = { IsAsked };

    ghost derives = { λ d. derives d.parts.now spec.excluded };

    fn restricts_type(&self, sub: TypeId, base: TypeId) -> bool {
        let Some(within) = self.within(&base) else {
            return derives_along(self.parts, sub, &base);
        };
        within.derives(self.parts, sub, &excluded())
    }
}
