//! The content model of a restriction against that of its base.

ghost use Rattle.std.specs.Prelude.{◌≡◌, ◌<◌, ℕ, List, Some, length, IfOk};
ghost use Rattle.component_references.specs.Heights.{IsType};
ghost use Rattle.derive_faults.specs.TypeFaults.{IsFirstCode};
ghost use Rattle.derive_models.specs.Standing.{AreStanding};
ghost use Rattle.derive_models.specs.Forms.{content_form};
ghost use Rattle.xs_components.specs.declared.common.TypeId.TheVariants.{Complex};
ghost use Rattle.derive_models.specs.ModelRestrictions as spec;
ghost use Rattle.derive_models.specs.Compared.{IsCompared, is_simple, told_code};

use crate::content_form;
use component_tables::{ContentType, ContentTypes};
use particle_restrict::{Derivation, RestrictFault, Term, restricts};
use std::alloc::{AllocError, Global};
use xs_codes::Code;
use xs_components::{ComplexId, Components, TypeId};
use xs_lists::Listed;

/// The components of a schema set with what is known of them: the content types, the terms, what particles stand for, and which
/// types derive from which.
#[derive(Drop)]
pub struct ComparedModels<'a, T> {
    pub parts: &'a Components,
    pub contents: &'a ContentTypes,
    pub terms: &'a [Term],
    pub stands_for: &'a [Listed<u32>],
    pub types: &'a T,
}

/// The code of the content model of a complex type against that of a base.
pub(crate) fn model_code<T: Derivation>(
    alloc: Global,
    set: &ComparedModels<'_, T>,
    id: ComplexId,
    base: &TypeId,
) -> Result<Option<Code>, AllocError>
    requires compared { IsCompared (T.is_type set.now.types.now) set.now.parts.now set.now.contents.now set.now.terms.now }
    requires valid { T.is_valid set.now.types.now }
    requires there { id < length set.now.parts.now.complexes.parts }
    requires base { IsType set.now.parts.now base.now }
    ensures first { (members : List (List ℕ)) → AreStanding set.now.parts.now members set.now.stands_for.now
        → IfOk result (IsFirstCode (spec.BreaksModel set.now.parts.now members set.now.terms.now (T.derives set.now.types.now) id base.now)) }
{
    let content = set.contents.content_of(*base);
    if is_simple(content) {
        return Ok(Some(Code::CosParticleRestrict2));
    }
    forms_code(alloc, set, id, base)
}

// Whether content is a simple type's.
fn is_simple(content: ContentType) -> bool
    ensures { result ≡ is_simple content }
{
    match content {
        ContentType::SimpleType | ContentType::SimpleContent => true,
        ContentType::Empty | ContentType::ElementOnly | ContentType::Mixed => false,
    }
}

// The code of the form of a complex type's content against that of a base.
fn forms_code<T: Derivation>(
    alloc: Global,
    set: &ComparedModels<'_, T>,
    id: ComplexId,
    base: &TypeId,
) -> Result<Option<Code>, AllocError>
    requires compared { IsCompared (T.is_type set.now.types.now) set.now.parts.now set.now.contents.now set.now.terms.now }
    requires valid { T.is_valid set.now.types.now }
    requires there { id < length set.now.parts.now.complexes.parts }
    requires base { IsType set.now.parts.now base.now }
    ensures first { (members : List (List ℕ)) → AreStanding set.now.parts.now members set.now.stands_for.now
        → IfOk result (IsFirstCode (spec.BreaksForms set.now.terms.now (T.derives set.now.types.now) (content_form set.now.parts.now members (Complex id)) (content_form set.now.parts.now members base.now))) }
{
    let own = content_form(alloc, set.parts, set.stands_for, TypeId::Complex(id))?;
    let under = content_form(alloc, set.parts, set.stands_for, *base)?;
    told_code(restricts(alloc, &own, &under, set.terms, set.types))
}

/// The code that an answer of `particle_restrict` tells, if the one particle does not restrict the other.
///
/// # Errors
///
/// `AllocError` is want of memory.
pub fn told_code(answer: Result<(), RestrictFault>) -> Result<Option<Code>, AllocError>
    ensures told { IfOk result (λ code. told_code answer ≡ Some code) }
{
    match answer {
        Ok(()) => Ok(None),
        Err(RestrictFault::Broken(code)) => Ok(Some(code)),
        Err(RestrictFault::Memory) => Err(AllocError),
    }
}
