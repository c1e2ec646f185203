//! The first restriction whose content model its base does not allow.

ghost use Rattle.std.specs.Prelude.{◌≡◌, ◌<◌, ℕ, List, Some, length, slice_get, IfOk};
ghost use Rattle.xs_codes.specs.Least.{IsLeast};
ghost use Rattle.derive_faults.specs.TypeFaults.{IsFirstCode, IsFaultAt};
ghost use Rattle.derive_models.specs.Standing.{AreStanding};
ghost use Rattle.derive_models.specs.ModelRestrictions as spec;
ghost use Rattle.derive_models.specs.Compared.{IsCompared, is_model_restriction};

use crate::compared::{ComparedModels, model_code};
use derive_faults::coded;
use particle_restrict::Derivation;
use std::alloc::{AllocError, Global};
use xs_codes::{Code, Fault, sooner};
use xs_components::{ComplexId, ComplexType, ContentForm, TypeId};

// The phase of compiling that looks at the restriction of content models.
const PHASE: u8 = 9;

/// The first complex type whose content model its base does not allow (Structures 3.4.6, Derivation Valid (Restriction, Complex),
/// 5.4.2): a restriction with complexContent, whose base is not anyType, and whose particle is no valid restriction of the base's
/// (3.9.6).
///
/// # Errors
///
/// `AllocError` is want of memory.
pub fn first_fault<T: Derivation>(
    alloc: Global,
    set: &ComparedModels<'_, T>,
) -> Result<Option<Fault>, AllocError>
    requires compared { IsCompared (T.is_type set.now.types.now) set.now.parts.now set.now.contents.now set.now.terms.now }
    requires valid { T.is_valid set.now.types.now }
    ensures least { (members : List (List ℕ)) → AreStanding set.now.parts.now members set.now.stands_for.now
        → IfOk result (IsLeast (spec.IsModelFault set.now.parts.now members set.now.terms.now (T.derives set.now.types.now))) }
{
    let mut best = None;
    let mut number = 0;
    while let Some(id) = set.parts.complex_at(number) {
        let found = fault_of(alloc, set, id)?;
        best = sooner(best, found);
        number += 1;
    }
    Ok(best)
}

// The fault of a complex type.
fn fault_of<T: Derivation>(
    alloc: Global,
    set: &ComparedModels<'_, T>,
    id: ComplexId,
) -> Result<Option<Fault>, AllocError>
    requires compared { IsCompared (T.is_type set.now.types.now) set.now.parts.now set.now.contents.now set.now.terms.now }
    requires valid { T.is_valid set.now.types.now }
    requires there { id < length set.now.parts.now.complexes.parts }
    ensures least { (members : List (List ℕ)) → AreStanding set.now.parts.now members set.now.stands_for.now
        → IfOk result (IsLeast (IsFaultAt 9 set.now.parts.now (spec.Breaks set.now.parts.now members set.now.terms.now (T.derives set.now.types.now)) id)) }
{
    let part = set.parts.complex(id);
    let code = restriction_code(alloc, set, id, part)?;
    Ok(coded(PHASE, part.at, code))
}

// The code of a complex type, if it restricts a content model.
fn restriction_code<T: Derivation>(
    alloc: Global,
    set: &ComparedModels<'_, T>,
    id: ComplexId,
    part: &ComplexType,
) -> Result<Option<Code>, AllocError>
    requires compared { IsCompared (T.is_type set.now.types.now) set.now.parts.now set.now.contents.now set.now.terms.now }
    requires valid { T.is_valid set.now.types.now }
    requires part { slice_get set.now.parts.now.complexes.parts id ≡ Some part.now }
    ensures first { (members : List (List ℕ)) → AreStanding set.now.parts.now members set.now.stands_for.now
        → IfOk result (IsFirstCode (spec.Breaks set.now.parts.now members set.now.terms.now (T.derives set.now.types.now) id part.now)) }
{
    if is_model_restriction(part) {
        model_code(alloc, set, id, &part.base)
    } else {
        Ok(None)
    }
}

// Whether a type is a restriction with complexContent, whose base is not anyType.
fn is_model_restriction(part: &ComplexType) -> bool
    ensures { result ≡ is_model_restriction part.now }
{
    !part.by_extension && has_model(&part.content) && part.base != TypeId::AnyType
}

// Whether content is written as complexContent.
fn has_model(content: &ContentForm) -> bool
    ensures { result ≡ spec.has_model content.now }
{
    match content {
        ContentForm::Simple { .. } => false,
        ContentForm::Complex { .. } => true,
    }
}
