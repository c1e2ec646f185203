//! The first redefining group that is no restriction of what it redefines.

ghost use Rattle.std.specs.Prelude.{◌≡◌, ℕ, List, Some, IfOk, slice_get};
ghost use Rattle.xs_codes.specs.Least.{IsLeast};
ghost use Rattle.derive_faults.specs.TypeFaults.{IsFirstCode};
ghost use Rattle.derive_models.specs.Standing.{AreStanding};
ghost use Rattle.derive_models.specs.Compared.{IsCompared};
ghost use Rattle.derive_models.specs.GroupRestrictions as spec;

use crate::group_forms::group_form;
use crate::{ComparedModels, told_code};
use derive_faults::{coded, when};
use particle_restrict::{Derivation, restricts};
use redefine_names::RedefinedPair;
use std::alloc::{AllocError, Global};
use xs_codes::{Code, Fault, sooner};

// The phase of compiling that looks at the restriction of content models.
const PHASE: u8 = 9;

/// The first model group definition that redefines another without a reference to itself, and whose model group is no valid
/// restriction of that of the other (src-redefine.6.2.2; Structures 3.9.6): by document and item of what redefines. `pairs` has
/// the numbers of these definitions and of what they redefine.
///
/// # Errors
///
/// `AllocError` is want of memory.
pub fn first_group_fault<T: Derivation>(
    alloc: Global,
    set: &ComparedModels<'_, T>,
    pairs: &[RedefinedPair],
) -> Result<Option<Fault>, AllocError>
    requires compared { IsCompared (T.is_type set.now.types.now) set.now.parts.now set.now.contents.now set.now.terms.now }
    requires valid { T.is_valid set.now.types.now }
    ensures least { (members : List (List ℕ)) → AreStanding set.now.parts.now members set.now.stands_for.now
        → IfOk result (IsLeast (spec.IsGroupFault set.now.parts.now members set.now.terms.now (T.derives set.now.types.now) pairs.now)) }
{
    let mut best = None;
    for pair in pairs {
        let found = fault_of(alloc, set, pair)?;
        best = sooner(best, found);
    }
    Ok(best)
}

// The fault of a pair.
fn fault_of<T: Derivation>(
    alloc: Global,
    set: &ComparedModels<'_, T>,
    pair: &RedefinedPair,
) -> Result<Option<Fault>, AllocError>
    requires compared { IsCompared (T.is_type set.now.types.now) set.now.parts.now set.now.contents.now set.now.terms.now }
    requires valid { T.is_valid set.now.types.now }
    ensures least { (members : List (List ℕ)) → AreStanding set.now.parts.now members set.now.stands_for.now
        → IfOk result (IsLeast (spec.IsPairFault set.now.parts.now members set.now.terms.now (T.derives set.now.types.now) pair.now)) }
{
    match set.parts.groups().get(pair.own as usize) {
        None => Ok(None),
        Some(part) => {
            let code = pair_code(alloc, set, *pair)?;
            Ok(coded(PHASE, part.at, code))
        },
    }
}

// The code of a pair.
fn pair_code<T: Derivation>(
    alloc: Global,
    set: &ComparedModels<'_, T>,
    pair: RedefinedPair,
) -> Result<Option<Code>, AllocError>
    requires compared { IsCompared (T.is_type set.now.types.now) set.now.parts.now set.now.contents.now set.now.terms.now }
    requires valid { T.is_valid set.now.types.now }
    ensures first { (members : List (List ℕ)) → AreStanding set.now.parts.now members set.now.stands_for.now
        → IfOk result (IsFirstCode (spec.BreaksGroup set.now.parts.now members set.now.terms.now (T.derives set.now.types.now) pair)) }
{
    let own = group_form(alloc, set.parts, set.stands_for, pair.own)?;
    let under = group_form(alloc, set.parts, set.stands_for, pair.original)?;
    let found = told_code(restricts(alloc, &own, &under, set.terms, set.types))?;
    Ok(when(found.is_some(), Code::SrcRedefine6_2_2))
}
