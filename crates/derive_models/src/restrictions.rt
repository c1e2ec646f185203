//! The first fault of content models and of redefining groups.

ghost use Rattle.std.specs.Prelude.{ℕ, ◌<◌, List, length, IfOk};
ghost use Rattle.xs_codes.specs.Least.{IsLeast};
ghost use Rattle.component_references.specs.Ranked.{IsRanked};
ghost use Rattle.component_tables.specs.ContentTypes.{AreContentsOf};
ghost use Rattle.component_tables.specs.Types.{type_of, AreDeclarationsOf};
ghost use Rattle.particle_restrict.specs.declared.terms.Term.{Term};
ghost use Rattle.derive_models.specs.AnyType.{AreContentsThere};
ghost use Rattle.derive_models.specs.Standing.{AreStanding};
ghost use Rattle.derive_models.specs.Terms.{AreElementsNamed, AreTerms};
ghost use Rattle.derive_models.specs.Compared.{IsCompared};
ghost use Rattle.derive_models.specs.GroupRestrictions.{IsRestrictionFault};

use crate::group_faults::first_group_fault;
use crate::models::ModelSet;
use crate::{ComparedModels, first_fault, stands_for, terms_of};
use particle_restrict::Derivation;
use redefine_names::RedefinedPair;
use std::alloc::{AllocError, Global};
use xs_codes::{Fault, sooner};

// The first fault of content models and of redefining groups, by these terms.
fn first_of_both<T: Derivation>(
    alloc: Global,
    set: &ComparedModels<'_, T>,
    pairs: &[RedefinedPair],
) -> Result<Option<Fault>, AllocError>
    requires compared { IsCompared (T.is_type set.now.types.now) set.now.parts.now set.now.contents.now set.now.terms.now }
    requires valid { T.is_valid set.now.types.now }
    ensures least { (members : List (List ℕ)) → AreStanding set.now.parts.now members set.now.stands_for.now
        → IfOk result (IsLeast (IsRestrictionFault set.now.parts.now members set.now.terms.now (T.derives set.now.types.now) pairs.now)) }
{
    let model = first_fault(alloc, set)?;
    let group = first_group_fault(alloc, set, pairs)?;
    Ok(sooner(model, group))
}

/// The first complex type whose content model its base does not allow (Structures 3.4.6, 5.4.2; 3.9.6), or model group definition that
/// redefines another without a reference to itself and whose model group is no valid restriction of that of the other
/// (src-redefine.6.2.2). `fixed` has the numbers of the fixed values of element declarations, which two share where their values
/// are the same; `types` tells which types derive from which without extension, list and union; `pairs` has the numbers of the
/// definitions that redefine others so.
///
/// # Errors
///
/// `AllocError` is want of memory.
pub fn first_restriction_fault<T: Derivation>(
    alloc: Global,
    set: &ModelSet<'_>,
    fixed: &[Option<u32>],
    pairs: &[RedefinedPair],
    types: &T,
) -> Result<Option<Fault>, AllocError>
    requires ranked { IsRanked set.now.parts.now }
    requires there { AreContentsThere set.now.parts.now }
    requires named { AreElementsNamed set.now.parts.now set.now.names.now }
    requires declarations { AreDeclarationsOf set.now.parts.now set.now.declarations.now }
    requires contents { AreContentsOf set.now.parts.now set.now.contents.now }
    requires valid { T.is_valid types.now }
    requires types { (element : ℕ) → element < length set.now.parts.now.elements.parts → T.is_type types.now (type_of set.now.parts.now element) }
    ensures least { IfOk result (λ found. (terms : List Term) × AreTerms set.now.parts.now set.now.names.now fixed.now terms
        × IsLeast (IsRestrictionFault set.now.parts.now set.now.members.now terms (T.derives types.now) pairs.now) found) }
{
    let terms = terms_of(alloc, set.names, set.parts, set.declarations, fixed)?;
    let standing = stands_for(alloc, set.parts, set.members, set.declarations)?;
    let compared = ComparedModels {
        parts: set.parts,
        contents: set.contents,
        terms: &terms,
        stands_for: &standing,
        types,
    };
    first_of_both(alloc, &compared, pairs)
}
