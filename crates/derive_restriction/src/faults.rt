ghost use Rattle.std.specs.Prelude.{◌≡◌, IfOk, IfNone};
ghost use Rattle.xs_codes.specs.Least.{IsLeast};
ghost use Rattle.schema_models.specs.SetModels.{AreContentsLimited};
ghost use Rattle.derive_restriction.specs.Given as compared;
ghost use Rattle.derive_restriction.specs.Given.{AreTypes};
ghost use Rattle.derive_restriction.specs.DerivationFaults as spec;
ghost use Rattle.derive_restriction.specs.FaultsGiven.{AreKnown};

use crate::{ComparedSet, DerivedSet, first_attr_group_fault, first_restriction};
use derive_faults::{first_excluded, first_extension};
use particle_forms::Ranges;
use redefine_names::RedefinedPair;
use schema_models::first_unlimited;
use simple_types::SimpleTypes;
use std::alloc::{AllocError, Global};
use xs_codes::{Fault, sooner};

// The first complex type that restricts its base as this does not allow, but for its content model, or attribute group that redefines
// another as this does not allow.
fn first_of_both(
    alloc: Global,
    set: &ComparedSet<'_>,
    redefined: &[RedefinedPair],
    types: &mut SimpleTypes,
) -> Result<Option<Fault>, AllocError>
    requires known { compared.AreKnown set.now }
    requires types { AreTypes set.now.parts.now types.old }
    ensures least { IfOk result (IsLeast (spec.IsComparisonFault set.now.parts.now set.now.names.now redefined.now)) }
    ensures same { types.new ≡ types.old }
{
    let restriction = first_restriction(alloc, set, types)?;
    let group = first_attr_group_fault(alloc, set, types, redefined)?;
    Ok(sooner(restriction, group))
}

// The same of a schema set.
fn comparison_fault(
    alloc: Global,
    set: &DerivedSet<'_>,
    types: &mut SimpleTypes,
) -> Result<Option<Fault>, AllocError>
    requires known { AreKnown set.now }
    requires types { AreTypes set.now.parts.now types.old }
    ensures least { IfOk result (IsLeast (spec.IsComparisonFault set.now.parts.now set.now.names.now set.now.redefined.now)) }
    ensures same { types.new ≡ types.old }
{
    let ranges = Ranges::of(alloc, set.parts)?;
    let compared = ComparedSet {
        names: set.names,
        parts: set.parts,
        tables: set.tables,
        contents: set.contents,
        ranges: &ranges,
        bases: set.declarations.bases(),
    };
    first_of_both(alloc, &compared, set.redefined, types)
}

// The first element that its head excludes, or `all` that is not limited.
fn placing_fault(alloc: Global, set: &DerivedSet<'_>) -> Result<Option<Fault>, AllocError>
    requires known { AreKnown set.now }
    ensures least { IfOk result (IsLeast (spec.IsPlacingFault set.now.parts.now)) }
    ensures limited { IfOk result (λ fault. IfNone fault (AreContentsLimited set.now.parts.now)) }
{
    let excluded = first_excluded(alloc, set.parts, set.declarations)?;
    let unlimited = first_unlimited(alloc, set.parts)?;
    Ok(sooner(excluded, unlimited))
}

/// The first fault of derivation, by document, item and code: of extensions (cos-ct-extends.1.1, .1.4), of restrictions but for
/// their content models (derivation-ok-restriction.1 to .5.4.1), of redefining attribute groups (src-redefine.7.2.2), of elements in
/// substitution groups (e-props-correct.4), and of `all` (x-limit.all, cos-all-limited.1, .2). Where there is none, each content model
/// that an `all` stands in is that `all`.
///
/// # Errors
///
/// `AllocError` is want of memory.
pub fn first_derivation_fault(
    alloc: Global,
    set: &DerivedSet<'_>,
    types: &mut SimpleTypes,
) -> Result<Option<Fault>, AllocError>
    requires known { AreKnown set.now }
    requires types { AreTypes set.now.parts.now types.old }
    ensures least { IfOk result (IsLeast (spec.IsDerivationFault set.now.parts.now set.now.names.now set.now.redefined.now)) }
    ensures limited { IfOk result (λ fault. IfNone fault (AreContentsLimited set.now.parts.now)) }
    ensures same { types.new ≡ types.old }
{
    let extension = first_extension(set.parts, set.contents);
    let placing = placing_fault(alloc, set)?;
    let comparison = comparison_fault(alloc, set, types)?;
    Ok(sooner(extension, sooner(comparison, placing)))
}
