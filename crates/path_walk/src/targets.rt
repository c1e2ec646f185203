//! The targets of an identity constraint.

ghost use Rattle.std.specs.Prelude.{◌≡◌, ◌⊎◌, ◌<◌, ◌++◌, true, false, All, length, map, MatchOption, IfOk, OnOk};
ghost use Rattle.component_tables.specs.ContentTypes.{AreContentsOf};
ghost use Rattle.identity_constraints.specs.Seen.{KeyElement, KeyForest, element};
ghost use Rattle.identity_constraints.specs.Targets as spec;
ghost use Rattle.path_walk.specs.Sight.{AreNamed, seen};
ghost use Rattle.path_walk.specs.Outcomes.{outcome_of};
ghost use Rattle.path_walk.specs.inside.Extended.{outcomes_along, outcome_here};

use crate::attributes::reaches;
use crate::declared_by::constraints_of;
use crate::tuples::{TargetOutcome, outcome_at};
use crate::{KeySet, KeySiblings, KeySight};
use std::alloc::AllocError;
use xpath_subset::IdentityPaths;
use xs_components::ConstraintId;
use xs_names::NameId;

// Puts what the first of some siblings comes to behind others, where it is a target. The way leads to it.
fn add_target<T: KeySiblings>(
    set: &KeySet<'_>,
    paths: &IdentityPaths,
    at: T,
    way: &[NameId],
    found: &mut Vec<TargetOutcome>,
) -> Result<(), AllocError>
    requires contents { AreContentsOf set.now.parts.now set.now.contents.now }
    requires way { All (λ name. name < length set.now.names.now.names) way.now }
    requires named { AreNamed set.now.names.now (T.forest at) }
    ensures { OnOk result ((own : KeyElement) (below next : KeyForest) → T.forest at ≡ element own below next → map outcome_of found.new.items ≡ map outcome_of found.old.items ++ outcome_here set.now.names.now set.now.parts.now paths.now way.now own below) }
{
    if reaches(set.names, &paths.selector, way, None) {
        let outcome = outcome_at(set, paths.fields.as_slice(), at)?;
        found.push(outcome)?;
    }
    Ok(())
}

// Puts what the targets among siblings and below them come to behind others. The way leads to their parent, and is kept.
fn add_targets<T: KeySiblings>(
    set: &KeySet<'_>,
    paths: &IdentityPaths,
    siblings: T,
    way: &mut Vec<NameId>,
    found: &mut Vec<TargetOutcome>,
) -> Result<(), AllocError>
    requires contents { AreContentsOf set.now.parts.now set.now.contents.now }
    requires way { All (λ name. name < length set.now.names.now.names) way.old.items }
    requires named { AreNamed set.now.names.now (T.forest siblings) }
    ensures way { OnOk result (way.new.items ≡ way.old.items) }
    ensures found { OnOk result (map outcome_of found.new.items ≡ map outcome_of found.old.items ++ outcomes_along set.now.names.now set.now.parts.now paths.now way.old.items (T.forest siblings)) }
{
    let depth = way.len();
    let mut left = siblings;
    'left: while let Some(own) = left.first() {
        way.push(own.name)?;
        add_target(set, paths, left, way.as_slice(), found)?;
        add_targets(set, paths, left.below(), way, found)?;
        way.truncate(depth);
        left = left.next();
    }
    Ok(())
}

// Whether the constraint is one of the element.
fn has_constraint(set: &KeySet<'_>, own: &KeySight<'_>, constraint: ConstraintId) -> bool
    ensures { result ≡ spec.has_constraint set.now.names.now set.now.parts.now set.now.identities.now constraint (seen own.now) }
{
    constraints_of(set.parts, own)
        .iter()
        .any(|other| *other == constraint)
}

// The paths of a constraint that is one of an element's.
fn paths_for<'a>(
    set: &KeySet<'a>,
    own: &KeySight<'_>,
    constraint: ConstraintId,
) -> Option<&'a IdentityPaths>
    ensures { MatchOption result
        ((spec.has_constraint set.now.names.now set.now.parts.now set.now.identities.now constraint (seen own.now) ≡ false) ⊎ (spec.paths_of set.now.identities.now constraint ≡ spec.no_paths))
        (λ paths. (spec.has_constraint set.now.names.now set.now.parts.now set.now.identities.now constraint (seen own.now) ≡ true) × (spec.paths_of set.now.identities.now constraint ≡ paths.now)) }
{
    if !has_constraint(set, own, constraint) {
        return None;
    }
    set.identities.get(constraint.number() as usize)
}

/// What the targets of a constraint of the first of some siblings come to, in document order; none where the constraint is not one
/// of this element.
///
/// # Errors
///
/// `AllocError` is want of memory.
pub fn outcomes<T: KeySiblings>(
    set: &KeySet<'_>,
    constraint: ConstraintId,
    at: T,
) -> Result<Vec<TargetOutcome>, AllocError>
    requires contents { AreContentsOf set.now.parts.now set.now.contents.now }
    requires named { AreNamed set.now.names.now (T.forest at) }
    ensures { IfOk result (λ found. (own : KeyElement) (below next : KeyForest) → T.forest at ≡ element own below next → map outcome_of found.items ≡ spec.outcomes set.now.names.now set.now.parts.now set.now.identities.now constraint own below) }
{
    let mut found = Vec::new(set.alloc);
    let Some(own) = at.first() else {
        return Ok(found);
    };
    let Some(paths) = paths_for(set, &own, constraint) else {
        return Ok(found);
    };
    let mut way = Vec::new(set.alloc);
    add_target(set, paths, at, way.as_slice(), &mut found)?;
    add_targets(set, paths, at.below(), &mut way, &mut found)?;
    Ok(found)
}
