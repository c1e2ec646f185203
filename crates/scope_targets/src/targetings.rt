//! What an element is as a target.

ghost use Rattle.std.specs.Prelude.{◌≡◌, ◌<◌, ◌∷◌, ◌++◌, [], All, length, map, None, IfOk, OnOk};
ghost use Rattle.component_tables.specs.ContentTypes.{AreContentsOf};
ghost use Rattle.xpath_subset.specs.Reached as paths;
ghost use Rattle.identity_constraints.specs.Seen.{KeyElement, KeyForest, element};
ghost use Rattle.identity_constraints.specs.Targets.{constraints_of, expanded};
ghost use Rattle.path_walk.specs.Sight.{AreNamed, seen};
ghost use Rattle.path_walk.specs.inside.Walk.{reached};
ghost use Rattle.scope_targets.specs.Targetings as spec;
ghost use Rattle.scope_targets.specs.Found.{AreNamesOf, targeting_of};

use path_walk::{KeySet, KeySiblings, KeySight, TargetOutcome, constraints_of, outcome_at};
use std::alloc::AllocError;
use xpath_subset::{Paths, is_reached, reached_is_a_test};
use xs_components::ConstraintId;
use xs_names::{NameId, Names};

/// An element as a target of a constraint of an element at or above it (Structures 3.11.4).
#[derive(Drop)]
pub struct ElementTargeting {
    /// The number of the element whose constraint it is.
    pub scope: u32,
    /// The number of the constraint.
    pub constraint: u32,
    /// What the target comes to.
    pub outcome: TargetOutcome,
}

// A scope, and the names on the way down from it to a target.
#[derive(Clone, Copy)]
struct ScopeWay<'a> {
    scope: u32,
    way: &'a [NameId],
}

// Whether a selector reaches the element at the end of a way.
fn selects(names: &Names, selector: &Paths, way: &[NameId]) -> bool
    requires way { All (λ name. name < length names.now.names) way.now }
    ensures { result ≡ paths.reached selector.now (expanded names.now way.now) None }
{
    reached_is_a_test();
    is_reached(selector, names, way, None)
}

// Whether a constraint is among these.
fn is_among(constraint: ConstraintId, others: &[ConstraintId]) -> bool
    ensures { result ≡ spec.is_among constraint others.now }
{
    others.iter().any(|other| *other == constraint)
}

// Puts an element behind others, where it is a target of a constraint.
fn add_target<T: KeySiblings>(
    set: &KeySet<'_>,
    target: T,
    from: &ScopeWay<'_>,
    constraint: ConstraintId,
    found: &mut Vec<ElementTargeting>,
) -> Result<(), AllocError>
    requires contents { AreContentsOf set.now.parts.now set.now.contents.now }
    requires named { AreNamed set.now.names.now (T.forest target) }
    requires way { All (λ name. name < length set.now.names.now.names) from.now.way.now }
    ensures { OnOk result ((own : KeyElement) (below next : KeyForest) → T.forest target ≡ element own below next
        → map targeting_of found.new.items ≡ map targeting_of found.old.items ++ spec.targeting_for set.now.names.now set.now.parts.now set.now.identities.now from.now.scope constraint (reached from.now.way.now own below)) }
{
    let Some(paths) = set.identities.get(constraint.number() as usize) else {
        return Ok(());
    };
    if !selects(set.names, &paths.selector, from.way) {
        return Ok(());
    }
    let outcome = outcome_at(set, paths.fields.as_slice(), target)?;
    found.push(ElementTargeting {
        scope: from.scope,
        constraint: constraint.number(),
        outcome,
    })?;
    Ok(())
}

// The same of the first of some constraints, but where it is among the others.
fn add_first<T: KeySiblings>(
    set: &KeySet<'_>,
    target: T,
    from: &ScopeWay<'_>,
    constraints: (ConstraintId, &[ConstraintId]),
    found: &mut Vec<ElementTargeting>,
) -> Result<(), AllocError>
    requires contents { AreContentsOf set.now.parts.now set.now.contents.now }
    requires named { AreNamed set.now.names.now (T.forest target) }
    requires way { All (λ name. name < length set.now.names.now.names) from.now.way.now }
    ensures { OnOk result ((own : KeyElement) (below next : KeyForest) → T.forest target ≡ element own below next
        → map targeting_of found.new.items ≡ map targeting_of found.old.items
        ++ spec.targeting_first set.now.names.now set.now.parts.now set.now.identities.now from.now.scope constraints.entry.0 constraints.entry.1.now (reached from.now.way.now own below)) }
{
    let (constraint, others) = constraints;
    if is_among(constraint, others) {
        return Ok(());
    }
    add_target(set, target, from, constraint, found)?;
    Ok(())
}

// Puts an element behind others as a target of constraints, each once.
fn add_targets<T: KeySiblings>(
    set: &KeySet<'_>,
    target: T,
    from: &ScopeWay<'_>,
    constraints: &[ConstraintId],
    found: &mut Vec<ElementTargeting>,
) -> Result<(), AllocError>
    requires contents { AreContentsOf set.now.parts.now set.now.contents.now }
    requires named { AreNamed set.now.names.now (T.forest target) }
    requires way { All (λ name. name < length set.now.names.now.names) from.now.way.now }
    ensures { OnOk result ((own : KeyElement) (below next : KeyForest) → T.forest target ≡ element own below next
        → map targeting_of found.new.items ≡ map targeting_of found.old.items ++ spec.targetings_for set.now.names.now set.now.parts.now set.now.identities.now from.now.scope constraints.now (reached from.now.way.now own below)) }
{
    let mut left = constraints;
    'constraints: while let Some((constraint, rest)) = left.split_first() {
        add_first(set, target, from, (*constraint, rest), found)?;
        left = rest;
    }
    Ok(())
}

/// Puts an element behind others as a target of the constraints of one scope, to which the way leads back, and puts the name of the scope
/// in front of the way. Where the scope lists a constraint twice, it counts once.
///
/// # Errors
///
/// `AllocError` is want of memory.
pub fn add_scope<T: KeySiblings>(
    set: &KeySet<'_>,
    target: T,
    scope: &KeySight<'_>,
    way: &mut Vec<NameId>,
    found: &mut Vec<ElementTargeting>,
) -> Result<(), AllocError>
    requires contents { AreContentsOf set.now.parts.now set.now.contents.now }
    requires named { AreNamed set.now.names.now (T.forest target) }
    requires way { All (λ name. name < length set.now.names.now.names) way.old.items }
    ensures way { OnOk result (way.new.items ≡ (seen scope.now).name ∷ way.old.items) }
    ensures found { OnOk result ((own : KeyElement) (below next : KeyForest) → T.forest target ≡ element own below next
        → map targeting_of found.new.items ≡ map targeting_of found.old.items
        ++ spec.targetings_for set.now.names.now set.now.parts.now set.now.identities.now (seen scope.now).number (constraints_of set.now.parts.now (seen scope.now)) (reached way.old.items own below)) }
{
    let from = ScopeWay {
        scope: scope.number,
        way: way.as_slice(),
    };
    let constraints = constraints_of(set.parts, scope);
    add_targets(set, target, &from, constraints, found)?;
    way.insert(0, scope.name)?;
    Ok(())
}

/// The first of some siblings as a target of the constraints of scopes that are above one another: itself, then the elements above it,
/// the nearest first. Where a scope lists a constraint twice, it counts once.
///
/// # Errors
///
/// `AllocError` is want of memory.
pub fn targetings_of<T: KeySiblings>(
    set: &KeySet<'_>,
    target: T,
    scopes: &[KeySight<'_>],
) -> Result<Vec<ElementTargeting>, AllocError>
    requires contents { AreContentsOf set.now.parts.now set.now.contents.now }
    requires named { AreNamed set.now.names.now (T.forest target) }
    requires ways { AreNamesOf set.now.names.now (map seen scopes.now) }
    ensures { IfOk result (λ found. (own : KeyElement) (below next : KeyForest) → T.forest target ≡ element own below next
        → map targeting_of found.items ≡ spec.targetings_up set.now.names.now set.now.parts.now set.now.identities.now [] own below (map seen scopes.now)) }
{
    let mut found = Vec::new(set.alloc);
    let mut way = Vec::new(set.alloc);
    for scope in scopes {
        add_scope(set, target, scope, &mut way, &mut found)?;
    }
    Ok(found)
}
