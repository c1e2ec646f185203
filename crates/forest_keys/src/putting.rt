//! All targets of the elements of a forest put into records.

ghost use Rattle.std.specs.Prelude.{◌≡◌, ◌+◌, ◌<◌, ◌^◌, map, IfOk, OnOk};
ghost use Rattle.component_tables.specs.ContentTypes.{AreContentsOf};
ghost use Rattle.identity_constraints.specs.Seen.{KeyElement, KeyForest, element};
ghost use Rattle.path_walk.specs.Outcomes.{outcome_of};
ghost use Rattle.path_walk.specs.Sight.{AreNamed};
ghost use Rattle.path_walk.specs.inside.Walk.{size};
ghost use Rattle.key_records.specs.References.{AreReferences};
ghost use Rattle.forest_keys.specs.inside.Found.{has_number, targets_along, targets_at, targets_first, targets_of};
ghost use Rattle.forest_keys.specs.inside.Records.{AreGrown, CanGrow};

use key_records::{KeyRecords, KeyTree, Target};
use path_walk::{KeySet, KeySiblings, TargetOutcome, constraints_of, outcomes};
use std::alloc::AllocError;
use xs_components::ConstraintId;

/// What targets are found by, and what they are counted by.
#[derive(Clone, Copy)]
pub struct Counting<'a> {
    pub set: KeySet<'a>,
    pub tree: KeyTree<'a>,
}

// Puts targets of a constraint of an element in.
fn put_outcomes(
    tree: &KeyTree<'_>,
    records: &mut KeyRecords,
    place: u32,
    constraint: u32,
    found: &[TargetOutcome],
) -> Result<(), AllocError>
    requires sound { AreReferences tree.now.references.now }
    requires linked { CanGrow tree.now records.old }
    ensures can { OnOk result (CanGrow tree.now records.new) }
    ensures grown { OnOk result (AreGrown tree.now (targets_of place constraint (map outcome_of found.now)) records.old records.new) }
{
    let mut left = found;
    'found: while let Some((outcome, rest)) = left.split_first() {
        let target = Target {
            scope: place,
            constraint,
            tuple: &outcome.tuple,
            misused: outcome.misused,
            nillable: outcome.nillable,
        };
        records.put_in(tree, target)?;
        left = rest;
    }
    Ok(())
}

// Whether a constraint is among these.
fn is_among(constraint: ConstraintId, others: &[ConstraintId]) -> bool
    ensures { result ≡ has_number constraint others.now }
{
    others.iter().any(|other| *other == constraint)
}

// Puts the targets of the first of some constraints of an element in, but where it is among the others.
fn put_first<T: KeySiblings>(
    by: &Counting<'_>,
    records: &mut KeyRecords,
    place: u32,
    constraints: (ConstraintId, &[ConstraintId]),
    at: T,
) -> Result<(), AllocError>
    requires contents { AreContentsOf by.now.set.parts.now by.now.set.contents.now }
    requires named { AreNamed by.now.set.names.now (T.forest at) }
    requires sound { AreReferences by.now.tree.references.now }
    requires linked { CanGrow by.now.tree records.old }
    ensures can { OnOk result (CanGrow by.now.tree records.new) }
    ensures grown { OnOk result ((own : KeyElement) (below next : KeyForest) → T.forest at ≡ element own below next
        → AreGrown by.now.tree (targets_first by.now.set.names.now by.now.set.parts.now by.now.set.identities.now place constraints.entry.0 constraints.entry.1.now own below) records.old records.new) }
{
    let (constraint, others) = constraints;
    if is_among(constraint, others) {
        return Ok(());
    }
    let found = outcomes(&by.set, constraint, at)?;
    put_outcomes(
        &by.tree,
        records,
        place,
        constraint.number(),
        found.as_slice(),
    )?;
    Ok(())
}

// Puts the targets of all constraints of the first of some siblings in.
fn put_element<T: KeySiblings>(
    by: &Counting<'_>,
    records: &mut KeyRecords,
    place: u32,
    at: T,
) -> Result<(), AllocError>
    requires contents { AreContentsOf by.now.set.parts.now by.now.set.contents.now }
    requires named { AreNamed by.now.set.names.now (T.forest at) }
    requires sound { AreReferences by.now.tree.references.now }
    requires linked { CanGrow by.now.tree records.old }
    ensures can { OnOk result (CanGrow by.now.tree records.new) }
    ensures grown { OnOk result ((own : KeyElement) (below next : KeyForest) → T.forest at ≡ element own below next
        → AreGrown by.now.tree (targets_at by.now.set.names.now by.now.set.parts.now by.now.set.identities.now place own below) records.old records.new) }
{
    let Some(own) = at.first() else {
        return Ok(());
    };
    let mut left = constraints_of(by.set.parts, &own);
    'constraints: while let Some((constraint, rest)) = left.split_first() {
        put_first(by, records, place, (*constraint, rest), at)?;
        left = rest;
    }
    Ok(())
}

/// Puts the targets of siblings and of all below them in, from a place on, and answers the place behind them.
pub(crate) fn put_all<T: KeySiblings>(
    by: &Counting<'_>,
    records: &mut KeyRecords,
    place: u32,
    siblings: T,
) -> Result<u32, AllocError>
    requires contents { AreContentsOf by.now.set.parts.now by.now.set.contents.now }
    requires named { AreNamed by.now.set.names.now (T.forest siblings) }
    requires sound { AreReferences by.now.tree.references.now }
    requires few { place + size (T.forest siblings) < 2 ^ 32 }
    requires linked { CanGrow by.now.tree records.old }
    ensures can { OnOk result (CanGrow by.now.tree records.new) }
    ensures next { IfOk result (λ next. next ≡ place + size (T.forest siblings)) }
    ensures grown { OnOk result (AreGrown by.now.tree (targets_along by.now.set.names.now by.now.set.parts.now by.now.set.identities.now place (T.forest siblings)) records.old records.new) }
{
    let mut next = place;
    let mut left = siblings;
    'left: while let Some(_) = left.first() {
        put_element(by, records, next, left)?;
        next = put_all(by, records, next + 1, left.below())?;
        left = left.next();
    }
    Ok(next)
}
