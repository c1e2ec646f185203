//! Targets counted one by one.

ghost use Rattle.std.specs.Prelude.{◌≡◌, map, OnOk};
ghost use Rattle.identity_constraints.specs.Counting.{Links, IsLinked};
ghost use Rattle.key_records.specs.Tables.{AreParents};
ghost use Rattle.key_records.specs.Counted.{Counted, counted_of, plus};
ghost use Rattle.key_records.specs.References.{AreReferences};
ghost use Rattle.key_records.specs.Records.{AreRecords};
ghost use Rattle.scope_targets.specs.Found.{targeting_of};
ghost use Rattle.scope_targets.specs.Counted.{counted_in, counted_one};

use crate::ElementTargeting;
use key_records::{KeyRecords, KeyTree, Target};
use std::alloc::AllocError;

// An element as a target, as it is counted.
fn target_of(found: &ElementTargeting) -> Target<'_>
    ensures { counted_of result ≡ counted_one (targeting_of found.now) }
{
    Target {
        scope: found.scope,
        constraint: found.constraint,
        tuple: &found.outcome.tuple,
        misused: found.outcome.misused,
        nillable: found.outcome.nillable,
    }
}

/// Counts targets more.
pub(crate) fn put_all(
    tree: &KeyTree<'_>,
    records: &mut KeyRecords,
    found: &[ElementTargeting],
) -> Result<(), AllocError>
    requires sound { AreReferences tree.now.references.now }
    requires linked { (t : Links) × (c : Counted) × IsLinked t × AreParents t tree.now.parents.now × AreRecords t tree.now.references.now c records.old }
    ensures { OnOk result ((t : Links) (c : Counted) → IsLinked t → AreParents t tree.now.parents.now → AreRecords t tree.now.references.now c records.old
        → AreRecords t tree.now.references.now (plus c (counted_in (map targeting_of found.now))) records.new) }
{
    let mut left = found;
    'found: while let Some((first, rest)) = left.split_first() {
        records.put_in(tree, target_of(first))?;
        left = rest;
    }
    Ok(())
}

/// Counts targets no more that were counted.
pub(crate) fn take_all(
    tree: &KeyTree<'_>,
    records: &mut KeyRecords,
    found: &[ElementTargeting],
) -> Result<(), AllocError>
    requires sound { AreReferences tree.now.references.now }
    requires linked { (t : Links) × (c : Counted) × IsLinked t × AreParents t tree.now.parents.now × AreRecords t tree.now.references.now (plus c (counted_in (map targeting_of found.now))) records.old }
    ensures { OnOk result ((t : Links) (c : Counted) → IsLinked t → AreParents t tree.now.parents.now → AreRecords t tree.now.references.now (plus c (counted_in (map targeting_of found.now))) records.old
        → AreRecords t tree.now.references.now c records.new) }
{
    let mut left = found;
    'found: while let Some((first, rest)) = left.split_first() {
        records.take_out(tree, target_of(first))?;
        left = rest;
    }
    Ok(())
}
