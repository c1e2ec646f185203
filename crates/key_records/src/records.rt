//! Key-sequences of the targets of identity constraints, with the key-sequences of keyrefs that are not in the tables of elements.

ghost use Rattle.std.specs.Prelude.{◌≡◌, ◌≤◌, ◌<◌, ◌^◌, ◌&&◌, ◌↔◌, ℕ, List, nat_lt, not, IsTrue, IfOk, OnOk};
ghost use Rattle.simple_values.specs.declared.key.Key.{Key};
ghost use Rattle.identity_constraints.specs.Counting.{Has, Links, IsLinked};
ghost use Rattle.key_records.specs.Tables.{AreParents, AreSettled};
ghost use Rattle.key_records.specs.Counted.{no_targets};
ghost use Rattle.key_records.specs.References.{AreReferences};
ghost use Rattle.key_records.specs.Records.{AreBare, AreMatched, AreOnce, AreRecords, IsChangedAt, IsMatched, IsOneMoreTarget, IsRematched, own_in, own_of, unmatched};
ghost use Rattle.key_records.specs.declared.references.References.{References as TheReferences};

use crate::faults::FaultCounts;
use crate::{References, add_tuple, drop_tuple, is_visible};
use identity_tables::{KeyTables, Tuple};
use std::alloc::{AllocError, Global};

/// Elements by number, as far as tables of keys go by them.
#[derive(Clone, Copy)]
pub struct KeyTree<'a> {
    /// The parents of elements, each of a lower number.
    pub parents: &'a [Option<u32>],
    /// The keys and uniques to which the keyrefs of the schema set refer.
    pub references: &'a References,
}

/// What is counted of the targets of identity constraints, by the numbers of their scopes and of the constraints: key-sequences,
/// child elements in whose tables a key-sequence is, key-sequences of keyrefs that are not in the table of the element, and faults
/// (Structures 3.11.4, 3.11.5).
#[derive(Drop)]
pub struct KeyRecords {
    alloc: Global,
    // Of keys and uniques that keyrefs refer to: own key-sequences, and child elements in whose tables they are.
    referred: KeyTables,
    // Own key-sequences of all other constraints, and those of keyrefs that are not in the table of the element, each once.
    others: KeyTables,
    pub(crate) faults: FaultCounts,
}

// Whether a key-sequence of a keyref is to be entered, by how often it is an own one and whether it is in the table of the element.
fn is_wanted(own: u32, seen: bool) -> bool
    ensures { result ≡ (nat_lt 0 own && not seen) }
{
    0 < own && !seen
}

impl KeyRecords {
    /// Of no targets.
    ///
    /// # Errors
    ///
    /// `AllocError` is want of memory.
    pub fn new(alloc: Global) -> Result<Self, AllocError>
        ensures { IfOk result (λ records. (t : Links) (refs : TheReferences) → AreRecords t refs no_targets records) }
    {
        let referred = KeyTables::new(alloc)?;
        let others = KeyTables::new(alloc)?;
        let faults = FaultCounts::new(alloc);
        Ok(KeyRecords {
            alloc,
            referred,
            others,
            faults,
        })
    }

    // How often a key-sequence is an own one of an element for a constraint.
    fn own_count(&self, references: &References, scope: u32, constraint: u32, tuple: &Tuple) -> u32
        requires few { constraint < 2 ^ 31 }
        ensures { result ≡ own_of references.now self.now scope constraint tuple.now }
    {
        if references.is_referred(constraint) {
            return self.referred.own_count(scope, 2 * constraint, tuple);
        }
        self.others.own_count(scope, 2 * constraint, tuple)
    }

    // Enters a key-sequence of a keyref where it is an own one of the element and not in its table, and takes it out elsewhere.
    fn rematch(
        &mut self,
        references: &References,
        scope: u32,
        keyref: u32,
        tuple: &Tuple,
    ) -> Result<(), AllocError>
        requires sound { AreReferences references.now }
        requires once { AreOnce self.old }
        ensures rematched { OnOk result (IsRematched references.now self.old self.new) }
        ensures matched { OnOk result (IsMatched references.now self.new scope keyref tuple.now) }
    {
        let Some(key) = references.key_of(keyref) else {
            return Ok(());
        };
        let own = self.own_count(references, scope, keyref, tuple);
        let seen = is_visible(&self.referred, scope, key, tuple);
        let wanted = is_wanted(own, seen);
        let entered = self.others.own_count(scope, 2 * keyref + 1, tuple);
        if wanted {
            if entered != 0 {
                return Ok(());
            }
            let tuple = tuple.clone()?;
            self.others.add(scope, 2 * keyref + 1, tuple)?;
            return Ok(());
        }
        if entered == 0 {
            return Ok(());
        }
        self.others.drop_entry(scope, 2 * keyref + 1, tuple);
        Ok(())
    }

    // The same of each of these keyrefs.
    fn rematch_keyrefs(
        &mut self,
        references: &References,
        scope: u32,
        keyrefs: &[u32],
        tuple: &Tuple,
    ) -> Result<(), AllocError>
        requires sound { AreReferences references.now }
        requires once { AreOnce self.old }
        ensures rematched { OnOk result (IsRematched references.now self.old self.new) }
        ensures matched { OnOk result ((keyref : ℕ) → Has keyref keyrefs.now → IsMatched references.now self.new scope keyref tuple.now) }
    {
        let mut left = keyrefs;
        'keyrefs: while let Some((keyref, rest)) = left.split_first() {
            self.rematch(references, scope, *keyref, tuple)?;
            left = rest;
        }
        Ok(())
    }

    // The same at each of these elements.
    fn rematch_told(
        &mut self,
        references: &References,
        told: &[u32],
        keyrefs: &[u32],
        tuple: &Tuple,
    ) -> Result<(), AllocError>
        requires sound { AreReferences references.now }
        requires once { AreOnce self.old }
        ensures rematched { OnOk result (IsRematched references.now self.old self.new) }
        ensures matched { OnOk result ((n keyref : ℕ) → Has n told.now → Has keyref keyrefs.now → IsMatched references.now self.new n keyref tuple.now) }
    {
        let mut left = told;
        'told: while let Some((scope, rest)) = left.split_first() {
            self.rematch_keyrefs(references, *scope, keyrefs, tuple)?;
            left = rest;
        }
        Ok(())
    }

    // Adds a key-sequence to the own ones of an element for a constraint. Where that is a keyref, its entry is left as it is.
    fn add_own(
        &mut self,
        tree: &KeyTree<'_>,
        scope: u32,
        constraint: u32,
        tuple: &Tuple,
    ) -> Result<(), AllocError>
        requires few { constraint < 2 ^ 31 }
        requires sound { AreReferences tree.now.references.now }
        requires once { AreOnce self.old }
        requires linked { (t : Links) × IsLinked t × AreParents t tree.now.parents.now × AreSettled t self.old.referred }
        ensures settled { OnOk result ((t : Links) → IsLinked t → AreParents t tree.now.parents.now → AreSettled t self.old.referred → AreSettled t self.new.referred) }
        ensures own { OnOk result (IsOneMoreTarget tree.now.references.now self.old self.new scope constraint tuple.now) }
        ensures changed { OnOk result (IsChangedAt tree.now.references.now self.old self.new scope constraint tuple.now) }
    {
        if tree.references.is_referred(constraint) {
            let mut told = Vec::new(self.alloc);
            add_tuple(
                tree.parents,
                &mut self.referred,
                scope,
                constraint,
                tuple,
                &mut told,
            )?;
            let keyrefs = tree.references.keyrefs_of(constraint);
            self.rematch_told(tree.references, told.as_slice(), keyrefs, tuple)?;
            return Ok(());
        }
        let tuple = tuple.clone()?;
        self.others.add(scope, 2 * constraint, tuple)?;
        Ok(())
    }

    // Drops a key-sequence of the own ones of an element for a constraint once. Where that is a keyref, its entry is left as it is.
    fn drop_own(
        &mut self,
        tree: &KeyTree<'_>,
        scope: u32,
        constraint: u32,
        tuple: &Tuple,
    ) -> Result<(), AllocError>
        requires few { constraint < 2 ^ 31 }
        requires sound { AreReferences tree.now.references.now }
        requires once { AreOnce self.old }
        requires there { 1 ≤ own_of tree.now.references.now self.old scope constraint tuple.now }
        requires linked { (t : Links) × IsLinked t × AreParents t tree.now.parents.now × AreSettled t self.old.referred }
        ensures settled { OnOk result ((t : Links) → IsLinked t → AreParents t tree.now.parents.now → AreSettled t self.old.referred → AreSettled t self.new.referred) }
        ensures own { OnOk result (IsOneMoreTarget tree.now.references.now self.new self.old scope constraint tuple.now) }
        ensures changed { OnOk result (IsChangedAt tree.now.references.now self.old self.new scope constraint tuple.now) }
    {
        if tree.references.is_referred(constraint) {
            let mut told = Vec::new(self.alloc);
            drop_tuple(
                tree.parents,
                &mut self.referred,
                scope,
                constraint,
                tuple,
                &mut told,
            )?;
            let keyrefs = tree.references.keyrefs_of(constraint);
            self.rematch_told(tree.references, told.as_slice(), keyrefs, tuple)?;
            return Ok(());
        }
        self.others.drop_entry(scope, 2 * constraint, tuple);
        Ok(())
    }

    // Adds a key-sequence to the own ones of an element for a constraint.
    pub(crate) fn put_tuple(
        &mut self,
        tree: &KeyTree<'_>,
        scope: u32,
        constraint: u32,
        tuple: &Tuple,
    ) -> Result<(), AllocError>
        requires few { constraint < 2 ^ 31 }
        requires sound { AreReferences tree.now.references.now }
        requires once { AreOnce self.old }
        requires linked { (t : Links) × IsLinked t × AreParents t tree.now.parents.now × AreSettled t self.old.referred }
        ensures settled { OnOk result ((t : Links) → IsLinked t → AreParents t tree.now.parents.now → AreSettled t self.old.referred → AreSettled t self.new.referred) }
        ensures own { OnOk result (IsOneMoreTarget tree.now.references.now self.old self.new scope constraint tuple.now) }
        ensures matched { OnOk result (AreMatched tree.now.references.now self.old → AreMatched tree.now.references.now self.new) }
        ensures rest { OnOk result (AreOnce self.new × (self.new.faults ≡ self.old.faults)) }
        ensures bare { OnOk result (AreBare tree.now.references.now self.old → AreBare tree.now.references.now self.new) }
    {
        self.add_own(tree, scope, constraint, tuple)?;
        self.rematch(tree.references, scope, constraint, tuple)?;
        Ok(())
    }

    // Drops a key-sequence of the own ones of an element for a constraint once.
    pub(crate) fn take_tuple(
        &mut self,
        tree: &KeyTree<'_>,
        scope: u32,
        constraint: u32,
        tuple: &Tuple,
    ) -> Result<(), AllocError>
        requires few { constraint < 2 ^ 31 }
        requires sound { AreReferences tree.now.references.now }
        requires once { AreOnce self.old }
        requires there { 1 ≤ own_of tree.now.references.now self.old scope constraint tuple.now }
        requires linked { (t : Links) × IsLinked t × AreParents t tree.now.parents.now × AreSettled t self.old.referred }
        ensures settled { OnOk result ((t : Links) → IsLinked t → AreParents t tree.now.parents.now → AreSettled t self.old.referred → AreSettled t self.new.referred) }
        ensures own { OnOk result (IsOneMoreTarget tree.now.references.now self.new self.old scope constraint tuple.now) }
        ensures matched { OnOk result (AreMatched tree.now.references.now self.old → AreMatched tree.now.references.now self.new) }
        ensures rest { OnOk result (AreOnce self.new × (self.new.faults ≡ self.old.faults)) }
        ensures bare { OnOk result (AreBare tree.now.references.now self.old → AreBare tree.now.references.now self.new) }
    {
        self.drop_own(tree, scope, constraint, tuple)?;
        self.rematch(tree.references, scope, constraint, tuple)?;
        Ok(())
    }

    // Whether two own key-sequences of an element for a constraint are equal, by whether keyrefs refer to it.
    pub(crate) fn has_equal(&self, referred: bool, scope: u32, constraint: u32) -> bool
        requires few { constraint < 2 ^ 31 }
        ensures { IsTrue result ↔ ((tuple : List Key) × (2 ≤ own_in referred self.now scope constraint tuple)) }
    {
        if referred {
            return self.referred.broken(scope, 2 * constraint).is_some();
        }
        self.others.broken(scope, 2 * constraint).is_some()
    }

    // Whether a key-sequence of a keyref is entered as one that is not in the table of the element.
    pub(crate) fn has_entries(&self, scope: u32, keyref: u32) -> bool
        requires few { keyref < 2 ^ 31 }
        ensures { IsTrue result ↔ ((tuple : List Key) × (1 ≤ unmatched self.now scope keyref tuple)) }
    {
        self.others.broken(scope, 2 * keyref + 1).is_some()
    }
}
