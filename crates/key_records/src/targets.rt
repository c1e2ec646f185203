//! Targets put into the records of identity constraints and taken out, and what the records say of constraints.

ghost use Rattle.std.specs.Prelude.{◌≡◌, ◌≤◌, ◌<◌, ◌^◌, ◌↔◌, ℕ, List, Some, false, nat_lt, IsTrue, OnOk};
ghost use Rattle.simple_values.specs.declared.key.Key.{Key};
ghost use Rattle.identity_constraints.specs.Counting.{Links, Numbers, IsLinked, StandFor, firsts, is_visible};
ghost use Rattle.key_records.specs.Tables.{AreParents, for_key};
ghost use Rattle.key_records.specs.Counted.{Counted, counted_of, own_tuples, plus, with_keys, with_misuse, without_keys, with_nillable};
ghost use Rattle.key_records.specs.Faults.{faults_of};
ghost use Rattle.key_records.specs.References.{AreReferences, key_of};
ghost use Rattle.key_records.specs.Records.{AreRecords};
ghost use Rattle.key_records.specs.declared.references.References.{References as TheReferences};

use crate::faults::TargetFaults;
use crate::references::MOST;
use crate::{KeyRecords, KeyTree, References};
use identity_tables::Tuple;
use std::alloc::AllocError;

/// A target of an identity constraint (Structures 3.11.4).
#[derive(Clone, Copy)]
pub struct Target<'a> {
    /// The number of the element whose constraint it is.
    pub scope: u32,
    /// The number of the constraint.
    pub constraint: u32,
    /// Its key-sequence, where each field has a key.
    pub tuple: &'a Option<Tuple>,
    /// Whether a field has several nodes, or one of a complex type without simple content.
    pub misused: bool,
    /// Whether a field has an element whose declaration is nillable.
    pub nillable: bool,
}

impl Target<'_> {
    // Its faults: a misused field, no key-sequence, a nillable element.
    fn faults(&self) -> TargetFaults
        ensures { result ≡ faults_of self.now }
    {
        TargetFaults {
            misused: self.misused,
            lacking: self.tuple.is_none(),
            nillable: self.nillable,
        }
    }
}

impl KeyRecords {
    /// Counts a target more. The parents are those of all elements.
    ///
    /// # Errors
    ///
    /// `AllocError` is want of memory, or something would be there more than 4,294,967,295 times, or the constraint has a number of
    /// 2,147,483,648 or more. Then nothing is said of the records.
    pub fn put_in(&mut self, tree: &KeyTree<'_>, target: Target<'_>) -> Result<(), AllocError>
        requires sound { AreReferences tree.now.references.now }
        requires linked { (t : Links) × (c : Counted) × IsLinked t × AreParents t tree.now.parents.now × AreRecords t tree.now.references.now c self.old }
        ensures { OnOk result ((t : Links) (c : Counted) → IsLinked t → AreParents t tree.now.parents.now → AreRecords t tree.now.references.now c self.old → AreRecords t tree.now.references.now (plus c (counted_of target.entry)) self.new) }
    {
        if target.constraint as usize >= MOST {
            return Err(AllocError);
        }
        self.faults
            .add(target.scope, target.constraint, target.faults())?;
        match target.tuple {
            None => Ok(()),
            Some(tuple) => {
                self.put_tuple(tree, target.scope, target.constraint, tuple)?;
                Ok(())
            }
        }
    }

    /// Counts a target that was put in no more.
    ///
    /// # Errors
    ///
    /// As those of `put_in`.
    pub fn take_out(&mut self, tree: &KeyTree<'_>, target: Target<'_>) -> Result<(), AllocError>
        requires sound { AreReferences tree.now.references.now }
        requires linked { (t : Links) × (c : Counted) × IsLinked t × AreParents t tree.now.parents.now × AreRecords t tree.now.references.now (plus c (counted_of target)) self.old }
        ensures { OnOk result ((t : Links) (c : Counted) → IsLinked t → AreParents t tree.now.parents.now → AreRecords t tree.now.references.now (plus c (counted_of target.entry)) self.old → AreRecords t tree.now.references.now c self.new) }
    {
        if target.constraint as usize >= MOST {
            return Err(AllocError);
        }
        self.faults
            .remove(target.scope, target.constraint, target.faults())?;
        match target.tuple {
            None => Ok(()),
            Some(tuple) => {
                self.take_tuple(tree, target.scope, target.constraint, tuple)?;
                Ok(())
            }
        }
    }

    /// Whether a target of a constraint of an element misuses a field (cvc-identity-constraint.3).
    pub fn has_misused(&self, scope: u32, constraint: u32) -> bool
        ensures { (t : Links) (refs : TheReferences) (c : Counted) → AreRecords t refs c self.now → result ≡ nat_lt 0 (c scope constraint with_misuse) }
    {
        0 < self.faults.at(scope, constraint).misused
    }

    /// Whether a target of a constraint of an element has no key-sequence (cvc-identity-constraint.4.2.1).
    pub fn has_lacking(&self, scope: u32, constraint: u32) -> bool
        ensures { (t : Links) (refs : TheReferences) (c : Counted) → AreRecords t refs c self.now → result ≡ nat_lt 0 (c scope constraint without_keys) }
    {
        0 < self.faults.at(scope, constraint).lacking
    }

    /// Whether a field of a target of a constraint of an element has an element whose declaration is nillable
    /// (cvc-identity-constraint.4.2.3).
    pub fn has_nillable(&self, scope: u32, constraint: u32) -> bool
        ensures { (t : Links) (refs : TheReferences) (c : Counted) → AreRecords t refs c self.now → result ≡ nat_lt 0 (c scope constraint with_nillable) }
    {
        0 < self.faults.at(scope, constraint).nillable
    }

    /// Whether two targets of a constraint of an element have equal key-sequences (cvc-identity-constraint.4.1, .4.2.2).
    pub fn has_repeated(&self, references: &References, scope: u32, constraint: u32) -> bool
        requires few { constraint < 2 ^ 31 }
        ensures { (t : Links) (c : Counted) → AreRecords t references.now c self.now → IsTrue result ↔ ((tuple : List Key) × (2 ≤ c scope constraint (with_keys tuple))) }
    {
        self.has_equal(references.is_referred(constraint), scope, constraint)
    }

    /// Whether a target of a keyref of an element has a key-sequence that is not in the element's table for the key or unique that
    /// is referred to (cvc-identity-constraint.4.3, Structures 3.11.5).
    pub fn has_unmatched(&self, scope: u32, keyref: u32) -> bool
        requires few { keyref < 2 ^ 31 }
        ensures { (t : Links) (refs : TheReferences) (c : Counted) (key : ℕ) (below : Numbers) → AreReferences refs → AreRecords t refs c self.now → key_of refs keyref ≡ Some key → t.children scope ≡ firsts below → StandFor t below
            → IsTrue result ↔ ((tuple : List Key) × (1 ≤ c scope keyref (with_keys tuple)) × (is_visible (own_tuples c) (for_key key tuple) scope below ≡ false)) }
    {
        self.has_entries(scope, keyref)
    }
}
