//! Targets by the numbers of elements.

ghost use Rattle.std.specs.Prelude.{◌≡◌, ◌<◌, [], ℕ, true, false, length, map, set, None, Some, IfOk, OnOk};
ghost use Rattle.identity_constraints.specs.Counting.{Links, IsLinked};
ghost use Rattle.key_records.specs.Tables.{AreParents, parent_in};
ghost use Rattle.key_records.specs.References.{AreReferences};
ghost use Rattle.scope_targets.specs.Found.{targeting_of};
ghost use Rattle.scope_targets.specs.Kept.{AreKept, CanKeep, Reparents, Retargets, parent_of, targets_of};

use crate::ElementTargeting;
use crate::counting::{put_all, take_all};
use kept_slots::Slots;
use key_records::{KeyRecords, KeyTree, References};
use std::alloc::{AllocError, Global};

/// The elements of a document as targets of identity constraints, each by its number, with its parent, and counted: which codes a scope
/// has is read off the counts. What was counted of an element is kept, and is taken out as it was put in.
///
/// Behind want of memory nothing is said of what is kept.
#[derive(Drop)]
pub struct CountedKeys {
    alloc: Global,
    pub references: References,
    pub parents: Vec<Option<u32>>,
    pub records: KeyRecords,
    pub targets: Slots<Vec<ElementTargeting>>,
}

// Makes a place for a number, where there is none.
fn reach(parents: &mut Vec<Option<u32>>, number: u32) -> Result<(), AllocError>
    ensures within { OnOk result (number < length parents.new.items) }
    ensures same { OnOk result ((n : ℕ) → parent_in parents.new.items n ≡ parent_in parents.old.items n) }
{
    'short: while parents.len() <= number as usize {
        parents.push(None)?;
    }
    Ok(())
}

// Writes the parent of a number that has a place.
fn write(parents: &mut Vec<Option<u32>>, number: u32, parent: Option<u32>)
    requires { number < length parents.old.items }
    ensures { parents.new.items ≡ set parents.old.items number parent }
{
    parents[number as usize] = parent;
}

// Whether a parent, if there is one, has a lower number.
fn is_lower(parent: Option<u32>, number: u32) -> bool
    ensures { result ≡ true → (p : ℕ) → parent ≡ Some p → p < number }
{
    match parent {
        None => true,
        Some(parent) => parent < number,
    }
}

impl CountedKeys {
    /// No elements.
    ///
    /// # Errors
    ///
    /// `AllocError` is want of memory.
    pub fn new(alloc: Global, references: References) -> Result<CountedKeys, AllocError>
        requires { AreReferences references }
        ensures kept { IfOk result (λ keys. (t : Links) → AreParents t [] → AreKept t keys) }
        ensures none { IfOk result (λ keys. (n : ℕ) → (parent_of keys n ≡ None) × (targets_of keys n ≡ [])) }
        ensures references { IfOk result (λ keys. keys.references ≡ references) }
    {
        let parents = Vec::new(alloc);
        let records = KeyRecords::new(alloc)?;
        let targets = Slots::new(alloc);
        Ok(CountedKeys {
            alloc,
            references,
            parents,
            records,
            targets,
        })
    }

    /// The parent that is kept of an element.
    pub fn parent(&self, number: u32) -> Option<u32>
        ensures { result ≡ parent_of self.now number }
    {
        match self.parents.get(number as usize) {
            None => None,
            Some(parent) => *parent,
        }
    }

    /// Whether an element is a target of some constraint.
    pub fn is_target(&self, number: u32) -> bool
        ensures { result ≡ false → targets_of self.now number ≡ [] }
    {
        self.targets.get(number).is_some()
    }

    /// Keeps another parent of an element. Where an element comes or goes that shows nothing, the counts stay right
    /// (`counts_stay_as_an_element_moves`).
    ///
    /// # Errors
    ///
    /// `AllocError` is want of memory, or the number of the parent is no lower one.
    pub fn set_parent(&mut self, number: u32, parent: Option<u32>) -> Result<(), AllocError>
        ensures parent { OnOk result (Reparents self.old self.new number parent) }
        ensures lower { OnOk result ((p : ℕ) → parent ≡ Some p → p < number) }
    {
        if !is_lower(parent, number) {
            return Err(AllocError);
        }
        reach(&mut self.parents, number)?;
        write(&mut self.parents, number, parent);
        Ok(())
    }

    /// Takes an element out as a target.
    ///
    /// # Errors
    ///
    /// `AllocError` is want of memory.
    pub fn take_targets(&mut self, number: u32) -> Result<(), AllocError>
        requires kept { CanKeep self.old }
        ensures kept { OnOk result ((t : Links) → IsLinked t → AreKept t self.old → AreKept t self.new) }
        ensures taken { OnOk result (Retargets self.old self.new number []) }
    {
        let Some(found) = self.targets.take(number) else {
            return Ok(());
        };
        let parents = self.parents.as_slice();
        let tree = KeyTree {
            parents,
            references: &self.references,
        };
        let counted = found.as_slice();
        take_all(&tree, &mut self.records, counted)?;
        Ok(())
    }

    /// Puts an element in as these targets, that is kept as none.
    ///
    /// # Errors
    ///
    /// `AllocError` is want of memory, or so much would be there more than 4,294,967,295 times, or a constraint has a number of
    /// 2,147,483,648 or more.
    pub fn put_targets(
        &mut self,
        number: u32,
        found: Vec<ElementTargeting>,
    ) -> Result<(), AllocError>
        requires kept { CanKeep self.old }
        requires none { targets_of self.old number ≡ [] }
        ensures kept { OnOk result ((t : Links) → IsLinked t → AreKept t self.old → AreKept t self.new) }
        ensures put { OnOk result (Retargets self.old self.new number (map targeting_of found.items)) }
    {
        if found.is_empty() {
            return Ok(());
        }
        let parents = self.parents.as_slice();
        let tree = KeyTree {
            parents,
            references: &self.references,
        };
        let counted = found.as_slice();
        put_all(&tree, &mut self.records, counted)?;
        self.targets.reach(number)?;
        match Box::new(self.alloc, found) {
            Ok(kept) => {
                self.targets.put(number, kept);
                Ok(())
            }
            Err(_) => Err(AllocError),
        }
    }
}
