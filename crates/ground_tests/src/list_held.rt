//! Lists in slots, for the tests.

ghost use Rattle.std.specs.Prelude.{◌≡◌, ℕ, true, Some, None, slice_index_or};
ghost use Rattle.child_trees.specs.Lists.{IsLive, IsUpTo, HasItem};

use crate::nothing::Nothing;
use child_trees::{ItemId, Leaf, SeqId, Seqs, Slots};
use std::alloc::{AllocError, Global};
use std::marker::Model;
use xsv_steps::{Ledger, Steps};

/// The list in a slot.
fn in_slot(slots: &[Option<SeqId>], slot: usize) -> Option<SeqId>
    ensures { (q : ℕ) → result ≡ Some q → slice_index_or slots.now slot None ≡ Some q }
{
    if slot < slots.len() {
        slots[slot]
    } else {
        None
    }
}

/// Lists in slots. Each call does nothing where a slot is empty, or full where it is to be empty, or a place is out of
/// bounds, so that tests need no proofs of their own.
#[derive(Drop)]
pub struct Held {
    seqs: Seqs<Nothing>,
    slots: Vec<Option<SeqId>>,
}

impl Model for Held {
    ghost use Rattle.child_trees.specs.Lists.{Lists};
    ghost use Rattle.ground_tests.specs.ListHeld.{AreHeld};

    ghost Value = { Lists (Unit {0}) (Unit {0}) };

    ghost view = { λ h. h.seqs };

    ghost invariant = { λ h. AreHeld h.seqs h.slots.items };
}

impl Held {
    /// As many empty slots.
    pub fn new(alloc: Global, slots: usize) -> Result<Held, AllocError> {
        Ok(Held {
            seqs: Seqs::new(alloc, Nothing { cells: 0 }),
            slots: Vec::from_elem(alloc, None, slots)?,
        })
    }

    /// Puts an empty list into an empty slot.
    pub fn open(&mut self, slot: usize) -> Result<(), AllocError> {
        if slot < self.slots.len() && self.slots[slot].is_none() {
            let seq = self.seqs.new_seq()?;
            self.slots[slot] = Some(seq);
        }
        Ok(())
    }

    /// Puts a list of these leaves into an empty slot.
    pub fn build<L: Ledger>(
        &mut self,
        slot: usize,
        leaves: Vec<Leaf<()>>,
        steps: &mut Steps<L>,
    ) -> Result<(), AllocError> {
        if slot < self.slots.len() && self.slots[slot].is_none() {
            let seq = self.seqs.build(leaves, &(), steps)?;
            self.slots[slot] = Some(seq);
        }
        Ok(())
    }

    /// Gives a slot's list back.
    pub fn close(&mut self, slot: usize) {
        if let Some(seq) = in_slot(&self.slots, slot) {
            self.slots[slot] = None;
            self.seqs.drop_seq(seq);
        }
    }

    pub fn insert<L: Ledger>(
        &mut self,
        slot: usize,
        place: u32,
        leaf: Leaf<()>,
        steps: &mut Steps<L>,
    ) -> Result<Option<ItemId>, AllocError> {
        match in_slot(&self.slots, slot) {
            Some(seq) if self.reaches(seq, place) => {
                let item = self.seqs.insert(seq, place, leaf, &(), steps)?;
                Ok(Some(item))
            }
            _ => Ok(None),
        }
    }

    pub fn remove<L: Ledger>(&mut self, slot: usize, place: u32, steps: &mut Steps<L>) {
        if let Some(item) = self.at(slot, place) {
            self.seqs.remove(item, steps);
        }
    }

    pub fn at(&self, slot: usize, place: u32) -> Option<ItemId>
        ensures { (i : ℕ) → result ≡ Some i → HasItem self.now i }
    {
        self.seqs.at(in_slot(&self.slots, slot)?, place)
    }

    pub fn slots(&self) -> Slots {
        self.seqs.slots()
    }

    /// The number of the list in a slot.
    pub fn number(&self, slot: usize) -> Option<u32> {
        Some(in_slot(&self.slots, slot)?.number())
    }

    /// The items of a slot's list, in order.
    pub fn items(&self, slot: usize) -> Option<Result<Vec<ItemId>, AllocError>> {
        Some(self.seqs.items(in_slot(&self.slots, slot)?))
    }

    /// Whether the place is within the list, or at its end.
    fn reaches(&self, seq: SeqId, place: u32) -> bool
        requires { IsLive self.now seq }
        ensures { result ≡ true → IsUpTo self.now seq place }
    {
        place == 0 || self.seqs.at(seq, place - 1).is_some()
    }
}
