//! Rows in slots, for the tests.

ghost use Rattle.std.specs.Prelude.{◌≡◌, ◌+◌, ◌<◌, ◌≤◌, ℕ, true, Some, None, slice_index_or};

use map_rows::{RowId, Rows};
use std::alloc::{AllocError, Global};
use std::marker::Model;
use xsv_steps::{Ledger, Steps};

/// The row in a slot.
fn in_slot(slots: &[Option<RowId>], slot: usize) -> Option<RowId>
    ensures { (r : ℕ) → result ≡ Some r → slice_index_or slots.now slot None ≡ Some r }
{
    if slot < slots.len() {
        slots[slot]
    } else {
        None
    }
}

/// Rows in slots. Each call does nothing where a slot is empty or a place or a number is out of bounds, so that tests need no
/// proofs of their own.
#[derive(Drop)]
pub struct Held {
    width: u16,
    cap: u16,
    rows: Rows,
    slots: Vec<Option<RowId>>,
}

impl Model for Held {
    ghost use Rattle.map_rows.specs.Rows.{RowMap};
    ghost use Rattle.ground_tests.specs.Held.{AreHeld};

    ghost Value = { RowMap };

    ghost view = { λ h. h.rows };

    ghost invariant = { λ h. AreHeld h.rows h.width h.cap h.slots.items };
}

impl Held {
    /// As many empty slots, for rows that are maps.
    pub fn maps(alloc: Global, slots: usize, width: u16) -> Result<Held, AllocError>
        requires { 1 ≤ width }
    {
        Ok(Held {
            width,
            cap: width - 1,
            rows: Rows::new(alloc, width)?,
            slots: Vec::from_elem(alloc, None, slots)?,
        })
    }

    /// As many empty slots, for rows that are counts.
    pub fn counts(alloc: Global, slots: usize, width: u16, cap: u16) -> Result<Held, AllocError>
        requires width { 1 ≤ width }
        requires cap { 1 ≤ cap }
    {
        Ok(Held {
            width,
            cap,
            rows: Rows::with_cap(alloc, width, cap)?,
            slots: Vec::from_elem(alloc, None, slots)?,
        })
    }

    /// Takes a row into a slot.
    pub fn take(&mut self, slot: usize) -> Result<(), AllocError> {
        if slot < self.slots.len() {
            let row = self.rows.take_row()?;
            self.slots[slot] = Some(row);
        }
        Ok(())
    }

    /// Gives a slot's row back.
    pub fn give(&mut self, slot: usize) {
        if let Some(row) = in_slot(&self.slots, slot) {
            self.slots[slot] = None;
            self.rows.give_row(row);
        }
    }

    /// The number of a slot's row.
    pub fn number(&self, slot: usize) -> Option<u32> {
        match in_slot(&self.slots, slot) {
            Some(row) => Some(row.number()),
            None => None,
        }
    }

    pub fn get(&self, slot: usize, at: u16) -> Option<u16> {
        match in_slot(&self.slots, slot) {
            Some(row) if at < self.width => Some(self.rows.cell(row, at)),
            _ => None,
        }
    }

    pub fn set(&mut self, slot: usize, at: u16, value: u16) {
        if let Some(row) = in_slot(&self.slots, slot) {
            if at < self.width && value <= self.cap {
                self.rows.set_cell(row, at, value);
            }
        }
    }

    pub fn zero(&mut self, slot: usize) {
        if let Some(row) = in_slot(&self.slots, slot) {
            self.rows.set_zero(row);
        }
    }

    pub fn identity(&mut self, slot: usize) {
        if let Some(row) = in_slot(&self.slots, slot) {
            if self.is_of_maps() {
                self.rows.set_identity(row);
            }
        }
    }

    fn is_of_maps(&self) -> bool
        ensures { result ≡ true → self.now.cap + 1 ≡ self.now.width }
    {
        self.cap < self.width && self.cap + 1 == self.width
    }

    pub fn compose<L: Ledger>(
        &mut self,
        first: usize,
        second: usize,
        out: usize,
        steps: &mut Steps<L>,
    ) {
        let Some(left) = in_slot(&self.slots, first) else {
            return
        };
        let Some(right) = in_slot(&self.slots, second) else {
            return
        };
        let Some(into) = in_slot(&self.slots, out) else {
            return
        };
        if into != left && into != right && self.is_of_maps() {
            self.rows.compose_into(left, right, into, steps);
        }
    }

    pub fn add<L: Ledger>(
        &mut self,
        first: usize,
        second: usize,
        out: usize,
        steps: &mut Steps<L>,
    ) {
        let Some(left) = in_slot(&self.slots, first) else {
            return
        };
        let Some(right) = in_slot(&self.slots, second) else {
            return
        };
        let Some(into) = in_slot(&self.slots, out) else {
            return
        };
        if into != left && into != right {
            self.rows.add_into(left, right, into, steps);
        }
    }

    pub fn apply<L: Ledger>(&self, slot: usize, state: u16, steps: &mut Steps<L>) -> Option<u16> {
        match in_slot(&self.slots, slot) {
            Some(row) if self.is_of_maps() && state < self.width => {
                Some(self.rows.apply(row, state, steps))
            }
            _ => None,
        }
    }
}
