//! Rows under their numbers.

ghost use Rattle.std.specs.Prelude.{◌≡◌, ◌≢◌, ℕ, ◌+◌, ◌-◌, ◌<◌, ◌≤◌, List, [], Some, None, replicate, slice_index, slice_set, IfOk, OnErr};
ghost use Rattle.map_rows.specs.Filling.{CanFill, CanPair, plain_row, pair_row};
ghost use Rattle.map_rows.specs.Rows.{RowMap, get, IsLive, IsRow, AreRows, Updates, identity, composed, added};

use crate::block::Block;
use crate::live::Live;
use crate::place::{clear_link, find, read, write};
use crate::spare::Spare;
use crate::whole::{Filling, Operation, Plain, write_row};
use std::alloc::{AllocError, Global};
use std::marker::Model;
use xsv_steps::{Ledger, Steps};

/// The number of a row in a `Rows`. A number that was given back comes again. Contracts see the number.
#[derive(Clone, Copy, PartialEq)]
pub struct RowId {
    number: u32,
}

impl Model for RowId {
    ghost use Rattle.std.specs.Prelude.{ℕ};

    ghost Value = { ℕ };

    ghost view = { λ r. r.number };

    ghost inverse = { λ n. record { number = n } };
}

impl RowId {
    /// The number.
    pub fn number(&self) -> u32
        ensures { result ≡ self.now }
    {
        self.number
    }
}

/// Many rows of numbers. Each row has `width` cells, and no cell is above the cap.
///
/// The rows lie in blocks that never move and are given back when the `Rows` is dropped. Each block has twice as many rows
/// as the one before, up to a bound, so few blocks are made and no row is ever copied.
#[derive(Drop)]
pub struct Rows {
    alloc: Global,
    width: u16,
    cap: u16,
    blocks: Vec<Block>,
    spare: Spare,
    live: Live,
}

impl Model for Rows {
    ghost use Rattle.map_rows.specs.Rows.{RowMap};
    ghost use Rattle.map_rows.specs.Kept.{row_map, AreKept};

    ghost Value = { RowMap };

    ghost view = { λ s. row_map s.width s.cap s.blocks.items s.live.marks };

    ghost invariant = { λ s. AreKept s.width s.cap s.blocks.items s.live.marks s.spare };
}

impl Rows {
    /// No rows yet, of `width` cells with numbers below the width: a row is a map of these numbers.
    pub fn new(alloc: Global, width: u16) -> Result<Rows, AllocError>
        requires { 1 ≤ width }
        ensures { IfOk result (λ rows. rows ≡ record { width = width; cap = width - 1; rows = [] }) }
    {
        Ok(Rows::empty(alloc, width, width - 1))
    }

    /// No rows yet, of `width` cells with numbers up to `cap`.
    pub fn with_cap(alloc: Global, width: u16, cap: u16) -> Result<Rows, AllocError>
        requires width { 1 ≤ width }
        requires cap { 1 ≤ cap }
        ensures { IfOk result (λ rows. rows ≡ record { width = width; cap = cap; rows = [] }) }
    {
        Ok(Rows::empty(alloc, width, cap))
    }

    fn empty(alloc: Global, width: u16, cap: u16) -> Rows
        requires { 1 ≤ width }
        ensures { result ≡ record { width = width; cap = cap; rows = [] } }
    {
        Rows {
            alloc,
            width,
            cap,
            blocks: Vec::new(alloc),
            spare: Spare::new(),
            live: Live::new(),
        }
    }

    /// Takes a row that was not live. Its cells are whatever they are, up to the cap.
    pub fn take_row(&mut self) -> Result<RowId, AllocError>
        ensures was_free { IfOk result (λ row. get self.old row ≡ None) }
        ensures ok { IfOk result (λ row. (xs : List ℕ) × IsRow self.old xs × Updates self.old self.new row (Some xs)) }
        ensures err { OnErr result (self.new ≡ self.old) }
        ensures rows { AreRows self.new }
    {
        let number = self.spare.take(self.alloc, &mut self.blocks, self.width)?;
        let place = find(&self.blocks, self.width, number);
        clear_link(&mut self.blocks, place);
        self.live.set(number, true);
        Ok(RowId { number })
    }

    /// Gives a row back, so that its number may be taken again.
    pub fn give_row(&mut self, row: RowId)
        requires { IsLive self.old row }
        ensures row { Updates self.old self.new row None }
        ensures rows { AreRows self.new }
    {
        self.spare.give(&mut self.blocks, self.width, row.number);
        self.live.set(row.number, false);
    }

    /// The number in a cell.
    pub fn cell(&self, row: RowId, at: u16) -> u16
        requires row { IsLive self.now row }
        requires at { at < self.now.width }
        ensures value { (xs : List ℕ) → get self.now row ≡ Some xs → result ≡ slice_index xs at }
        ensures small { result ≤ self.now.cap }
    {
        read(
            &self.blocks,
            find(&self.blocks, self.width, row.number),
            at as usize,
        )
    }

    /// Writes a number into a cell.
    pub fn set_cell(&mut self, row: RowId, at: u16, value: u16)
        requires row { IsLive self.old row }
        requires at { at < self.old.width }
        requires value { value ≤ self.old.cap }
        ensures row { (xs : List ℕ) → get self.old row ≡ Some xs → Updates self.old self.new row (Some (slice_set xs at value)) }
        ensures rows { AreRows self.new }
    {
        let place = find(&self.blocks, self.width, row.number);
        write(&mut self.blocks, place, at as usize, value);
    }

    /// Writes 0 into each cell.
    pub fn set_zero(&mut self, row: RowId)
        requires { IsLive self.old row }
        ensures row { Updates self.old self.new row (Some (replicate self.old.width 0)) }
        ensures rows { AreRows self.new }
    {
        self.fill(row, Plain::Zeros);
    }

    /// Writes into each cell its own place.
    pub fn set_identity(&mut self, row: RowId)
        requires row { IsLive self.old row }
        requires cap { self.old.cap + 1 ≡ self.old.width }
        ensures row { Updates self.old self.new row (Some (identity self.old.width)) }
        ensures rows { AreRows self.new }
    {
        self.fill(row, Plain::Places);
    }

    /// Makes a row the second map after the first. It takes one step.
    pub fn compose_into<L: Ledger>(
        &mut self,
        first: RowId,
        second: RowId,
        out: RowId,
        steps: &mut Steps<L>,
    )
        requires first { IsLive self.old first }
        requires second { IsLive self.old second }
        requires out { IsLive self.old out }
        requires not_first { out ≢ first }
        requires not_second { out ≢ second }
        requires cap { self.old.cap + 1 ≡ self.old.width }
        ensures row { (xs ys : List ℕ) → get self.old first ≡ Some xs → get self.old second ≡ Some ys → Updates self.old self.new out (Some (composed xs ys)) }
        ensures rows { AreRows self.new }
        ensures steps { steps.new ≡ steps.old + 1 }
    {
        steps.tick(); // a composition
        self.combine(Operation::Composition, first, second, out);
    }

    /// Makes a row the sum of two, cell by cell, with the cap where a sum is above it. It takes one step.
    pub fn add_into<L: Ledger>(
        &mut self,
        first: RowId,
        second: RowId,
        out: RowId,
        steps: &mut Steps<L>,
    )
        requires first { IsLive self.old first }
        requires second { IsLive self.old second }
        requires out { IsLive self.old out }
        requires not_first { out ≢ first }
        requires not_second { out ≢ second }
        ensures row { (xs ys : List ℕ) → get self.old first ≡ Some xs → get self.old second ≡ Some ys → Updates self.old self.new out (Some (added self.old.cap xs ys)) }
        ensures rows { AreRows self.new }
        ensures steps { steps.new ≡ steps.old + 1 }
    {
        steps.tick(); // a sum
        self.combine(Operation::Sum { cap: self.cap }, first, second, out);
    }

    /// What the map has at a number. It takes one step.
    pub fn apply<L: Ledger>(&self, row: RowId, state: u16, steps: &mut Steps<L>) -> u16
        requires row { IsLive self.now row }
        requires cap { self.now.cap + 1 ≡ self.now.width }
        requires state { state < self.now.width }
        ensures value { (xs : List ℕ) → get self.now row ≡ Some xs → result ≡ slice_index xs state }
        ensures state { result < self.now.width }
        ensures steps { steps.new ≡ steps.old + 1 }
    {
        steps.tick(); // an application
        self.cell(row, state)
    }

    /// Writes a row that is made from no other.
    fn fill(&mut self, row: RowId, plain: Plain)
        requires row { IsLive self.old row }
        requires plain { CanFill self.old plain }
        ensures row { Updates self.old self.new row (Some (plain_row self.old.width plain)) }
        ensures rows { AreRows self.new }
    {
        let place = find(&self.blocks, self.width, row.number);
        write_row(&mut self.blocks, place, self.width, Filling::Alone(plain));
    }

    /// Writes the row that two others give together.
    fn combine(&mut self, operation: Operation, first: RowId, second: RowId, out: RowId)
        requires operation { CanPair self.old operation }
        requires first { IsLive self.old first }
        requires second { IsLive self.old second }
        requires out { IsLive self.old out }
        requires not_first { out ≢ first }
        requires not_second { out ≢ second }
        ensures row { (xs ys : List ℕ) → get self.old first ≡ Some xs → get self.old second ≡ Some ys → Updates self.old self.new out (Some (pair_row operation xs ys)) }
        ensures rows { AreRows self.new }
    {
        let place = find(&self.blocks, self.width, out.number);
        let filling = Filling::Pair {
            operation,
            first: find(&self.blocks, self.width, first.number),
            second: find(&self.blocks, self.width, second.number),
        };
        write_row(&mut self.blocks, place, self.width, filling);
    }
}
