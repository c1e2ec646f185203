//! The free rows.

ghost use Rattle.std.specs.Prelude.{◌≡◌, ℕ, [], List, Bool, false, max, IfOk, OnErr};
ghost use Rattle.map_rows.specs.Marks.{IsMarked, marked};
ghost use Rattle.map_rows.specs.Places.{IsPlace, ChangesOnly, block_of, start_of};

use crate::block::Block;
use crate::place::{ROWS, find, read_link, stride, write_link};
use std::alloc::{AllocError, Global};
use std::ops::Range;

/// How many rows the first block has. Each block has twice the rows of the one before, up to `ROWS`.
const FIRST_ROWS: u32 = 8;

/// How many blocks there may be, so that a row's number is below `u32::MAX`.
const MOST_BLOCKS: usize = (u32::MAX / ROWS) as usize;

/// The free rows: those that were given back, and those of the newest block that were never taken.
#[derive(Drop)]
pub struct Spare {
    /// The row that was given back last. The first two cells of each tell the one before it.
    pub free: Option<u32>,
    /// The rows that were never taken.
    pub unused: Range<u32>,
    /// How many rows the next block has.
    pub next_rows: u32,
}

impl Spare {
    ghost use Rattle.map_rows.specs.Free.{AreSpare, Takes};

    /// No free row, before the first block.
    pub fn new() -> Spare
        ensures { (stride : ℕ) → AreSpare [] stride [] result }
    {
        Spare {
            free: None,
            unused: 0..0,
            next_rows: FIRST_ROWS,
        }
    }

    /// Takes a free row, from a new block where there is none.
    pub fn take(
        &mut self,
        alloc: Global,
        blocks: &mut Vec<Block>,
        width: u16,
    ) -> Result<u32, AllocError>
        requires { (marks : List Bool) × AreSpare blocks.old.items (max width 2) marks self.old }
        ensures ok { IfOk result (λ row. (marks : List Bool) → AreSpare blocks.old.items (max width 2) marks self.old
            → Takes blocks.old.items blocks.new.items (max width 2) marks self.new row) }
        ensures blocks { OnErr result (blocks.new.items ≡ blocks.old.items) }
        ensures same { OnErr result (self.new ≡ self.old) }
    {
        match self.free {
            Some(row) => {
                self.free = read_link(blocks, find(blocks, width, row));
                Ok(row)
            }
            None => self.take_unused(alloc, blocks, width),
        }
    }

    /// Takes a row that was never taken. None was given back.
    fn take_unused(
        &mut self,
        alloc: Global,
        blocks: &mut Vec<Block>,
        width: u16,
    ) -> Result<u32, AllocError>
        requires { (marks : List Bool) × AreSpare blocks.old.items (max width 2) marks self.old }
        ensures ok { IfOk result (λ row. (marks : List Bool) → AreSpare blocks.old.items (max width 2) marks self.old
            → Takes blocks.old.items blocks.new.items (max width 2) marks self.new row) }
        ensures blocks { OnErr result (blocks.new.items ≡ blocks.old.items) }
        ensures same { OnErr result (self.new ≡ self.old) }
    {
        if self.unused.start < self.unused.end {
            let row = self.unused.start;
            self.unused.start += 1;
            Ok(row)
        } else {
            self.take_new(alloc, blocks, width)
        }
    }

    /// Takes the first row of a new block.
    fn take_new(
        &mut self,
        alloc: Global,
        blocks: &mut Vec<Block>,
        width: u16,
    ) -> Result<u32, AllocError>
        requires { (marks : List Bool) × AreSpare blocks.old.items (max width 2) marks self.old }
        ensures ok { IfOk result (λ row. (marks : List Bool) → AreSpare blocks.old.items (max width 2) marks self.old
            → Takes blocks.old.items blocks.new.items (max width 2) marks self.new row) }
        ensures blocks { OnErr result (blocks.new.items ≡ blocks.old.items) }
        ensures same { OnErr result (self.new ≡ self.old) }
    {
        if blocks.len() >= MOST_BLOCKS {
            return Err(AllocError);
        }
        let first = blocks.len() as u32 * ROWS;
        let rows = self.next_rows;
        blocks.push(Block::zeros(alloc, rows as usize * stride(width))?)?;
        self.unused = first + 1..first + rows;
        self.next_rows = (rows * 2).min(ROWS);
        Ok(first)
    }

    /// Gives a row back.
    pub fn give(&mut self, blocks: &mut [Block], width: u16, row: u32)
        requires { (marks : List Bool) × AreSpare blocks.old (max width 2) marks self.old × IsMarked marks row × IsPlace blocks.old (max width 2) row }
        ensures spare { (marks : List Bool) → AreSpare blocks.old (max width 2) marks self.old → IsMarked marks row
            → AreSpare blocks.new (max width 2) (marked marks row false) self.new }
        ensures frame { ChangesOnly blocks.old blocks.new (block_of row) (start_of (max width 2) row) 2 }
    {
        let place = find(blocks, width, row);
        write_link(blocks, place, self.free);
        self.free = Some(row);
    }
}
