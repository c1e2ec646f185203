//! Where rows lie in the blocks, and their cells one by one.

ghost use Rattle.std.specs.Prelude.{◌≡◌, ◌+◌, ◌-◌, ◌^◌, ◌<◌, max};
ghost use Rattle.std.specs.Option.{ForSome};
ghost use Rattle.map_rows.specs.Places.{IsPlace, LiesIn, ChangesOnly, number, block_of, start_of, link_of, cell, next};

use crate::block::{Base, Block};

/// The numbers of a block's rows begin at a multiple of this, and no block has more rows.
pub const ROWS: u32 = 1024;

/// What the cells of the last free row say in place of the next one's number.
const NO_ROW: u32 = u32::MAX;

/// Where a row lies: its block, where that begins, and how many cells come before the row there.
#[derive(Clone, Copy)]
pub struct Place {
    pub base: Base,
    pub block: usize,
    pub start: usize,
}

/// How many cells a row takes. It has room for two, so that a free row can hold the number of the next one.
pub fn stride(width: u16) -> usize
    ensures { result ≡ max width 2 }
{
    width.max(2) as usize
}

/// Finds a row.
pub fn find(blocks: &[Block], width: u16, row: u32) -> Place
    requires { IsPlace blocks.now (max width 2) row }
    ensures block { result.block ≡ block_of row }
    ensures start { result.start ≡ start_of (max width 2) row }
    ensures lies { LiesIn blocks.now result (max width 2) }
{
    let block = (row / ROWS) as usize;
    let start = (row % ROWS) as usize * stride(width);
    let base = blocks[block].base();
    Place { base, block, start }
}

/// The number in a cell of a row.
pub fn read(blocks: &[Block], place: Place, at: usize) -> u16
    requires { LiesIn blocks.now place (at + 1) }
    ensures { result ≡ number blocks.now place.block (place.start + at) }
{
    blocks[place.block].get(place.base, place.start + at)
}

/// Writes a number into a cell of a row.
pub fn write(blocks: &mut [Block], place: Place, at: usize, value: u16)
    requires { LiesIn blocks.old place (at + 1) }
    ensures value { number blocks.new place.block (place.start + at) ≡ value }
    ensures frame { ChangesOnly blocks.old blocks.new place.block (place.start + at) 1 }
{
    blocks[place.block].set(place.base, place.start + at, value);
}

/// The free row after this one, which is told by its first two cells.
pub fn read_link(blocks: &[Block], place: Place) -> Option<u32>
    requires { LiesIn blocks.now place 2 }
    ensures { result ≡ link_of (number blocks.now place.block place.start) (number blocks.now place.block (place.start + 1)) }
{
    let low = read(blocks, place, 0) as u32;
    let high = read(blocks, place, 1) as u32;
    let row = high * 65_536 + low;
    if row == NO_ROW { None } else { Some(row) }
}

/// Writes into a row's first two cells which free row comes after it.
pub fn write_link(blocks: &mut [Block], place: Place, next: Option<u32>)
    requires next { ForSome next (λ n. n < 2 ^ 32 - 1) }
    requires place { LiesIn blocks.old place 2 }
    ensures link { link_of (number blocks.new place.block place.start) (number blocks.new place.block (place.start + 1)) ≡ next }
    ensures frame { ChangesOnly blocks.old blocks.new place.block place.start 2 }
{
    let row = next.unwrap_or(NO_ROW);
    write(blocks, place, 0, (row % 65_536) as u16);
    write(blocks, place, 1, (row / 65_536) as u16);
}

/// Makes a row's first two cells 0.
pub fn clear_link(blocks: &mut [Block], place: Place)
    requires { LiesIn blocks.old place 2 }
    ensures first { number blocks.new place.block place.start ≡ 0 }
    ensures second { number blocks.new place.block (place.start + 1) ≡ 0 }
    ensures frame { ChangesOnly blocks.old blocks.new place.block place.start 2 }
{
    write(blocks, place, 0, 0);
    write(blocks, place, 1, 0);
}
