//! Whole rows, cell by cell.

ghost use Rattle.std.specs.Prelude.{◌≡◌, ℕ, ◌+◌, ◌<◌};
ghost use Rattle.map_rows.specs.Places.{LiesIn, ChangesOnly, number};
ghost use Rattle.map_rows.specs.Filling.{number_for, IsFilling, IsApart};

use crate::block::Block;
use crate::place::{Place, read, write};

/// The numbers of a row that is made from no other.
#[derive(Clone, Copy)]
pub enum Plain {
    /// 0 in each cell.
    Zeros,
    /// Its own place in each cell.
    Places,
}

/// What two rows give together.
#[derive(Clone, Copy)]
pub enum Operation {
    /// What the second row has at each number of the first.
    Composition,
    /// The sums of their cells, and the cap where a sum is above it.
    Sum { cap: u16 },
}

/// What a row is made of.
#[derive(Clone, Copy)]
pub enum Filling {
    /// Of no other row.
    Alone(Plain),
    /// Of two rows.
    Pair {
        operation: Operation,
        first: Place,
        second: Place,
    },
}

/// The number for a place of a row.
fn number_at(blocks: &[Block], width: u16, filling: Filling, at: u16) -> u16
    requires filling { IsFilling blocks.now width filling }
    requires at { at < width }
    ensures { result ≡ number_for blocks.now filling at }
{
    match filling {
        Filling::Alone(Plain::Zeros) => 0,
        Filling::Alone(Plain::Places) => at,
        Filling::Pair {
            operation,
            first,
            second,
        } => {
            let left = read(blocks, first, at as usize);
            match operation {
                Operation::Composition => read(blocks, second, left as usize),
                Operation::Sum { cap } => {
                    let right = read(blocks, second, at as usize);
                    left.saturating_add(right).min(cap)
                }
            }
        }
    }
}

/// Writes the cells of a row.
pub fn write_row(blocks: &mut [Block], out: Place, width: u16, filling: Filling)
    requires out { LiesIn blocks.old out width }
    requires filling { IsFilling blocks.old width filling }
    requires apart { IsApart out width filling }
    ensures value { (i : ℕ) → i < width → number blocks.new out.block (out.start + i) ≡ number_for blocks.old filling i }
    ensures frame { ChangesOnly blocks.old blocks.new out.block out.start width }
{
    for at in 0..width {
        let number = number_at(blocks, width, filling, at);
        write(blocks, out, at as usize, number);
    }
}
