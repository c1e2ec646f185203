//! Rows of numbers of which those that are alike stand once.

ghost use Rattle.std.specs.Prelude.{◌≡◌, ◌<◌, ◌^◌, [], map, length, slice_index_or, IfOk, IsTrue};
ghost use Rattle.xs_positions.specs.Sets.{row};
ghost use Rattle.xs_positions.specs.Shared.{IsAmong};

use crate::sets::clone_rows;
use std::alloc::{AllocError, Global};
use std::marker::Model;

/// Rows of numbers. Contracts see the list of the rows.
#[derive(Drop)]
pub(crate) struct SharedRows {
    /// The rows that differ from those before them, as far as that was seen.
    rows: Vec<Vec<u32>>,
    /// For each row which one it is.
    numbers: Vec<u32>,
}

impl Model for SharedRows {
    ghost use Rattle.std.specs.Prelude.{List, ℕ};

    ghost Value = { List (List ℕ) };

    ghost use Rattle.xs_positions.specs.Shared.{shared_rows, AreThere};

    ghost view = { shared_rows };

    ghost invariant = { AreThere };
}

impl SharedRows {
    /// A copy with memory of its own.
    pub(crate) fn try_clone(&self, alloc: Global) -> Result<SharedRows, AllocError>
        ensures { IfOk result (λ rows. rows ≡ self.now) }
    {
        let rows = clone_rows(alloc, &self.rows)?;
        let numbers = Vec::from_slice(alloc, &self.numbers)?;
        Ok(SharedRows { rows, numbers })
    }

    /// The row at a place.
    pub(crate) fn row(&self, place: u32) -> &[u32]
        requires { place < length self.now }
        ensures { result.now ≡ row self.now place }
    {
        let number = self.numbers[place as usize];
        &self.rows[number as usize]
    }

    /// Whether the rows at these places are one, which alike rows mostly are.
    pub(crate) fn is_one(&self, place: u32, other: u32) -> bool
        requires { (place < length self.now) × (other < length self.now) }
        ensures { IsTrue result → row self.now place ≡ row self.now other }
    {
        let one = self.numbers[place as usize];
        let two = self.numbers[other as usize];
        one == two
    }
}

/// The rows, of which one that is as the latest of its length stands once with it.
pub(crate) fn share_rows(alloc: Global, rows: Vec<Vec<u32>>) -> Result<SharedRows, AllocError>
    requires { length rows.items < 2 ^ 32 }
    ensures { IfOk result (λ shared. shared ≡ map (λ row. row.items) rows.items) }
{
    let mut kept = Vec::new(alloc);
    let mut numbers = Vec::new(alloc);
    let mut latest = vec![in alloc; 0; rows.len() + 1]?;
    for row in rows {
        let size = row.len();
        let known = latest.get(size).copied().unwrap_or(0);
        let number = number_of(&mut kept, known, row)?;
        numbers.push(number)?;
        if size < latest.len() {
            latest[size] = number;
        }
    }
    Ok(SharedRows {
        rows: kept,
        numbers,
    })
}

/// The number of a row among rows: that one, where it is the same, else the number of one more.
fn number_of(rows: &mut Vec<Vec<u32>>, known: u32, row: Vec<u32>) -> Result<u32, AllocError>
    requires { length rows.old.items < 2 ^ 32 }
    ensures { IfOk result (λ number. IsAmong row.items number (map (λ row. row.items) rows.old.items) (map (λ row. row.items) rows.new.items)) }
{
    if is_at(rows, known, &row) {
        return Ok(known);
    }
    let number = rows.len() as u32;
    rows.push(row)?;
    Ok(number)
}

/// Whether the row of this number is the same.
fn is_at(rows: &[Vec<u32>], number: u32, row: &[u32]) -> bool
    ensures { IsTrue result → (number < length rows.now) × (slice_index_or (map (λ row. row.items) rows.now) number [] ≡ row.now) }
{
    match rows.get(number as usize) {
        Some(known) => known.as_slice() == row,
        None => false,
    }
}
