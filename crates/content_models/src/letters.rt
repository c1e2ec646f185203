//! Which member accepts the names with a symbol.

ghost use Rattle.std.specs.Prelude.{◌≢◌, ◌≡◌, ℕ, ◌<◌, ◌≤◌, map, length, slice_index_or, All, IfOk};
ghost use Rattle.content_models.specs.Letters.{AreLettersOf, AreNoted, IsNoted, is_filled};

use std::alloc::{AllocError, Global};
use xs_lists::Listed;

/// The letter of the names that no member accepts.
pub(crate) const STRANGER: u16 = 64;

/// For each symbol the first member that accepts its names, or 64; and two members that accept one name.
#[derive(Drop)]
pub(crate) struct Letters {
    pub(crate) letters: Vec<u16>,
    pub(crate) pair: Option<(u16, u16)>,
}

/// The letters of so many symbols, by the symbols that each member accepts.
pub(crate) fn find_letters(
    alloc: Global,
    accepted: &[Listed<u32>],
    symbols: u32,
) -> Result<Letters, AllocError>
    requires few { length accepted.now ≤ 64 }
    requires below { All (All (λ n. n < symbols)) accepted.now }
    ensures { IfOk result (λ l. AreLettersOf accepted.now (length accepted.now) symbols l.letters.items l.pair) }
{
    let mut letters = vec![in alloc; STRANGER; symbols as usize]?;
    let mut pair = None;
    for (member, row) in accepted.iter().enumerate() {
        pair = pair.or(note(&mut letters, member as u16, row.as_slice()));
    }
    Ok(Letters { letters, pair })
}

/// Notes for each symbol of a row that the next member accepts it, unless an earlier one does; and answers such an earlier one.
fn note(letters: &mut Vec<u16>, member: u16, row: &[u32]) -> Option<(u16, u16)>
    requires member { member < 64 }
    requires below { All (λ n. n < length letters.old.items) row.now }
    requires new { (n : ℕ) → slice_index_or letters.old.items n 64 ≢ member }
    ensures { AreNoted letters.old.items member row.now letters.new.items result }
{
    let mut pair = None;
    for symbol in row {
        pair = note_one(letters, member, *symbol as usize).or(pair);
    }
    pair
}

/// Notes that the next member accepts a symbol, unless an earlier one does; and answers that one.
fn note_one(letters: &mut Vec<u16>, member: u16, symbol: usize) -> Option<(u16, u16)>
    requires member { member < 64 }
    requires below { symbol < length letters.old.items }
    ensures { IsNoted letters.old.items member symbol letters.new.items result }
{
    let letter = letters[symbol];
    if letter == STRANGER {
        letters[symbol] = member;
        return None;
    }
    if letter == member {
        return None;
    }
    Some((letter, member))
}

/// For each member whether it accepts some name.
pub(crate) fn find_inhabited(
    alloc: Global,
    accepted: &[Listed<u32>],
) -> Result<Vec<bool>, AllocError>
    ensures { IfOk result (λ flags. flags.items ≡ map is_filled accepted.now) }
{
    let mut flags = Vec::new(alloc);
    for row in accepted {
        flags.push(!row.is_empty())?;
    }
    Ok(flags)
}
