//! Sets of positions, as rising lists.

ghost use Rattle.std.specs.Prelude.{◌≡◌, ℕ, ◌<◌, ◌↔◌, ◌⊎◌, [], map, length, filter, slice_index_or, All, Contains, IfOk, OnOk};
ghost use Rattle.std.specs.List.Sorted.{IsStrictlyIncreasing};
ghost use Rattle.content_automaton.specs.Moves.{AreListed, IsWithin, takes, Comes, ArePut};

use crate::rows::sort_unique;
use particle_models::Unrolled;
use std::alloc::{AllocError, Global};
use xs_lists::Listed;

/// The positions that come next after those of a set, and at the start those that come first.
pub(crate) fn coming(
    alloc: Global,
    form: &Unrolled,
    set: &[u32],
    starts: bool,
) -> Result<Vec<u32>, AllocError>
    requires within { IsWithin form.now.table }
    requires set { All (λ p. p < length form.now.table.symbols) set.now }
    ensures members { IfOk result (λ next. (q : ℕ) → Contains next.items q ↔ Comes form.now.table starts set.now q) }
    ensures rises { IfOk result (λ next. IsStrictlyIncreasing next.items) }
{
    let mut flags = vec![in alloc; false; form.count() as usize]?;
    let mut next = Vec::new(alloc);
    if starts {
        put_all(&mut flags, &mut next, form.first())?;
    }
    for p in set {
        put_all(&mut flags, &mut next, form.follow(*p))?;
    }
    sort_unique(&mut next);
    Ok(next)
}

/// Puts those of the numbers into the list that are not there. A flag says of each number whether it is.
fn put_all(flags: &mut Vec<bool>, list: &mut Vec<u32>, more: &[u32]) -> Result<(), AllocError>
    requires fits { All (λ p. p < length flags.old.items) more.now }
    requires listed { AreListed flags.old.items list.old.items }
    ensures members { OnOk result ((p : ℕ) → Contains list.new.items p ↔ (Contains list.old.items p ⊎ Contains more.now p)) }
    ensures listed { OnOk result (AreListed flags.new.items list.new.items) }
    ensures count { OnOk result (length flags.new.items ≡ length flags.old.items) }
{
    for p in more {
        put_one(flags, list, *p)?;
    }
    Ok(())
}

/// Puts the number into the list, if it is not there.
fn put_one(flags: &mut Vec<bool>, list: &mut Vec<u32>, number: u32) -> Result<(), AllocError>
    requires fits { number < length flags.old.items }
    requires listed { AreListed flags.old.items list.old.items }
    ensures members { OnOk result ((p : ℕ) → Contains list.new.items p ↔ (Contains list.old.items p ⊎ (p ≡ number))) }
    ensures listed { OnOk result (AreListed flags.new.items list.new.items) }
    ensures count { OnOk result (length flags.new.items ≡ length flags.old.items) }
{
    if flags[number as usize] {
        return Ok(());
    }
    flags[number as usize] = true;
    list.push(number)?;
    Ok(())
}

/// A set of no positions for each symbol.
pub(crate) fn no_sets(alloc: Global, symbols: u32) -> Result<Vec<Vec<u32>>, AllocError>
    ensures { IfOk result (λ sets. length sets.items ≡ symbols) }
{
    let mut sets = Vec::new(alloc);
    for _ in 0..symbols {
        sets.push(Vec::new(alloc))?;
    }
    Ok(sets)
}

/// Makes each set empty. It keeps its memory.
fn clear_all(sets: &mut Vec<Vec<u32>>)
    ensures empty { (n : ℕ) → slice_index_or (map (λ set. set.items) sets.new.items) n [] ≡ [] }
    ensures count { length sets.new.items ≡ length sets.old.items }
{
    for n in 0..sets.len() {
        sets[n].clear();
    }
}

/// Makes the sets, one for each symbol, those of the positions of a set whose terms accept it. They keep the memory of what they
/// had.
pub(crate) fn sort_out(
    form: &Unrolled,
    accepted: &[Listed<u32>],
    set: &[u32],
    sets: &mut Vec<Vec<u32>>,
) -> Result<(), AllocError>
    requires set { All (λ p. p < length form.now.table.symbols) set.now }
    requires rises { All IsStrictlyIncreasing accepted.now }
    requires below { All (All (λ n. n < length sets.old.items)) accepted.now }
    ensures sets { OnOk result ((n : ℕ) → n < length sets.old.items → slice_index_or (map (λ set. set.items) sets.new.items) n [] ≡ filter (λ p. takes form.now.table accepted.now p n) set.now) }
    ensures count { OnOk result (length sets.new.items ≡ length sets.old.items) }
{
    clear_all(sets);
    for p in set {
        if let Some(row) = accepted.get(form.term_of(*p) as usize) {
            put_at(sets, row.as_slice(), *p)?;
        }
    }
    Ok(())
}

/// Puts the position into the sets of these symbols.
fn put_at(sets: &mut Vec<Vec<u32>>, row: &[u32], p: u32) -> Result<(), AllocError>
    requires rises { IsStrictlyIncreasing row.now }
    requires below { All (λ n. n < length sets.old.items) row.now }
    ensures sets { OnOk result (ArePut (map (λ set. set.items) sets.old.items) (map (λ set. set.items) sets.new.items) row.now p) }
{
    for n in row {
        sets[*n as usize].push(p)?;
    }
    Ok(())
}
