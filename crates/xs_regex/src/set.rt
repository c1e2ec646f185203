//! Sets of positions that take no memory once they are made.

ghost use Rattle.std.specs.Prelude.{◌≡◌, ℕ, ◌<◌, ◌↔◌, false, true, take, length, replicate, slice_set, All, Contains, IfOk};
ghost use Rattle.xs_regex.specs.Sets.{Has};

use std::alloc::{AllocError, Global};
use std::marker::Model;

/// A set of numbers below a bound. Contracts see a flag for each number below it.
#[derive(Drop)]
pub(crate) struct PositionSet {
    flags: Vec<bool>,
    /// The numbers whose flag is set, each of them once. There is room for all below the bound.
    members: Vec<u32>,
}

impl Model for PositionSet {
    ghost use Rattle.std.specs.Prelude.{List, Bool, vec_capacity};

    ghost Value = { List Bool };

    ghost use Rattle.xs_regex.specs.Listed.{IsListed};

    ghost view = { λ set. set.flags.items };

    ghost invariant = { λ set. IsListed set.flags.items set.members.items (vec_capacity set.members) };
}

impl PositionSet {
    /// The empty set of numbers below the count.
    pub(crate) fn new(alloc: Global, count: u32) -> Result<PositionSet, AllocError>
        ensures { IfOk result (λ set. set ≡ replicate count false) }
    {
        let count = count as usize;
        Ok(PositionSet {
            flags: vec![in alloc; false; count]?,
            members: Vec::with_capacity(alloc, count)?,
        })
    }

    /// The numbers of the set.
    pub(crate) fn members(&self) -> &[u32]
        ensures { (p : ℕ) → Contains result.now p ↔ Has self.now p }
    {
        &self.members
    }

    /// Puts the number into the set.
    pub(crate) fn insert(&mut self, p: u32)
        requires { p < length self.old }
        ensures { self.new ≡ slice_set self.old p true }
    {
        if !self.flags[p as usize] {
            self.flags[p as usize] = true;
            self.members.push_reserved(p);
        }
    }

    /// Takes all numbers out of the set.
    pub(crate) fn clear(&mut self)
        ensures empty { (p : ℕ) → ¬ Has self.new p }
        ensures size { length self.new ≡ length self.old }
    {
        clear_flags(&mut self.flags, &self.members);
        self.members.clear();
    }
}

/// Clears the flags of these numbers.
fn clear_flags(flags: &mut Vec<bool>, members: &[u32])
    requires { All (λ p. p < length flags.old.items) members.now }
    ensures members { (p : ℕ) → Contains members.now p → ¬ Has flags.new.items p }
    ensures others { (p : ℕ) → Has flags.new.items p → Has flags.old.items p }
    ensures size { length flags.new.items ≡ length flags.old.items }
{
    for p in members {
        flags[*p as usize] = false;
    }
}
