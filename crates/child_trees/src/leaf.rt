//! Leaves, and the numbers of lists and leaves.

ghost use Rattle.std.specs.Prelude.{◌≡◌, map, IfOk};

use leaf_trees::Flags;
use std::alloc::{AllocError, Global};
use std::marker::Model;

/// The number of a list. Contracts see the number.
#[derive(Clone, Copy)]
pub struct SeqId {
    pub(crate) number: u32,
}

impl Model for SeqId {
    ghost use Rattle.std.specs.Prelude.{ℕ};

    ghost Value = { ℕ };

    ghost view = { λ q. q.number };

    ghost inverse = { λ n. record { number = n } };
}

impl SeqId {
    /// The number.
    pub fn number(&self) -> u32
        ensures { result ≡ self.now }
    {
        self.number
    }
}

/// The number of a leaf, which stays the leaf's for as long as it lies in its list. Contracts see the number.
///
/// It serves as an index: it is below the count of slots that `Seqs::slots` tells, and of these all but the free ones are taken,
/// `2 * n - 1` by a list of `n` leaves. A number whose leaf went may be given to a later leaf.
#[derive(Clone, Copy, PartialEq)]
pub struct ItemId {
    pub(crate) number: u32,
}

impl Model for ItemId {
    ghost use Rattle.std.specs.Prelude.{ℕ};

    ghost Value = { ℕ };

    ghost view = { λ i. i.number };

    ghost inverse = { λ n. record { number = n } };
}

impl ItemId {
    /// The number.
    pub fn number(&self) -> u32
        ensures { result ≡ self.now }
    {
        self.number
    }
}

/// A leaf of a list. No letter stands for the unit of the summary.
#[derive(Clone, Copy, Drop)]
pub struct Leaf<T> {
    pub letter: Option<T>,
    /// Whether it is counted by `elements_upto`.
    pub element: bool,
    /// Whether it is found by `nth_marked`.
    pub marked: bool,
}

impl<T> Leaf<T> {
    /// What it counts as.
    pub(crate) fn flags(&self) -> Flags
        ensures { result ≡ record { element = self.now.element; marked = self.now.marked } }
    {
        Flags {
            element: self.element,
            marked: self.marked,
        }
    }
}

/// What these leaves count as.
pub(crate) fn flags_of<T: Copy>(alloc: Global, leaves: &[Leaf<T>]) -> Result<Vec<Flags>, AllocError>
    ensures { IfOk result (λ flags. flags.items ≡ map (λ l. record { element = l.element; marked = l.marked }) leaves.now) }
{
    leaves.iter().map(|leaf| leaf.flags()).collect(alloc)
}
