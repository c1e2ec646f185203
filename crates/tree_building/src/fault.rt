ghost use Rattle.tree_building.specs.declared.fault.Stop.TheVariants.{Memory};
ghost use Rattle.std.specs.Prelude.{◌≡◌};

use std::alloc::{AllocError, AllocFailed};
use tag_names::NameReason;

/// Why items are no tree.
#[derive(Clone, Copy)]
pub enum TreeReason {
    /// A second element without a parent starts.
    TwoRoots,
    /// An element would stand deeper than is allowed.
    TooDeep,
    /// There would be more nodes than are allowed.
    TooManyNodes,
    /// Characters other than white space stand outside the root.
    TextOutside,
    /// An end does not name the innermost element that is open, or none is open.
    EndMismatch,
    /// An element is not ended.
    Unclosed,
    /// There is no element.
    NoRoot,
    /// The names of a start tag are refused.
    Name(NameReason),
    /// An item is none of a tree, or an attribute follows no start.
    NotHere,
}

/// The first reason why items are no tree.
#[derive(Clone, Copy)]
pub struct TreeFault {
    /// The number of the item, counted from 0, at which the reason stands; the number of items where it stands at
    /// their end.
    pub item: u32,
    pub reason: TreeReason,
}

/// Why a step was not made.
#[derive(Clone, Copy)]
pub enum Stop {
    Memory,
    Refused(TreeFault),
}

impl From<AllocError> for Stop {
    ghost from_gives = { λ _ e. e ≡ Memory };

    fn from(_: AllocError) -> Self {
        Stop::Memory
    }
}

impl<T: Drop> From<AllocFailed<T>> for Stop {
    ghost from_gives = { λ _ e. e ≡ Memory };

    fn from(_: AllocFailed<T>) -> Self {
        Stop::Memory
    }
}
