//! Balanced trees in one arena, whose leaves are the items of lists.
//!
//! A [`Trees`] has numbered slots, each of which is a leaf, a fork of two sides, or free. A tree's leaves, from left to right,
//! are the items of one list; an item's number is that of its slot, and stays as long as the item lives. The forks keep the tree
//! balanced after Adelson-Velsky and Landis, and count the leaves below them. A caller keeps the top of each list's tree under
//! the list's number, and whatever it knows of a slot beside it, under the slot's number: slots never move, and there are only
//! ever more of them.
//!
//! # How a caller uses it
//!
//! - **Reading.** Contracts see the list of all nodes, `self.now.nodes`, and how many slots are free, `self.now.spare`. That a
//!   list `q` has a tree `t` below the node `top` is `IsTreeOf nodes q top t` of `specs/Arena.antt`; it tells the node of each
//!   fork and leaf of `t`, that no node comes twice, that the tree is balanced, and that `Above::Top(q)` stands above `top`.
//!   `leaves t` is the list of the items with their flags, `items t` that of their numbers. [`Trees::nodes`] lends all nodes, so
//!   a caller can go down a tree (`left`, `right`, `counts`) or up (`above`) by itself.
//! - **Room.** [`Trees::reserve`] is the one call that takes memory. [`Trees::plant`] takes one free slot, [`Trees::insert`] two,
//!   [`Trees::build`] twice as many as there are leaves, less one. So a caller reserves first, makes what it keeps beside the new
//!   slots (`self.nodes().len()` says how many there are), and then changes the tree, which cannot fail.
//! - **Changes.** `insert`, `remove` and `set_flags` say by one record, `Changes old new q was top place xs`, that the list's
//!   tree is now some tree `now` below `top` with the leaves `xs`, and that the trees of all other lists stay (`others`).
//!   A slot that a call takes was in no tree before (`IsFreeSlot`).
//! - **Sums.** Where a caller keeps a sum at each fork, `ChangesAlong was place now` says which of them to make anew: those of the
//!   forks on the way from the top down to the leaf at `place`, and of the forks beside that way. All other forks are in parts of
//!   the old tree, with all that is below them. So: from the top go down by `counts.leaves` to the leaf at `place`; on the way
//!   back, at each fork, sum the side that was not taken, where it is a fork (`HasOldSides`: its two sides are old parts), and
//!   then the fork. That is two sums a level. After `insert` and `set_flags` that place is the item's; `remove` tells it.
//! - **Heights.** A tree of fewer than `2 ^ k` leaves is less than `2 * k` high: `height_bound` of `proofs/Height.antt`.
#![tactic(auto)]

pub use crate::node::{Above, Counts, Flags, Node};
pub use crate::trees::{Inserted, Rest, Spot, Trees};

mod balance;
mod edit;
mod link;
mod node;
mod read;
mod side;
mod trees;
mod whole;
