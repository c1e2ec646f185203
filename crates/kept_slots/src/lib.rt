//! What is kept under numbers, in a table, with sums over it and over the elements of a tree.
#![tactic(auto)]

mod laws;
mod slots;

pub use laws::slots_are_summed_as_elements;
pub use slots::Slots;
