//! The elements of a document as targets of identity constraints, by what is kept of them (Structures 3.11.4).
#![tactic(auto)]

mod above;
mod finding;
mod keys;
mod moved;
mod siblings;
mod turn;

pub use finding::retarget;
pub use keys::{ElementSign, TargetKeys};
pub use moved::add_below;
pub use siblings::{KeptSiblings, sight_of};
pub use turn::Turn;
