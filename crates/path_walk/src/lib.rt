//! The targets of identity constraints and the nodes of their fields, over elements of any kind (Structures 3.11.4).
#![tactic(auto)]

mod attributes;
mod declared_by;
mod fields;
mod nodes;
mod set;
mod sight;
mod targets;
mod tuples;

pub use declared_by::{constraints_of, declaration_of};
pub use set::KeySet;
pub use sight::{KeySiblings, KeySight};
pub use targets::outcomes;
pub use tuples::{TargetOutcome, outcome_at};
