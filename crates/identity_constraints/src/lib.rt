//! What Structures 3.11 asks of identity constraints, on what was found alone; and counting what is seen of tuples, level by level.
#![tactic(auto)]

mod seen;

pub use seen::is_seen;
