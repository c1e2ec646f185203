//! The records of an element that is governed otherwise than before, or is new, and of all below it.
#![tactic(auto)]

mod below;

pub use below::{open_records, settle_again, settle_below};
