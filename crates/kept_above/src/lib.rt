//! The records above an element whose own is another now.
#![tactic(auto)]

mod climb;

pub use climb::{recount, settle_above};
pub use kept_judging;
pub use kept_judging::{kept_records, kept_state};
