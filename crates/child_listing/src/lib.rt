//! The child elements of an element that is to be governed so: their list, the place where they get stuck, and what governs each.
#![tactic(auto)]

mod listing;

pub use kept_judging;
pub use kept_judging::{kept_records, kept_state};
pub use listing::{Listing, list_children};
