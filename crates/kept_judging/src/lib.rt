//! What an element of a document comes to by itself: what governs it, and its records by what is kept of its child elements.
#![tactic(auto)]

mod governing;
mod judging;
mod view;

pub use governing::{pair_again, pair_below, pair_of_root};
pub use judging::{judge, judge_if_apart, keep_judged};
pub use kept_state;
pub use kept_state::kept_records;
