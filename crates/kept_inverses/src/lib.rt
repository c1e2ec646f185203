//! A change of a document that undoes another, with what is kept of its elements; and that what changes take in steps is within their
//! budgets.
#![tactic(auto)]

mod change;
mod laws;

pub use change::{keep_inverse, spot_of};
pub use kept_changes;
pub use kept_changes::kept_state;
pub use laws::{changes_keep_their_budget, inverses_keep_their_budget};
