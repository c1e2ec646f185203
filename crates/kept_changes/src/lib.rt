//! A change of a document, with what is kept of its elements.
#![tactic(auto)]

mod change;
mod laws;
mod own;

pub use change::{Spot, follow, keep_change, owner_of, prune, removal, spot_of};
pub use kept_children::kept_state;
pub use laws::records_stay_right_as_names_are_added;
