//! What an edit of a document may cost in steps, and a change, with the law that an edit costs as the change that it is.
#![tactic(auto)]

mod laws;
mod undo_laws;

pub use laws::lists_keep_their_budget;
pub use undo_laws::edits_cost_as_changes;
