//! The summaries of children: by rows as maps of the states of a content model, and by masks of the members of an all.
#![tactic(auto)]

mod laws;
mod leaf;
mod map;
mod mask_laws;
mod mask_summary;
mod summary;

pub use laws::rows_are_runs;
pub use leaf::leaf_row;
pub use map::AllMap;
pub use mask_laws::summaries_are_runs;
pub use mask_summary::AllSummary;
pub use summary::{RowSummary, StateMap};
