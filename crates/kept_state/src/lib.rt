//! All that a session keeps beside its document: records, lists of child elements, and the codes of IDs.
#![tactic(auto)]

mod children;
mod element;
mod state;

pub use children::KeptChildren;
pub use element::{Governed, Outcome};
pub use kept_records;
pub use state::KeptState;
