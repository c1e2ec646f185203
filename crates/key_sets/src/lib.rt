//! Sets whose keys are numbered in the order of coming.
#![tactic(auto)]

mod keys;
mod texts;

pub use keys::KeySet;
pub use texts::TextSet;
