//! The codes of identity constraints and of IDs, over what is kept.
#![tactic(auto)]

mod codes;
mod laws;
mod scopes;

pub use kept_targets::{TargetKeys, Turn, add_below};
pub use laws::keys_stay_right_as_names_are_added;
pub use scopes::settle_keys;
