//! The list of an element's child elements when it is edited, and what follows for the child elements.
#![tactic(auto)]

mod edits;
mod marked;

pub use child_lists;
pub use child_lists::{kept_forgetting, kept_judging, kept_state};
pub use edits::{name_child, put_child, take_child};
pub use kept_above;
pub use kept_below;
