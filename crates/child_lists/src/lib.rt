//! The list of an element's child elements, edited and read.
#![tactic(auto)]

mod lists;
mod place;

pub use child_listing::{kept_judging, kept_state};
pub use kept_forgetting;
pub use lists::{govern_at, list_child, note_stuck, relist_child, unlist_child};
pub use place::{ChildPlace, list_of, place_of};
