//! Edits tested on the document that is edited in place, turned into changes by numbers, and the changes that undo them.
#![tactic(auto)]

mod attributes;
mod blocks;
mod change;
mod names;
mod places;
mod preparation;
mod reading;

pub use change::{Change, make_change};
pub use preparation::prepare;
pub use reading::inverse_of;
