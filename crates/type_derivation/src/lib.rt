//! The content types of complex types, and bases of the wrong kind (Structures 3.4.2, 3.4.3).
#![tactic(auto)]

mod adding;
mod bases;
mod chains;
mod contents;
mod cycling;
mod kinds;
mod laws;
mod rounds;
mod setting;
mod steps;
mod type_order;
mod within;

pub use bases::first_base;
pub use chains::{derives, derives_from_member};
pub use cycling::cycles;
pub use laws::content_types_are_one;
pub use steps::{above, members_of};
pub use within::Within;
