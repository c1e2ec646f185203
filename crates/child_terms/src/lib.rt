//! The terms of the child elements of an element, in one walk along them.
#![tactic(auto)]

mod attribution;

pub use attribution::{Attribution, attribute, attribute_none};
