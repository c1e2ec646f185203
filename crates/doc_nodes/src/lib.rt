//! The nodes of a document by their numbers, linked: each with its parent, its depth and its children in order.
#![tactic(auto)]

mod content;
mod families;
mod firsts;
mod links;
mod slots;

pub use content::{Content, Element, NameAttribute, NameBinding, NewNode};
pub use links::NodeLinks;
