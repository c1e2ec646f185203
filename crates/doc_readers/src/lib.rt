//! The heads of elements, the names of their child elements and the characters of their texts, read off the document that is edited in place.
#![tactic(auto)]

mod heads;
mod laws;
mod texts;

pub use heads::{head_at, names_below, untyped_name};
pub use laws::{nodes_are_readers, nodes_show_elements};
pub use texts::chars_of;
