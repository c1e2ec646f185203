//! The type of a tree: built of items or node by node, edited, read; and its names in a table of names.
#![tactic(auto)]

mod builder;
mod edit_laws;
mod laws;
mod naming;
mod nodes;
mod putting;
mod tree;

pub use builder::{Builder, fragment, read_tree};
pub use edit_laws::edits_add_their_names;
pub use laws::document_names_are_found;
pub use naming::{add_name, add_names};
pub use tree::Tree;
