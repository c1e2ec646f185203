//! Changes of a document on its nodes by numbers, what nodes stand for, and plain trees planted among them.
#![tactic(auto)]

mod attributes;
mod contents;
mod laws;
mod naming;
mod numbers;
mod parts;
mod planted_parts;
mod planting;
mod spreading;
mod texts;
mod trees;

pub use attributes::{set_attribute, unset_attribute};
pub use contents::{rename_node, set_text};
pub use laws::{
    documents_have_their_names, documents_keep_their_nodes, nodes_are_read,
    nodes_give_their_document, scopes_go_down,
};
pub use parts::{prune, remove_node};
pub use planted_parts::insert_part;
pub use texts::add_text;
pub use trees::nodes_of;
