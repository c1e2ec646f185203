//! The nodes of a tree, as rows in document order: elements by their expanded names, texts by their characters.
#![tactic(auto)]

mod index;
mod limits;
mod name;
mod row;
mod siblings;

pub use index::TreeIndex;
pub use limits::{MAX_ATTRIBUTES, MAX_DEPTH, MAX_NODES};
pub use name::Expanded;
pub use row::{Attribute, Attributes, Binding, Bindings, Content, NodeKind, Row};
pub use siblings::{Sibling, Siblings};
