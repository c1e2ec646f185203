//! The document that is edited in place, the plain tree that it stands for, and changes that answer what undoes them.
#![tactic(auto)]

mod above;
mod attributes;
mod change;
mod contents;
mod copies;
mod inverse_reading;
mod joining;
mod laws;
mod names;
mod part;
mod putting;
mod rows;
mod texts;
mod tree;
mod tree_reading;

pub use change::{Change, make_change, put_back_of};
pub use laws::{changes_count_nodes, changes_lead_on, inverses_lead_back};
pub use part::{Part, PartRow};
pub use tree::DocTree;
pub use tree_reading::read_tree;
