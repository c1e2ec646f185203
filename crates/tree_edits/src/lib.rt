//! The rows of a tree after an edit, or the least refusal; the names that a block brings; the change that undoes each, as a law.
#![tactic(auto)]

mod apply;
mod block_laws;
mod block_tree_laws;
mod edit;
mod elements;
mod inverse_laws;
mod laws;
mod names;
mod places;
mod scope;
mod shifts;
mod size;

pub use apply::edit_rows;
pub use block_laws::{blocks_are_named, documents_are_named};
pub use block_tree_laws::blocks_are_trees;
pub use edit::{Edit, EditError};
pub use inverse_laws::{inverses_fit, inverses_undo, undone_edits};
pub use laws::edits_keep_trees;
pub use names::{BlockNames, JudgedBlock, judge_block};
pub use places::{below_count, place_of};
pub use scope::scope_of_node;
