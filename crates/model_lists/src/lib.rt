//! Lists of child elements by the automata of their parents' content models.
#![tactic(auto)]

pub use crate::around::ChildState;
pub use crate::handle::{ListedChild, ModelList};
pub use crate::laws::more_children_take_no_fewer_digits;
pub use crate::lists::ModelLists;

mod around;
mod automata;
mod handle;
mod laws;
mod leaves;
mod lists;
mod members;
mod rows;
