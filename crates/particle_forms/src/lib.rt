//! Content models read off the tables of components: their effective total ranges, and their positions.
#![tactic(auto)]

mod extent;
mod inhabited;
mod made;
mod model;
mod node_made;
mod nodes;
mod ordered_nodes;
mod ranges;
mod unrolling;

pub use inhabited::Inhabited;
pub use model::{ModelNodes, model_nodes};
pub use ranges::Ranges;
pub use unrolling::{unroll, unroll_by};
