//! Circles of references among numbered parts, ranks where there are none, and levels where there are some.
#![tactic(auto)]

mod circling;
mod falling;
mod first;
mod graph;
mod leading;
mod leveling;
mod model_graph;
mod order;
mod placed;
mod ranking;
mod rows;
mod rule;
mod search;
mod type_graph;
mod visiting;
mod writing;

pub use circling::comes_back;
pub use leveling::levels;
pub use order::order_of;
pub use ranking::rank_components;
pub use rule::{Rule, fill};
pub use visiting::ranks;
