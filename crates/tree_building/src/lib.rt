//! Trees from the items of a listing: item by item, with the first reason why items are no tree.
#![tactic(auto)]

mod block;
mod build;
mod builder;
mod building;
mod fault;
mod laws;
mod nest;
mod pending;
mod rules;
mod spelling_laws;

pub use block::is_one_element;
pub use build::{Built, Rows, build_block, build_document, build_fragment};
pub use builder::Builder;
pub use building::Building;
pub use fault::{TreeFault, TreeReason};
pub use laws::{documents_are_sound, documents_are_trees};
pub use nest::Nest;
pub use pending::{Joined, Pending};
pub use rules::Rules;
pub use spelling_laws::documents_are_spelled;
