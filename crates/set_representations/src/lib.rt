//! What the elements of the documents of a schema set represent, with their places, their scopes and their origins.
#![tactic(auto)]

mod item_places;
mod members;
mod numbers;
mod reader;
mod scope_list;
mod set;

pub use numbers::{first_number, number_at, number_named, numbers_in};
pub use set::{RepresentedSet, represent};
