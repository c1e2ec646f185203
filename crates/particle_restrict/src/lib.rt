//! Mappings from the members of one group to those of another, as the restriction of particles asks for them.
#![tactic(auto)]

mod cases;
mod cells;
mod first;
mod groups;
mod leaves;
mod pairs;
mod restriction;
mod tables;
mod terms;
mod totals;

pub use first::{each_restricts_some, has_first_map};
pub use pairs::Pairs;
pub use restriction::{RestrictFault, restricts};
pub use tables::{has_lax_map, has_map};
pub use terms::{Declaration, Derivation, Space, Term};
