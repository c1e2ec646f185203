//! The terms of child elements, and the place where they get stuck (Structures 3.4.4).
#![tactic(auto)]

mod all_walk;
mod attribution;
mod found;
mod id_laws;
mod laws;
mod marking;
mod state_walk;

pub use attribution::child_terms;
pub use found::ChildTerms;
pub use id_laws::{bearings_are_of_the_entries, codes_of_ids_join_the_assessment};
pub use laws::fitting_records_are_the_assessment;
pub use marking::mark;
