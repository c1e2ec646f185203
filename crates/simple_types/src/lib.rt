//! Simple validity: what a simple type is made of, and what a text comes to by it (Structures 3.14.4; Datatypes 4.1.4).
#![tactic(auto)]

mod building;
mod content;
mod filling;
mod forms;
mod judged;
mod laws;
mod lookup;
mod rules;
mod types;
mod validity;
mod validity_laws;

pub use judged::{JudgedType, TypeFacets};
pub use laws::{enumerations_are_judged_by_validity, first_is_least, lists_are_of_what_holds_none};
pub use types::{Built, SimpleTypes};
pub use validity::validated;
pub use validity_laws::simple_validity_has_one_outcome;
