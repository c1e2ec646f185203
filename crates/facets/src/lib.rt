//! The facets of simple types: those in force for a type, what its literals are, and what a step of restriction makes of them
//! (Datatypes 4.3; Structures 3.14).
#![tactic(auto)]

mod atomic;
mod builtin;
mod facets;
mod known;
mod literal;
mod making;
mod members;
mod reading;
mod trying;

pub use atomic::Accepted;
pub use facets::Facets;
pub use known::{Judged, Known};
pub use literal::read_builtin;
pub use members::Members;
