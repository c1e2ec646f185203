//! The constraints on the names of a schema set and on the references among its components.
#![tactic(auto)]

mod attributes;
mod doubles;
mod faults;
mod imports;
mod laws;
mod limit;
mod lookup;
mod reference;

pub use faults::first_fault;
pub use laws::references_are_found;
pub use limit::MAX_COMPONENTS;
