//! Complex types that restrict others as these do not allow, but for content models (Structures 3.4.6).
#![tactic(auto)]

mod contents;
mod fault_set;
mod faults;
mod group_faults;
mod restrictions;
mod set;
mod texts;
mod types;
mod uses;
mod wildcards;

pub use fault_set::DerivedSet;
pub use faults::first_derivation_fault;
pub use group_faults::first_attr_group_fault;
pub use restrictions::{first_restriction, tables_code};
pub use set::ComparedSet;
