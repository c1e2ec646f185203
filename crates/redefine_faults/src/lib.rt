//! The constraints on what stands in a redefine (Structures 4.2.2), and the first that is broken.
#![tactic(auto)]

mod below;
mod chains;
mod faults;
mod names;
mod numbered;
mod own;

pub use faults::first_redefine_fault;
