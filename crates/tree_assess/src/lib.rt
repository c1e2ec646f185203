//! The assessment of a document by a compiled schema set (Structures 5.2).
#![tactic(auto)]

mod assessing;
mod elements;
mod entry;
mod governing;
mod judging;

pub use assessing::assess_plain;
pub use entry::ElementEntry;
