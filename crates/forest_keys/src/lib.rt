//! The codes of identity constraints of all elements of a forest, by one set of records, and with those of IDs, put to the entries of a document.
#![tactic(auto)]

mod all_codes;
mod assessed;
mod entry_siblings;
mod ids;
mod joining;
mod keyrefs;
mod placing;
mod putting;
mod reading;

pub use all_codes::forest_codes;
pub use assessed::assess;
pub use keyrefs::references_of;
pub use putting::Counting;
pub use reading::element_codes;
