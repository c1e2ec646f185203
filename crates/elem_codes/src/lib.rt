//! The codes of an element by itself, and its record (Structures 3.3.4, 3.3.5, 3.4.4), by what its text comes to.
#![tactic(auto)]

mod codes;
mod content;
mod element;
mod facts;
mod outcome;
mod records;
mod used;

pub use element::{ElementFacts, element_record, facts_of};
pub use facts::{ElementInput, ElementSource, has_elements, is_taken};
pub use outcome::TextOutcome;
pub use used::{fixed_value, scope_used, text_used};
