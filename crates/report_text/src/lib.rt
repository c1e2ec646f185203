//! The lines that tell what is found out about an element and its attributes, written to a sink.
#![tactic(auto)]

mod codes;
mod names;
mod record;
mod words;

pub use record::{Records, write_attr, write_record, write_records};
pub use words::validity_word;
