//! The names of start tags: prefixes in scope, expanded names, and why the names of a tag are refused.
#![tactic(auto)]

mod doubles;
mod fault;
mod judged;
mod lines;
mod named;
mod packed;
mod parts;
mod prefixes;
mod resolve;
mod seen;

pub use fault::{NameReason, TagFaults};
pub use lines::{AttributeLine, AttributeLines, Tag};
pub use named::Named;
pub(crate) use packed::PackedLines;
pub use prefixes::Prefixes;
pub use resolve::{JudgedTag, TestedTag};
