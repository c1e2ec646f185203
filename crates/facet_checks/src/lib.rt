//! The facets in force for a simple type, and the tests by which they judge a value (Datatypes 4.1.4 and 4.3).
#![tactic(auto)]

mod check;
mod list;
mod order;
mod pattern;
mod values;

pub use list::{Alternatives, Bound, Count, FacetList, Handling, ValueList};
pub use order::{is_at_most, is_below};
pub use pattern::PatternText;
pub use shared_lists::Shared;
pub use values::ValueSet;
