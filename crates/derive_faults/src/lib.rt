//! Faults of types by their properties: final, attributes, extensions, excluded heads, value constraints.
#![tactic(auto)]

mod attributes;
mod codes;
mod elements;
mod emptiable;
mod exclusions;
mod extensions;
mod faults;
mod finals;
mod ids;
mod laws;
mod set;
mod texts;
mod value_faults;
mod value_ids;
mod values;

pub use codes::{coded, earlier, when, when_not};
pub use emptiable::has_emptiable_model;
pub use exclusions::first_excluded;
pub use extensions::first_extension;
pub use faults::first_attr_fault;
pub use finals::{finals_of, no_methods};
pub use ids::id_marks;
pub use laws::faultless_types_have_uses;
pub use value_faults::first_value_fault;
pub use values::{effective, loses_fixed};
