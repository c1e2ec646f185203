//! The types of a schema set from their representations, and the simple types.
#![tactic(auto)]

mod attribute_putting;
mod declarations;
mod facet_steps;
mod groups;
mod members;
mod numbers;
mod putting;
mod simples;
mod types;
mod values;

pub use declarations::add_attributes;
pub use facet_steps::{facets, rep_at, scope_at};
pub use groups::{build_attr_groups, number_attr_groups};
pub use members::{AttributeParts, attribute_parts};
pub use numbers::number_types;
pub use simples::{build_simples, first_member};
pub use types::{child_type, given_type, meant_type, type_at};
pub use values::{copied_wildcard, value_constraint};
