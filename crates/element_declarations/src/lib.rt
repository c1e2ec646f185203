//! What element declarations share: the members of substitution groups and faults of their heads, and classes of declarations alike.
#![tactic(auto)]

mod blocking;
mod classes;
mod firsts;
mod grouping;
mod named;
mod order;
mod properties;
mod set;
mod standing;
mod values;

pub use classes::classes_of;
pub use grouping::groups;
pub use values::{read_by, text_key};
