//! The effective set of schema documents (Structures 4.2).
#![tactic(auto)]

mod closing;
mod documents;
mod entries;
mod faults;
mod following;
mod inputs;
mod reaching;
mod reading;
mod shape_faults;
mod sources;
mod targets;

pub use closing::close_set_from;
pub use documents::{Available, ClosedSet, EffectiveSet, SetDocument};
pub use inputs::{ReadDocuments, SchemaInput};
pub use reading::read_documents;
pub use shape_faults::first_shape_fault;
pub use sources::Sources;
pub use targets::{is_same, own_target};
