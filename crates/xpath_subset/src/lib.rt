//! The paths of identity constraints: the subset of XPath, the paths of a constraint as they are read, and the first fault of paths and fields.
#![tactic(auto)]

mod fault_reading;
mod laws;
mod path;
mod paths;
mod phase;
mod reading;

pub use laws::reached_is_a_test;
pub use path::{NameTest, Path, Paths, Step, is_reached};
pub use paths::{IdentityPaths, paths_go_by_the_constraint};
pub use phase::read_identities;
pub use reading::{XPathFault, read_field, read_selector};
