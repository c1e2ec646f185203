//! The versions of redefined components, told apart by names.
#![tactic(auto)]

mod declared;
mod faults;
mod finding;
mod groups;
mod laws;
mod marks;
mod names;
mod numbers;
mod pairs;
mod redirections;
mod references;
mod renaming;
mod tables;

pub use declared::{Declared, VersionKind, declared_at, declared_by};
pub use faults::first_shared;
pub use finding::redefined_pairs;
pub use groups::{RedefinedGroups, redefined_groups};
pub use laws::{names_alone_change, originals_have_no_ncnames};
pub use pairs::RedefinedPair;
pub use redirections::{Redirection, versions_around};
pub use renaming::name_versions;
