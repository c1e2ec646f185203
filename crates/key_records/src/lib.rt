//! Tables of keys kept as tuples come and go, against what is said of the tables of elements; records of the targets of identity constraints.
#![tactic(auto)]

mod carrying;
mod faults;
mod laws;
mod records;
mod references;
mod targets;

pub use carrying::{add_tuple, drop_tuple, is_visible};
pub use laws::counts_are_the_tables;
pub use records::{KeyRecords, KeyTree};
pub use references::References;
pub use targets::Target;
