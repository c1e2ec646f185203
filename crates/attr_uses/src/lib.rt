//! Maps from names to attribute uses, many in one arena: a map that is made of others shares with them what is alike.
#![tactic(auto)]

mod bases;
mod entry;
mod filling;
mod groups;
mod grow;
mod join;
mod maps;
mod node;
mod own;
mod read;
mod store;
mod tables;
mod wildcards;

pub use entry::{Entry, NeededUse, UseAt, UseHolder};
pub use join::Join;
pub use maps::{UseMap, UseMaps};
pub use store::KeptTable;
pub use tables::{AttrTable, AttrTables, group_uses, use_at, uses_of};
