//! Tables of keys and of ids, by counts; the IDs of a document and the references to them, as values come and go.
#![tactic(auto)]

mod counts;
mod id_table;
mod ids;
mod key_tables;
mod role;
mod table;
mod tuple;

pub use id_table::IdTable;
pub use ids::KeptIds;
pub use key_tables::KeyTables;
pub use role::{IdRole, role_of};
pub use table::DocumentIds;
pub use tuple::Tuple;
