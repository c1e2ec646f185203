//! Many rows of small numbers, read as maps of states or as counts.
//!
//! A row has a fixed number of cells, its width, and no cell is above the cap. `Rows` makes, writes, composes and adds rows;
//! contracts see it as a finite map from the numbers of the live rows to their lists of cells. The rows lie in blocks that never
//! move, and only the taking of a row takes memory.
#![tactic(auto)]

pub use crate::rows::{RowId, Rows};

mod block;
mod live;
mod place;
mod rows;
mod spare;
mod whole;
