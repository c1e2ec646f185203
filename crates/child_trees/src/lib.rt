//! Many lists of leaves in one arena, each with a summary that folds its leaves.
#![tactic(auto)]

pub use crate::leaf::{ItemId, Leaf, SeqId};
pub use crate::seqs::{Seqs, Slots};
pub use crate::summary::Summary;

mod cells;
mod edits;
mod find;
mod leaf;
mod order;
mod seqs;
mod summary;
mod sums;
mod tops;
mod walks;
