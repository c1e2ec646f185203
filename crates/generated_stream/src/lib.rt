//! Streams that a number and a count give, written or as a source, and what the replies to one come to.
#![tactic(auto)]

mod draws;
mod generate;
mod kept;
mod piece;
mod pieces;
mod reading;
mod source;
mod summary;

pub use generate::{generate_stream, generated_lines, write_piece};
pub use kept::KeptText;
pub use piece::Piece;
pub use pieces::Pieces;
pub use source::GeneratedSource;
pub use summary::{Summary, summary_of, write_summary};
