//! What is told of a stream, piece by piece, what a run has written of it, and laws of what schema documents come to.
#![tactic(auto)]

mod break_off;
mod ending;
mod laws;
mod namespace_laws;

pub use break_off::BreakOff;
pub use ending::Ending;
pub use laws::outcomes_are_one;
pub use namespace_laws::wildcards_name_spaces_of_their_table;
