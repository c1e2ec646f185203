//! What is written for a stream, line by line: what its schema documents come to, the report, the replies to edits, the
//! first line that is refused.
#![tactic(auto)]

mod commands;
mod document;
mod ending;
mod fault;
mod laws;
mod place;
mod refusal;
mod schemas;
mod stream;
mod turn;
mod wanted;

pub use laws::places_answer_sections;
pub use place::Place;
pub use refusal::write_refusal;
pub use stream::Stream;
pub use wanted::Wanted;
