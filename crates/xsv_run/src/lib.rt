//! What is written for a stream of PYX lines, and the status, by the words of a command line.
#![tactic(auto)]

mod laws;
mod next;
mod piece;
mod reader;
mod running;
mod status;
mod stream;
mod trial;
mod wanted;

pub use laws::{
    accepted_turns_stand_for_themselves, documents_are_present, outputs_are_one,
    streams_are_answered,
};
pub use running::{run, run_by};
pub use status::Status;
