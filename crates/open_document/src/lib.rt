//! What a stream works on, a schema set and then the document that is open, and the replies to the commands of an edit script,
//! written to a sink.
#![tactic(auto)]

mod changing;
mod compiling;
mod held;
mod laws;
mod line;
mod next;
mod reply;
mod swapping;
mod touches;
mod turning;
mod verdict;
mod working;
mod workspace;

pub use held::boxed;
pub use laws::edits_touch_what_their_changes_do;
pub use reply::{write_answer, write_made, write_total};
pub use touches::TurnFault;
pub use verdict::{SetVerdict, Verdict};
pub use workspace::Workspace;
