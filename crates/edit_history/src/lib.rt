//! What is known of the edits of a document: the log of what may be undone and redone, the history that it leads through, and turns of authors.
#![tactic(auto)]

mod history_laws;
mod laws;
mod log;
mod so_far;
mod step_laws;
mod touch;
mod touched;
mod turn;
mod turn_log;
mod turns;

pub use history_laws::{edits_are_remembered, redos_are_remembered, undos_are_remembered};
pub use laws::{Step, logs_lead_through_histories};
pub use log::{Taken, UndoLog};
pub use step_laws::{edits_are_logged, logs_lead_on, redos_are_logged, undos_are_logged};
pub use touched::Touched;
pub use turn::Turn;
pub use turn_log::TurnLog;
pub use turns::Turns;
