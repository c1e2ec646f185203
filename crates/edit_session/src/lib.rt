//! A session that keeps what it found, and finds anew what an edit changes.
#![tactic(auto)]

mod around;
mod editing;
mod opening;
mod reopening;
mod session;
mod turning;
mod undoing;

pub use around::AroundError;
pub use session::EditSession;
