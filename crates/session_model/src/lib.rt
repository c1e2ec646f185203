//! What a session over one document answers, however it finds its answers.
#![tactic(auto)]

mod count;
mod find;
mod laws;
mod report;
mod session;

pub use count::count_codes;
pub use find::{find_next, find_records, root_validity};
pub use laws::entries_are_named;
pub use report::write_report;
pub use session::{Session, SessionError};
