//! A session that assesses the whole tree again after each edit.
#![tactic(auto)]

mod session;
mod stock;

pub use session::{PlainSession, let_go};
