//! The commands of an edit script, from their lines.
//!
//! A command's fields are separated by one space. Numbers are decimal digits.
#![tactic(auto)]

mod command;
mod fields;
mod next;
mod script;

pub use command::{Command, ScriptFault};
pub use script::read_command;
