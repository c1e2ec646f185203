//! The codes of broken constraints, with their texts and their order, what a fault and a found code
#![tactic(auto)]

mod builtin;
mod code;
mod fault;
mod named;
mod order;
mod text;

pub use builtin::Builtin;
pub use code::Code;
pub use fault::{Fault, Found};
pub use named::builtin_named;
pub use order::{comes_first, is_before, sooner};
pub use text::{code_order, code_text};
