//! Expressions over symbols of any type, and their words: definitions alone, which contracts of other crates cite.
#![tactic(auto)]

mod expr;
mod find;
mod measures;
mod sets;
mod shared;
mod symbols;
mod walk;

pub use expr::{Expr, ExprId};
pub use find::{Positions, PositionsError, find_positions};
