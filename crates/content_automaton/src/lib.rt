//! The states of a content model: the sets of positions in which a prefix of a word may end, and the steps between them.
#![tactic(auto)]

mod attribution;
mod automaton;
mod ends;
mod laws;
mod listing;
mod machine;
mod numbers;
mod refused;
mod rows;
mod sets;
mod spaces;
mod states;
mod stop;
mod symbol_terms;
mod symbols;
mod terms;

pub use attribution::Attribution;
pub use automaton::Automaton;
pub use laws::words_of_models;
pub use listing::{Listing, list_terms};
pub use machine::Machine;
pub use refused::BuildError;
pub use stop::Stop;
pub use symbol_terms::{Accepts, Given};
pub use symbols::Symbols;
