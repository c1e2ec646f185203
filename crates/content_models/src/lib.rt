//! The words of an `all` by the members that were seen.
#![tactic(auto)]

mod all_automaton;
mod all_content;
mod automaton;
mod laws;
mod letters;
mod machine;
mod member;
mod reading;
mod refused;
mod source;
mod state;

pub use all_automaton::AllAutomaton;
pub use automaton::ContentAutomaton;
pub use laws::words_of_all;
pub use machine::{AllMachine, MOST_MEMBERS};
pub use member::AllMember;
pub use refused::ModelError;
pub use source::ModelSource;
pub use state::AllState;
