//! What the turns of authors touch, and which lists of children they leave: laws.
#![tactic(auto)]

mod laws;

pub use laws::{lists_change_by_own_turns_alone, steps_touch_what_their_edits_did};
