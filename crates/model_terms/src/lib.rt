//! The terms of child elements by the symbols of their names.
#![tactic(auto)]

mod laws;
mod reads;

pub use laws::{runs_are_terms, terms_go_by_symbols};
pub use reads::{first_term, is_ambivalent_symbol, member_term, state_term};
