//! Which names may stand at a place of a list of child elements, by the automaton of their parent's content model, and as lines.
#![tactic(auto)]

mod around;
mod asked;
mod laws;
mod line_laws;
mod lines;
mod listing;
mod next;
mod order;
mod place;
mod sorting;
mod symbol;
mod writing;

pub use around::Around;
pub use laws::{
    answers_are_one, lists_have_their_children, places_are_named, places_have_answers,
    places_have_fits, symbols_fit_as_their_names,
};
pub use line_laws::{symbols_are_in_a_total_order, symbols_fit_in_one_way};
pub use next::write_next;
pub use order::{Symbol, symbol_order};
pub use place::{AroundAt, ChildList};
pub use symbol::{Fit, SymbolName};
pub use writing::write_answers;
