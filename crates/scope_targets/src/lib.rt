//! Elements as targets of the identity constraints at and above them, which of them an edit leaves as they were, kept by their numbers and counted.
#![tactic(auto)]

mod counted_laws;
mod counting;
mod keys;
mod laws;
mod targetings;

pub use counted_laws::{
    counted_targets_are_the_outcomes, counts_stay_as_an_element_moves, counts_stay_as_links_change,
    parents_give_links,
};
pub use keys::CountedKeys;
pub use laws::{targetings_are_the_outcomes, targetings_stay, targetings_stay_as_names_are_added};
pub use targetings::{ElementTargeting, add_scope, targetings_of};
