//! What is found of a document by a schema set, with the codes of identity constraints beside the assessment: there is one answer, and what governs by a usable set is there.
#![tactic(auto)]

mod identity_laws;
mod laws;
mod usable_laws;

pub use identity_laws::{identities_go_by_the_set, identity_codes_join_the_assessment};
pub use laws::{
    each_element_is_found_once, the_root_is_found_first, what_is_found_is_the_only_one,
};
pub use usable_laws::{governings_are_there, terms_are_there};
