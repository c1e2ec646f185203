//! Laws of assessment: it is the only one, it stays as names are added, what records and values go by, what governs elements.
#![tactic(auto)]

mod attr_laws;
mod grown_assessment_laws;
mod grown_laws;
mod laws;
mod laws_of_governing;
mod record_laws;
mod value_laws;

pub use attr_laws::{attribute_records_are_there, attributes_have_few_codes};
pub use grown_assessment_laws::{
    terms_keep_as_names_are_added, the_assessment_keeps_as_names_are_added,
};
pub use grown_laws::{
    governing_keeps_as_names_are_added, heads_keep_as_names_are_added,
    records_keep_as_names_are_added,
};
pub use laws::{
    terms_are_determined, the_assessment_is_the_only_one, the_assessment_with_ids_is_the_only_one,
};
pub use laws_of_governing::{
    ambivalent_names_are_told, governings_are_determined, what_is_found_is_governed,
};
pub use record_laws::records_go_by_flags;
pub use value_laws::values_do_not_go_by_counts;
