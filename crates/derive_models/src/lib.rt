//! Elements, wildcards and contents, as the restriction of content models compares them.
#![tactic(auto)]

mod any_type;
mod chains;
mod compared;
mod derivations;
mod elements;
mod faults;
mod fixed;
mod forms;
mod group_faults;
mod group_forms;
mod keys;
mod laws;
mod models;
mod numbers;
mod restriction_faults;
mod restrictions;
mod set;
mod standing;
mod terms;
mod unions;

pub use compared::{ComparedModels, told_code};
pub use derivations::Derivations;
pub use faults::first_model_fault;
pub use forms::{content_form, particle_form};
pub use group_faults::first_group_fault;
pub use laws::the_first_model_fault_is_the_only_one;
pub use models::ModelSet;
pub use numbers::fixed_numbers;
pub use restriction_faults::first_fault;
pub use restrictions::first_restriction_fault;
pub use standing::stands_for;
pub use terms::terms_of;
