//! Schema documents to components: the phases of composition, names, circles and simple types, or the first fault; and that these are one.
#![tactic(auto)]

mod building;
mod compiling;
mod documents;
mod laws;
mod laws_of_redefinitions;
mod laws_of_sets;
mod laws_of_types;
mod number_laws;
mod resolved;
mod set_types;
mod shaped;
mod types;
mod version_laws;

pub use building::{BuiltSet, build};
pub use compiling::compile_from;
pub use documents::CompiledSet;
pub use laws::compiled_types_are_simple;
pub use laws_of_redefinitions::self_references_are_one;
pub use laws_of_sets::{
    components_are_one, documents_are_compiled_to_one, early_faults_are_one, originals_are_one,
    the_effective_set_is_one,
};
pub use laws_of_types::{
    patterns_are_read_in_one_way, ranks_and_contents_are_one, the_first_type_fault_is_the_least,
    the_first_type_fault_is_the_only_one,
};
pub use number_laws::kind_numbers_are_those_of_tables;
pub use resolved::{components_are_simple, names_resolve};
pub use set_types::set_types_are_simple;
pub use shaped::representations_are_shaped;
pub use version_laws::versions_are_shaped;
