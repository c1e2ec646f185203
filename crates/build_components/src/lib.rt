//! Identity constraints and element declarations from their representations.
#![tactic(auto)]

mod building;
mod complexes;
mod constraints;
mod contents;
mod elements;
mod groups;
mod heads;
mod laws;
mod models;
mod particles;
mod paths;
mod putting;
mod steps;
mod terms;

pub use building::build;
pub use complexes::{ComplexNumbers, build_complexes};
pub use constraints::{ConstraintNumbers, add_constraints};
pub use contents::{effective_content, has_simple_content, holder, is_mixed};
pub use elements::build_elements;
pub use laws::tables_are_closed;
pub use models::build_particles;
