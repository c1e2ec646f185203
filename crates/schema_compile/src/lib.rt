//! Schema documents compiled, phase by phase, or the first constraint that they break.
#![tactic(auto)]

mod compiling;
mod faults;
mod finding;
mod judging;
mod laws;
mod outcome;
mod phase_laws;

pub use compiling::compile_from;
pub use laws::compiled_parts_are_fit;
pub use outcome::Outcome;
pub use phase_laws::the_first_late_fault_is_the_only_one;
