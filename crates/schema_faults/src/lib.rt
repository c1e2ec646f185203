//! The constraints on the shape of schema documents, on each element by itself, in their order.
#![tactic(auto)]

mod broken;
mod children;
mod element;
mod faults;
mod limit_faults;
mod representation;
mod shape_faults;
mod unsupported;

pub use broken::Broken;
pub use element::Element;
pub use faults::{fault_of, lesser};
pub use limit_faults::{MAX_FACET_NUMBER, MAX_FIELDS};
