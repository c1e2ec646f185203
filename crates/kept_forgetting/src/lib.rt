//! What is kept of an element and of all below it, when they go.
#![tactic(auto)]

mod forget;

pub use forget::forget_below;
