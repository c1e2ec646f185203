//! Values that several lists share.
#![tactic(auto)]

mod shared;
#[cfg(test)]
mod tests;
mod trees;
mod walks;

pub use shared::Shared;
pub use trees::SharedTree;
pub use walks::{Group, Groups, Leaves};
