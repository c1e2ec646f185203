//! Decimal values of XML Schema (Datatypes 3.2.3): reading literals, exact comparison, and the
//! numbers that the facets totalDigits and fractionDigits look at.
//!
//! Nothing here takes memory.
#![tactic(auto)]

mod decimal;
mod digits;

pub use decimal::{Dec, DecFault};
