//! An element, by what governs it and by what it comes to.

use assess_records::{Attempted, Validity};
use elem_governing::Governing;

/// What of an element enters its parent's record (Structures 3.3.5).
#[derive(Clone, Copy, PartialEq)]
pub struct Outcome {
    pub validity: Validity,
    pub attempted: Attempted,
}

/// An element by its number, and what is to govern it.
#[derive(Clone, Copy)]
pub struct Governed {
    pub node: u32,
    pub pair: Governing,
}
