//! Pairs of components, the one of which redefines the other.

/// The numbers of two components of one kind, the one of which redefines the other (Structures 4.2.2).
#[derive(Clone, Copy)]
pub struct RedefinedPair {
    /// The number of what redefines.
    pub own: u32,
    /// The number of what it redefines.
    pub original: u32,
}
