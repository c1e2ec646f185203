//! Members of an `all`.

/// A member of an `all` (Structures 3.8.2): a particle whose term is an element, with its bounds.
#[derive(Clone, Copy)]
pub struct AllMember {
    /// The number of the particle.
    pub term: u32,
    pub least: u32,
    /// `None` where there is no bound.
    pub most: Option<u32>,
}
