//! Particles, each over earlier ones.

use xs_lists::Listed;

/// A particle of a content model, over earlier ones by number. Group references are replaced by the group's own particle.
#[derive(Drop)]
pub enum Node {
    /// An element or a wildcard, by the number of its particle.
    Term(u32),
    /// One of each of the members, in order.
    Sequence(Listed<u32>),
    /// One of the members.
    Choice(Listed<u32>),
    /// One of each of the members, in any order.
    Each(Listed<u32>),
    /// So many of a particle: at least the first number, and at most the second where there is one.
    Occurs(u32, u32, Option<u32>),
}
