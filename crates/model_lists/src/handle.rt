//! Handles of lists.

use child_trees::SeqId;

/// The handle of a list of child elements.
#[derive(Clone, Copy)]
pub struct ModelList {
    /// The dead state of the automaton, among whose lists this one is kept; none where it is that of an `all`.
    pub(crate) dead: Option<u16>,
    pub(crate) list: SeqId,
}

/// A child element in a list: its place among the child elements of its parent, and the symbol of its name.
#[derive(Clone, Copy)]
pub struct ListedChild {
    pub place: u32,
    pub symbol: u32,
}
