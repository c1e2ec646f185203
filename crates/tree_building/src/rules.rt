ghost use Rattle.std.specs.Prelude.{◌≡◌, ◌+◌};
ghost use Rattle.tree_building.specs.Rules as rules;

use tree_rows::{MAX_DEPTH, MAX_NODES};

/// What is asked of items that are to be a tree.
#[derive(Clone, Copy)]
pub struct Rules {
    /// The greatest depth of an element, where there is a limit; the root has depth 1.
    pub levels: Option<u32>,
    /// How many nodes there may be, where there is a limit.
    pub nodes: Option<u32>,
    /// Whether the names of start tags are judged.
    pub names: bool,
}

impl Rules {
    /// The rules of a document: the limits on depth and nodes hold, and names are judged.
    pub fn document() -> Self
        ensures { result ≡ rules.document_rules }
    {
        Rules {
            levels: Some(MAX_DEPTH),
            nodes: Some(MAX_NODES),
            names: true,
        }
    }

    /// The rules of a block: no limits, and names are not judged.
    pub fn block() -> Self
        ensures { result ≡ rules.block_rules }
    {
        Rules {
            levels: None,
            nodes: None,
            names: false,
        }
    }
}

/// Whether a number passes a limit, if there is one.
pub(crate) fn is_past(limit: Option<u32>, number: u32) -> bool
    ensures { result ≡ rules.past limit number }
{
    match limit {
        Some(most) => most < number,
        None => false,
    }
}

/// Whether the depth below so many elements passes a limit, if there is one.
pub(crate) fn is_past_below(limit: Option<u32>, elements: usize) -> bool
    ensures { result ≡ rules.past limit (elements + 1) }
{
    match limit {
        Some(most) => most as usize <= elements,
        None => false,
    }
}
