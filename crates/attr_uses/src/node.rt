ghost use Rattle.std.specs.Prelude.{◌≡◌, ◌<◌, length};
ghost use Rattle.attr_uses.specs.Nodes as spec;

use crate::Entry;

/// What is true of some entry below a node.
#[derive(Clone, Copy)]
pub(crate) struct Sum {
    pub needed: bool,
    pub double: bool,
    pub id: bool,
    /// Whether there are two entries of a type of ids.
    pub two_ids: bool,
}

/// A node: nothing, the entry of one name, or two parts of which the first has the lower half of the names.
#[derive(Clone, Copy)]
pub(crate) enum Node {
    Empty,
    Leaf(Entry),
    Fork { left: u32, right: u32, sum: Sum },
}

// The node of a number.
pub(crate) fn node_of(nodes: &[Node], number: u32) -> Node
    requires { number < length nodes.now }
    ensures { result ≡ spec.node_at nodes.now number }
{
    nodes[number as usize]
}

impl Node {
    // Both parts of a fork; the part of nothing where there is none.
    pub(crate) fn sides(self) -> (u32, u32)
        ensures { result ≡ (spec.node_left self, spec.node_right self) }
    {
        match self {
            Node::Empty | Node::Leaf(_) => (0, 0),
            Node::Fork { left, right, .. } => (left, right),
        }
    }

    // The entry of a leaf.
    pub(crate) fn entry(self) -> Option<Entry>
        ensures { result ≡ spec.node_entry self }
    {
        match self {
            Node::Empty | Node::Fork { .. } => None,
            Node::Leaf(entry) => Some(entry),
        }
    }

    // What is true of some entry below the node.
    pub(crate) fn sum(self) -> Sum
        ensures { result ≡ spec.node_sum self }
    {
        match self {
            Node::Empty => Sum::nothing(),
            Node::Leaf(entry) => Sum::of(entry),
            Node::Fork { sum, .. } => sum,
        }
    }
}

impl Sum {
    // Of no entry.
    fn nothing() -> Sum
        ensures { result ≡ spec.no_sum }
    {
        Sum {
            needed: false,
            double: false,
            id: false,
            two_ids: false,
        }
    }

    // Of one entry.
    fn of(entry: Entry) -> Sum
        ensures { result ≡ spec.entry_sum entry }
    {
        Sum {
            needed: entry.needed,
            double: entry.double,
            id: entry.id,
            two_ids: false,
        }
    }

    // Of the entries of two parts.
    pub(crate) fn and(self, other: Sum) -> Sum
        ensures { result ≡ spec.both_sums self other }
    {
        Sum {
            needed: self.needed || other.needed,
            double: self.double || other.double,
            id: self.id || other.id,
            two_ids: self.two_ids || other.two_ids || (self.id && other.id),
        }
    }
}
