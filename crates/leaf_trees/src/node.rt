//! The slots of the arena.

ghost use Rattle.std.specs.Prelude.{◌≡◌};
ghost use Rattle.leaf_trees.specs.Tree.{plus, counted};
ghost use Rattle.leaf_trees.specs.Arena.{next_free};
ghost use Rattle.leaf_trees.specs.Change.{CanAdd};
ghost use Rattle.leaf_trees.specs.Side.{below};

use crate::side::Side;

/// What stands above a node.
#[derive(Clone, Copy)]
pub enum Above {
    /// A fork, by its slot.
    Fork(u32),
    /// Nothing: the node is the top of this list's tree.
    Top(u32),
    /// Nothing: the slot is in no tree. It names the next free slot.
    Free(Option<u32>),
}

/// What a leaf counts as.
#[derive(Clone, Copy)]
pub struct Flags {
    pub element: bool,
    pub marked: bool,
}

/// How many leaves are below a node, how many of them are elements, and how many are marked.
#[derive(Clone, Copy)]
pub struct Counts {
    pub leaves: u32,
    pub elements: u32,
    pub marked: u32,
}

/// A slot of the arena: a leaf, which has height 0, or a fork of two sides.
#[derive(Clone, Copy)]
pub struct Node {
    pub above: Above,
    pub left: u32,
    pub right: u32,
    pub height: u32,
    pub counts: Counts,
}

impl Above {
    /// The free slot that a free slot names.
    pub(crate) fn next_free(self) -> Option<u32>
        ensures { result ≡ next_free self }
    {
        match self {
            Above::Free(next) => next,
            Above::Fork(_) | Above::Top(_) => None,
        }
    }
}

impl Flags {
    /// What a leaf with these flags counts.
    pub(crate) fn counts(self) -> Counts
        ensures { result ≡ counted self.element self.marked }
    {
        Counts {
            leaves: 1,
            elements: u32::from(self.element),
            marked: u32::from(self.marked),
        }
    }
}

impl Counts {
    /// What two sides count together.
    pub(crate) fn plus(self, other: Counts) -> Counts
        requires { CanAdd self other }
        ensures { result ≡ plus self other }
    {
        Counts {
            leaves: self.leaves + other.leaves,
            elements: self.elements + other.elements,
            marked: self.marked + other.marked,
        }
    }
}

impl Node {
    /// The node on this side of a fork.
    pub(crate) fn on(self, side: Side) -> u32
        ensures { result ≡ below side self }
    {
        match side {
            Side::Left => self.left,
            Side::Right => self.right,
        }
    }

    /// A free slot.
    pub(crate) fn free(next: Option<u32>) -> Node
        ensures { result.above ≡ Above.Free next }
    {
        Node {
            above: Above::Free(next),
            left: 0,
            right: 0,
            height: 0,
            counts: Counts {
                leaves: 0,
                elements: 0,
                marked: 0,
            },
        }
    }
}
