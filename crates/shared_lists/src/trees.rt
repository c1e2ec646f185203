//! Trees that share their branches.
ghost use Rattle.std.specs.Prelude.{◌≡◌, ◌+◌, ◌*◌, ◌<◌, ◌≤◌, [], ◌∷◌, IfOk, IfSome, MatchOption};
ghost use Rattle.std.specs.Option.{option_map};
ghost use Rattle.shared_lists.specs.Trees as spec;
ghost use Rattle.shared_lists.specs.Weight.{weight, weight_of};

use crate::walks::{Groups, Leaves};
use std::alloc::{AllocError, Global};
use std::marker::Model;
use std::rc::Rc;

// A branch, which stands in memory once, however many trees have it.
#[derive(Drop)]
pub(crate) enum Node<T, L> {
    Empty,
    Run(Vec<T>),
    Both(Rc<Node<T, L>>, Rc<Node<T, L>>),
    Group(Rc<Node<T, L>>, L),
}

/// A tree whose branches others share: leaves in order, and groups of them that have a label. Contracts see the leaves and the
/// groups as two lists.
pub struct SharedTree<T, L> {
    alloc: Global,
    root: Option<Rc<Node<T, L>>>,
}

impl<T, L> Model for SharedTree<T, L> {
    ghost use Rattle.std.specs.Option.{option_map};
    ghost use Rattle.shared_lists.specs.Trees.{Grouped, laid_if};

    ghost Value = { Grouped T L };

    ghost view = { λ tree. laid_if (option_map (λ root. root.value) tree.root) };
}

impl<T: Drop, L: Drop> SharedTree<T, L> {
    /// No leaves.
    pub fn new(alloc: Global) -> SharedTree<T, L>
        ensures { result ≡ spec.no_leaves }
    {
        SharedTree { alloc, root: None }
    }

    /// These leaves, in no group. Where memory is wanting, the values are dropped.
    pub fn run(alloc: Global, values: Vec<T>) -> Result<SharedTree<T, L>, AllocError>
        ensures { IfOk result (λ tree. tree ≡ spec.run values.items) }
    {
        if values.is_empty() {
            return Ok(SharedTree::new(alloc));
        }
        let root = Rc::new(alloc, Node::Run(values))?;
        Ok(SharedTree {
            alloc,
            root: Some(root),
        })
    }

    /// The leaves of this tree, and then those of another; both are shared.
    #[tactic(auto, using(crate::proofs::Moving::nothing_behind, crate::proofs::Moving::nothing_before))]
    pub fn joined(&self, second: &SharedTree<T, L>) -> Result<SharedTree<T, L>, AllocError>
        ensures { IfOk result (λ tree. tree ≡ spec.joined self.now second.now) }
    {
        let root = match (&self.root, &second.root) {
            (Some(one), Some(other)) => {
                let both = Node::Both(one.clone()?, other.clone()?);
                Some(Rc::new(self.alloc, both)?)
            }
            (Some(one), None) => Some(one.clone()?),
            (None, Some(other)) => Some(other.clone()?),
            (None, None) => None,
        };
        Ok(SharedTree {
            alloc: self.alloc,
            root,
        })
    }

    /// This tree, which is shared, with all its leaves in one group more; one without leaves stays so.
    pub fn grouped(&self, label: L) -> Result<SharedTree<T, L>, AllocError>
        ensures { IfOk result (λ tree. tree ≡ spec.grouped self.now label) }
    {
        let tree = match &self.root {
            Some(root) => root.clone()?,
            None => Rc::new(self.alloc, Node::Empty)?,
        };
        let root = Rc::new(self.alloc, Node::Group(tree, label))?;
        Ok(SharedTree {
            alloc: self.alloc,
            root: Some(root),
        })
    }
}

impl<T, L> SharedTree<T, L> {
    /// The leaves, to be gone over in order.
    pub fn leaves(&self) -> Result<Leaves<'_, T, L>, AllocError>
        ensures { IfOk result (λ walk. walk ≡ self.now.leaves) }
    {
        match &self.root {
            Some(root) => Leaves::below(self.alloc, root.as_ref()),
            None => Ok(Leaves::none(self.alloc)),
        }
    }

    /// The groups, to be gone over in order.
    pub fn groups(&self) -> Result<Groups<'_, T, L>, AllocError>
        ensures { IfOk result (λ walk. walk ≡ self.now.groups) }
    {
        match &self.root {
            Some(root) => Groups::below(self.alloc, root.as_ref()),
            None => Ok(Groups::none(self.alloc)),
        }
    }
}

impl<T: Drop, L: Drop> SharedTree<T, L> {
    /// The same tree, which is shared.
    pub fn try_clone(&self) -> Result<SharedTree<T, L>, AllocError>
        ensures { IfOk result (λ copy. copy ≡ self.now) }
    {
        let root = match &self.root {
            Some(root) => Some(root.clone()?),
            None => None,
        };
        Ok(SharedTree {
            alloc: self.alloc,
            root,
        })
    }
}

// Branch by branch: a tree may be so high that a call for each level would run out of stack.
impl<T: Drop, L: Drop> Drop for SharedTree<T, L> {
    fn drop(self) {
        let SharedTree { alloc, root } = self;
        if let Some(root) = root {
            let_go(alloc, root);
        }
    }
}

// What waits, with a branch more that is the first of it; without memory, each is let go by itself.
fn behind<T: Drop, L: Drop>(
    alloc: Global,
    first: Rc<Node<T, L>>,
    waiting: Option<Rc<Node<T, L>>>,
) -> Option<Rc<Node<T, L>>>
    ensures { weight_of result ≤ 2 * weight first.value + weight_of waiting + 1 }
{
    match waiting {
        Some(rest) => Rc::new(alloc, Node::Both(first, rest)).ok(),
        None => Some(first),
    }
}

// The first branch that waits, and those behind it.
fn taken<T: Drop, L: Drop>(
    waiting: Option<Rc<Node<T, L>>>,
) -> Option<(Rc<Node<T, L>>, Option<Rc<Node<T, L>>>)>
    ensures { IfSome result (λ found. 2 * weight found.0.value + weight_of found.1 < weight_of waiting) }
{
    match Rc::into_inner(waiting?) {
        Some(Node::Both(first, rest)) => Some((first, Some(rest))),
        Some(Node::Group(tree, _label)) => Some((tree, None)),
        _ => None,
    }
}

// What is next to be let go of, and what waits then, once a share of a branch is given up.
fn let_one_go<T: Drop, L: Drop>(
    alloc: Global,
    branch: Rc<Node<T, L>>,
    waiting: Option<Rc<Node<T, L>>>,
) -> Option<(Rc<Node<T, L>>, Option<Rc<Node<T, L>>>)>
    ensures { IfSome result (λ next. 2 * weight next.0.value + weight_of next.1 < 2 * weight branch.value + weight_of waiting) }
{
    match Rc::into_inner(branch) {
        Some(Node::Both(first, second)) => Some((first, behind(alloc, second, waiting))),
        Some(Node::Group(tree, _label)) => Some((tree, waiting)),
        Some(Node::Run(_values)) => taken(waiting),
        _ => taken(waiting),
    }
}

// Gives up a share of a branch, and where it was the last, of those that it has.
fn let_go<T: Drop, L: Drop>(alloc: Global, root: Rc<Node<T, L>>) {
    let mut branch = root;
    let mut waiting = None;
    'down: while let Some((next, rest)) = let_one_go(alloc, branch, waiting) {
        branch = next;
        waiting = rest;
    }
}
