//! Going over the leaves and the groups of a tree.
ghost use Rattle.std.specs.Prelude.{◌≡◌, ◌+◌, [], ◌∷◌, reverse, IfOk, MatchOption};
ghost use Rattle.shared_lists.specs.Walks as spec;

use crate::trees::Node;
use std::alloc::{AllocError, Global};
use std::marker::Model;

/// The leaves of a tree that are left to be gone over, in order. Contracts see the list of them.
#[derive(Drop)]
pub struct Leaves<'a, T, L> {
    // What they are in, the first of it last.
    ahead: Vec<Ahead<'a, T, L>>,
}

// What leaves are in: a branch, or what is left of a run.
#[derive(Drop)]
pub(crate) enum Ahead<'a, T, L> {
    Branch(&'a Node<T, L>),
    Run(&'a [T]),
}

impl<'a, T, L> Model for Leaves<'a, T, L> {
    ghost use Rattle.std.specs.Prelude.{List, reverse};
    ghost use Rattle.std.specs.Coded.{coded_list};
    ghost use Rattle.shared_lists.specs.Walks.{leaves_of};

    ghost Value = { List T };

    ghost coded = { coded_list T.code };

    ghost view = { λ walk. leaves_of (reverse walk.ahead.items) };
}

impl<'a, T, L> Leaves<'a, T, L> {
    pub(crate) fn none(alloc: Global) -> Leaves<'a, T, L>
        ensures { result ≡ [] }
    {
        Leaves {
            ahead: Vec::new(alloc),
        }
    }

    pub(crate) fn below(alloc: Global, node: &'a Node<T, L>) -> Result<Leaves<'a, T, L>, AllocError>
        ensures { IfOk result (λ walk. walk ≡ spec.leaves node.now) }
    {
        let mut ahead = Vec::new(alloc);
        ahead.push(Ahead::Branch(node))?;
        Ok(Leaves { ahead })
    }

    /// The next leaf; `None` behind the last.
    pub fn next(&mut self) -> Result<Option<&'a T>, AllocError>
        ensures { IfOk result (λ found. MatchOption found ((self.old ≡ []) × (self.new ≡ [])) (λ leaf. self.old ≡ leaf.now ∷ self.new)) }
    {
        next_leaf(&mut self.ahead)
    }
}

// The first leaf of these, the first of them last.
#[tactic(auto, using(crate::proofs::Moving::reverse_more))]
fn next_leaf<'a, T, L>(ahead: &mut Vec<Ahead<'a, T, L>>) -> Result<Option<&'a T>, AllocError>
    ensures { IfOk result (λ found. spec.IsNextLeaf (reverse ahead.old.items) (reverse ahead.new.items) found) }
{
    'down: while let Some(next) = ahead.pop() {
        match next {
            Ahead::Branch(Node::Empty) => {}
            Ahead::Branch(Node::Run(values)) => ahead.push(Ahead::Run(values.as_slice()))?,
            Ahead::Branch(Node::Both(first, second)) => {
                ahead.push(Ahead::Branch(second.as_ref()))?;
                ahead.push(Ahead::Branch(first.as_ref()))?;
            }
            Ahead::Branch(Node::Group(tree, _)) => ahead.push(Ahead::Branch(tree.as_ref()))?,
            Ahead::Run(values) => {
                if let Some((value, rest)) = values.split_first() {
                    ahead.push(Ahead::Run(rest))?;
                    return Ok(Some(value));
                }
            }
        }
    }
    Ok(None)
}

/// A group of leaves, with its label.
#[derive(Drop)]
pub struct Group<'a, L> {
    /// The index of its first leaf.
    pub from: usize,
    /// That of the leaf behind its last.
    pub to: usize,
    /// What was given to it.
    pub label: &'a L,
}

/// The groups of a tree that are left to be gone over, in order. Contracts see the list of them.
#[derive(Drop)]
pub struct Groups<'a, T, L> {
    // What they are in, the first of it last.
    ahead: Vec<Step<'a, T, L>>,
    // How many leaves were passed.
    passed: usize,
}

// What lies ahead: a branch, or the end of a group that began at an index.
#[derive(Drop)]
pub(crate) enum Step<'a, T, L> {
    Branch(&'a Node<T, L>),
    End(usize, &'a L),
}

impl<'a, T, L> Model for Groups<'a, T, L> {
    ghost use Rattle.std.specs.Prelude.{List, reverse};
    ghost use Rattle.shared_lists.specs.Trees.{Group};
    ghost use Rattle.shared_lists.specs.Walks.{groups_of};

    ghost Value = { List (Group L) };

    ghost view = { λ walk. groups_of walk.passed (reverse walk.ahead.items) };
}

impl<'a, T, L> Groups<'a, T, L> {
    pub(crate) fn none(alloc: Global) -> Groups<'a, T, L>
        ensures { result ≡ [] }
    {
        Groups {
            ahead: Vec::new(alloc),
            passed: 0,
        }
    }

    #[tactic(auto, using(crate::proofs::Moving::begun))]
    pub(crate) fn below(alloc: Global, node: &'a Node<T, L>) -> Result<Groups<'a, T, L>, AllocError>
        ensures { IfOk result (λ walk. walk ≡ spec.groups node.now) }
    {
        let mut ahead = Vec::new(alloc);
        ahead.push(Step::Branch(node))?;
        Ok(Groups { ahead, passed: 0 })
    }

    /// The next group; `None` behind the last.
    pub fn next(&mut self) -> Result<Option<Group<'a, L>>, AllocError>
        ensures { IfOk result (λ found. MatchOption found ((self.old ≡ []) × (self.new ≡ [])) (λ group. self.old ≡ spec.group_of group ∷ self.new)) }
    {
        next_group(&mut self.ahead, &mut self.passed)
    }
}

// The first group of these steps, the first of them last, behind so many leaves.
#[tactic(auto, using(crate::proofs::Moving::reverse_more, crate::proofs::Moving::both_apart))]
fn next_group<'a, T, L>(
    ahead: &mut Vec<Step<'a, T, L>>,
    passed: &mut usize,
) -> Result<Option<Group<'a, L>>, AllocError>
    ensures { IfOk result (λ found. spec.IsNextGroup passed.old (reverse ahead.old.items) passed.new (reverse ahead.new.items) found) }
{
    'down: while let Some(step) = ahead.pop() {
        match step {
            Step::Branch(Node::Empty) => {}
            Step::Branch(Node::Run(values)) => *passed = counted(*passed, values.len())?,
            Step::Branch(Node::Both(first, second)) => {
                ahead.push(Step::Branch(second.as_ref()))?;
                ahead.push(Step::Branch(first.as_ref()))?;
            }
            Step::Branch(Node::Group(tree, label)) => {
                ahead.push(Step::End(*passed, label))?;
                ahead.push(Step::Branch(tree.as_ref()))?;
            }
            Step::End(from, label) => {
                return Ok(Some(Group {
                    from,
                    to: *passed,
                    label,
                }));
            }
        }
    }
    Ok(None)
}

// Leaves are counted as far as memory goes.
fn counted(passed: usize, more: usize) -> Result<usize, AllocError>
    ensures { IfOk result (λ count. count ≡ passed + more) }
{
    match passed.checked_add(more) {
        Some(count) => Ok(count),
        None => Err(AllocError),
    }
}
