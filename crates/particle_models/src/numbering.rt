//! The numbers of the terms along the positions.

ghost use Rattle.std.specs.Prelude.{◌≡◌, ℕ, ◌+◌, ◌-◌, ◌<◌, ◌≤◌, ◌^◌, ◌++◌, [], ◌∷◌, List, map, length, drop, All, IfOk, OnOk, slice_index_or, true};
ghost use Rattle.xs_positions.specs.Tree.{times, copies};
ghost use Rattle.particle_models.specs.Nodes.{models_from, model_in, PartsBelow, IsOrdered};
ghost use Rattle.particle_models.specs.Unrolled.{is_never, count};
ghost use Rattle.particle_models.specs.Sharing.{numbers_of, terms_of};
ghost use Rattle.particle_models.specs.Numbering.{State, entered, all_entered, done, outcome, IsTaskWithin, weight, task_weight, weight_of, members_weight, has_no_terms, all_flags, node_flag};
ghost use Rattle.particle_models.specs.declared.node.Node.{Node as NodeData};

use crate::node::Node;
use std::alloc::{AllocError, Global};
use std::marker::Model;

/// What is still to be done.
#[derive(Clone, Copy)]
pub(crate) enum Task {
    /// Number the terms of this node.
    Enter(u32),
    /// Say the numbers from this place on again, so many times more.
    Copy(usize, u32),
}

/// The numbers of the terms along the positions so far, and the particles of the terms.
#[derive(Drop)]
pub(crate) struct Numbering {
    pub(crate) numbers: Vec<u32>,
    pub(crate) terms: Vec<u32>,
}

impl Model for Numbering {
    ghost use Rattle.particle_models.specs.Numbering.{State};

    ghost Value = { State };

    ghost view = { λ n. record { numbers = n.numbers.items; terms = n.terms.items } };
}

impl Numbering {
    /// A term more, with one position.
    fn add_term(&mut self, particle: u32) -> Result<(), AllocError>
        requires { length self.old.terms < 2 ^ 32 }
        ensures { OnOk result (self.new ≡ record { numbers = self.old.numbers ++ length self.old.terms ∷ []; terms = self.old.terms ++ particle ∷ [] }) }
    {
        let number = self.terms.len() as u32;
        self.numbers.push(number)?;
        self.terms.push(particle)?;
        Ok(())
    }
}

/// Says the numbers from this place on again, so many times more.
fn say_again(
    alloc: Global,
    numbers: &mut Vec<u32>,
    from: usize,
    more: u32,
) -> Result<(), AllocError>
    ensures { OnOk result (numbers.new.items ≡ numbers.old.items ++ times more (drop from numbers.old.items)) }
{
    let from = from.min(numbers.len());
    let part = Vec::from_slice(alloc, &numbers[from..])?;
    for _ in 0..more {
        numbers.extend_from_slice(&part)?;
    }
    Ok(())
}

/// For each node, whether no term below it has a copy.
pub(crate) fn find_empty(alloc: Global, nodes: &[Node]) -> Result<Vec<bool>, AllocError>
    requires { IsOrdered nodes.now }
    ensures { IfOk result (λ flags. flags.items ≡ map has_no_terms (models_from [] nodes.now)) }
{
    let mut flags = Vec::new(alloc);
    for node in nodes {
        let flag = is_empty(&flags, node);
        flags.push(flag)?;
    }
    Ok(flags)
}

/// Whether no term below the node has a copy.
fn is_empty(flags: &[bool], node: &Node) -> bool
    requires { PartsBelow (length flags.now) node.now }
    ensures { result ≡ node_flag flags.now node.now }
{
    match node {
        Node::Term(_) => false,
        Node::Sequence(members) | Node::Choice(members) => are_all(flags, members.as_slice()),
        Node::Each(_) => true,
        Node::Occurs(part, _, most) => *most == Some(0) || flags[*part as usize],
    }
}

/// Whether the flags of all these numbers are set.
fn are_all(flags: &[bool], members: &[u32]) -> bool
    requires { All (λ m. m < length flags.now) members.now }
    ensures { result ≡ all_flags flags.now members.now }
{
    for member in members {
        if !flags[*member as usize] {
            return false;
        }
    }
    true
}

/// The numbers of the terms along the positions of a node, and the particles of the terms.
pub(crate) fn number_terms(
    alloc: Global,
    nodes: &[Node],
    empty: &[bool],
    root: u32,
) -> Result<Numbering, AllocError>
    requires ordered { IsOrdered nodes.now }
    requires empty { empty.now ≡ map has_no_terms (models_from [] nodes.now) }
    requires root { root < length nodes.now }
    requires fits { length (terms_of (model_in nodes.now root)) < 2 ^ 32 }
    ensures { IfOk result (λ n. n ≡ record { numbers = numbers_of (model_in nodes.now root) 0; terms = terms_of (model_in nodes.now root) }) }
{
    let mut numbering = Numbering {
        numbers: Vec::new(alloc),
        terms: Vec::new(alloc),
    };
    let mut todo = vec![in alloc; Task::Enter(root)]?;
    while let Some(task) = todo.pop() {
        match task {
            Task::Enter(id) => enter(nodes, empty, id, &mut todo, &mut numbering)?,
            Task::Copy(from, more) => say_again(alloc, &mut numbering.numbers, from, more)?,
        }
    }
    Ok(numbering)
}

/// Numbers a term, or says what is to be done for another node.
fn enter(
    nodes: &[Node],
    empty: &[bool],
    id: u32,
    todo: &mut Vec<Task>,
    numbering: &mut Numbering,
) -> Result<(), AllocError>
    requires ordered { IsOrdered nodes.now }
    requires empty { empty.now ≡ map has_no_terms (models_from [] nodes.now) }
    requires id { id < length nodes.now }
    requires todo { All (IsTaskWithin nodes.now) todo.old.items }
    requires fits { length (outcome nodes.now todo.old.items (entered nodes.now id numbering.old)).terms < 2 ^ 32 }
    ensures todo { OnOk result (All (IsTaskWithin nodes.now) todo.new.items) }
    ensures outcome { OnOk result (outcome nodes.now todo.new.items numbering.new ≡ outcome nodes.now todo.old.items (entered nodes.now id numbering.old)) }
    ensures weight { OnOk result (weight_of nodes.now todo.new.items < weight_of nodes.now todo.old.items + weight (model_in nodes.now id)) }
{
    if empty[id as usize] {
        return Ok(());
    }
    match &nodes[id as usize] {
        Node::Term(particle) => numbering.add_term(*particle),
        Node::Sequence(members) => push_members(todo, members.as_slice()),
        Node::Choice(members) => push_members(todo, members.as_slice()),
        Node::Each(_) => Ok(()),
        Node::Occurs(part, least, most) => {
            let more = most.unwrap_or((*least).max(1)) - 1;
            todo.push(Task::Copy(numbering.numbers.len(), more))?;
            todo.push(Task::Enter(*part))?;
            Ok(())
        }
    }
}

/// Puts the members to be done, the first of them last.
fn push_members(todo: &mut Vec<Task>, members: &[u32]) -> Result<(), AllocError>
    ensures within { OnOk result ((nodes : List NodeData) → All (λ m. m < length nodes) members.now → All (IsTaskWithin nodes) todo.old.items → All (IsTaskWithin nodes) todo.new.items) }
    ensures outcome { OnOk result ((nodes : List NodeData) (s : State) → outcome nodes todo.new.items s ≡ outcome nodes todo.old.items (all_entered nodes members.now s)) }
    ensures weight { OnOk result ((nodes : List NodeData) → weight_of nodes todo.new.items ≡ weight_of nodes todo.old.items + members_weight nodes members.now) }
{
    let mut left = members.len();
    while left > 0 {
        left -= 1;
        todo.push(Task::Enter(members[left]))?;
    }
    Ok(())
}
