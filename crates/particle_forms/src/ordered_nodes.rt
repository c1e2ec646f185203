//! Content models as nodes, a particle once.

ghost use Rattle.std.specs.Prelude.{◌≡◌, ◌<◌, ◌++◌, ◌∷◌, [], ℕ, All, Contains, IsSome, IfSome, map, length, nat_eq, slice_index, IfOk, OnOk};
ghost use Rattle.std.specs.HashMap.{get};
ghost use Rattle.std.specs.List.Sorted.{IsNonDecreasingBy};
ghost use Rattle.component_references.specs.Ranked.{named_group, IsRanked};
ghost use Rattle.particle_forms.specs.Made.{term_parts, parts_of, number_at, AreNodesOf, IsTermNode};

use particle_models::Node;
use std::alloc::{AllocError, Global};
use std::collections::HashMap;
use xs_components::{Components, ParticleId, Term};
use xs_lists::Listed;

/// The nodes of particles, and under which number each particle has its own.
#[derive(Drop)]
pub(crate) struct Nodes {
    pub(crate) nodes: Vec<Node>,
    pub(crate) numbers: HashMap<u32, u32>,
}

/// The nodes of these particles, each of which comes after those of lower rank.
pub(crate) fn nodes_of(
    alloc: Global,
    parts: &Components,
    order: &[u32],
) -> Result<Nodes, AllocError>
    requires ranked { IsRanked parts.now }
    requires there { All (λ id. id < length parts.now.particles.parts) order.now }
    requires closed { (id : ℕ) → Contains order.now id → All (Contains order.now) (parts_of parts.now id) }
    requires rises { IsNonDecreasingBy (slice_index parts.now.particles.ranks) order.now }
    ensures right { IfOk result (λ n. AreNodesOf parts.now (get nat_eq n.numbers) n.nodes.items) }
    ensures known { IfOk result (λ n. All (λ id. IsSome (get nat_eq n.numbers id)) order.now) }
{
    let mut nodes = Vec::new(alloc);
    let mut numbers = HashMap::new(alloc);
    for id in order {
        add_part(alloc, parts, *id, &mut nodes, &mut numbers)?;
    }
    Ok(Nodes { nodes, numbers })
}

// Adds the nodes of a particle, over those of the particles right below it.
fn add_part(
    alloc: Global,
    parts: &Components,
    id: u32,
    nodes: &mut Vec<Node>,
    numbers: &mut HashMap<u32, u32>,
) -> Result<(), AllocError>
    requires ranked { IsRanked parts.now }
    requires there { id < length parts.now.particles.parts }
    requires right { AreNodesOf parts.now (get nat_eq numbers.old) nodes.old.items }
    requires known { All (λ y. IsSome (get nat_eq numbers.old y)) (parts_of parts.now id) }
    ensures right { OnOk result (AreNodesOf parts.now (get nat_eq numbers.new) nodes.new.items) }
    ensures kept { OnOk result ((y : ℕ) → IsSome (get nat_eq numbers.old y) → IsSome (get nat_eq numbers.new y)) }
    ensures itself { OnOk result (IsSome (get nat_eq numbers.new id)) }
{
    let part = &parts.particles()[id as usize];
    let term = add_term(alloc, parts, id, &part.term, nodes, numbers)?;
    let number = add_node(nodes, Node::Occurs(term, part.min, part.max))?;
    numbers.insert(id, number)?;
    Ok(())
}

// The number of the node of a term, which is added unless the term is a reference to a group.
fn add_term(
    alloc: Global,
    parts: &Components,
    id: u32,
    term: &Term,
    nodes: &mut Vec<Node>,
    numbers: &HashMap<u32, u32>,
) -> Result<u32, AllocError>
    requires group { IfSome (named_group term.now) (λ g. g < length parts.now.groups.parts) }
    requires right { AreNodesOf parts.now (get nat_eq numbers.now) nodes.old.items }
    requires known { All (λ y. IsSome (get nat_eq numbers.now y)) (term_parts parts.now term.now) }
    ensures { IfOk result (IsTermNode parts.now id term.now nodes.old.items nodes.new.items) }
{
    match term {
        Term::Element(_) | Term::Any(_) => add_node(nodes, Node::Term(id)),
        Term::Group(group) => match parts.group(*group).particle {
            Some(particle) => Ok(number_of(numbers, particle)),
            None => add_node(nodes, Node::Choice(Listed::new(alloc))),
        },
        Term::Sequence(members) => {
            let below = numbers_of(alloc, numbers, members.as_slice())?;
            add_node(nodes, Node::Sequence(below))
        }
        Term::Choice(members) => {
            let below = numbers_of(alloc, numbers, members.as_slice())?;
            add_node(nodes, Node::Choice(below))
        }
        Term::All(members) => {
            let below = numbers_of(alloc, numbers, members.as_slice())?;
            add_node(nodes, Node::Each(below))
        }
    }
}

// Adds a node, and answers its number.
fn add_node(nodes: &mut Vec<Node>, node: Node) -> Result<u32, AllocError>
    ensures number { IfOk result (λ k. k ≡ length nodes.old.items) }
    ensures nodes { OnOk result (nodes.new.items ≡ nodes.old.items ++ node ∷ []) }
{
    let number = nodes.len();
    if number > u32::MAX as usize {
        return Err(AllocError);
    }
    nodes.push(node)?;
    Ok(number as u32)
}

// The numbers of the members' nodes.
fn numbers_of(
    alloc: Global,
    numbers: &HashMap<u32, u32>,
    members: &[ParticleId],
) -> Result<Listed<u32>, AllocError>
    ensures { IfOk result (λ below. below ≡ map (number_at (get nat_eq numbers.now)) members.now) }
{
    let mut below = Listed::new(alloc);
    for member in members {
        below.push(number_of(numbers, *member))?;
    }
    Ok(below)
}

// The number of a particle's node.
pub(crate) fn number_of(numbers: &HashMap<u32, u32>, id: ParticleId) -> u32
    ensures { result ≡ number_at (get nat_eq numbers.now) id }
{
    match numbers.get(&id.number()) {
        Some(number) => *number,
        None => 0,
    }
}
