//! How large each expression is, and whether it has the empty word, and any word.

ghost use Rattle.std.specs.Prelude.{◌≡◌, ℕ, ◌+◌, ◌-◌, ◌^◌, ◌<◌, ◌&&◌, ◌||◌, min, List, map, length, All, IfOk};
ghost use Rattle.xs_positions.specs.Tree.{Tree, repeat, sequence_of, choice_of, copies as copies_of};
ghost use Rattle.xs_positions.specs.Nodes.{tree_at, tree_of, trees_of, PartsBelow, IsOrdered};
ghost use Rattle.xs_positions.specs.Measures.{measure_of};

use crate::expr::{ExprId, Node};
use std::alloc::{AllocError, Global};

/// What is known of an expression before its sets are built.
#[derive(Clone, Copy)]
pub(crate) struct Measure {
    /// How many positions it has; a number past 64 bits counts as the largest of 64 bits.
    pub(crate) size: u64,
    /// Whether the empty word is one of its words.
    pub(crate) nullable: bool,
    /// Whether it has a word.
    pub(crate) inhabited: bool,
}

impl Measure {
    /// The measure of a sequence of both.
    fn then(self, next: Measure) -> Measure
        ensures size { result.size ≡ min (self.size + next.size) (2 ^ 64 - 1) }
        ensures nullable { result.nullable ≡ (self.nullable && next.nullable) }
        ensures inhabited { result.inhabited ≡ (self.inhabited && next.inhabited) }
    {
        Measure {
            size: self.size.saturating_add(next.size),
            nullable: self.nullable && next.nullable,
            inhabited: self.inhabited && next.inhabited,
        }
    }

    /// The measure of a choice between both.
    fn or(self, other: Measure) -> Measure
        ensures size { result.size ≡ min (self.size + other.size) (2 ^ 64 - 1) }
        ensures nullable { result.nullable ≡ (self.nullable || other.nullable) }
        ensures inhabited { result.inhabited ≡ (self.inhabited || other.inhabited) }
    {
        Measure {
            size: self.size.saturating_add(other.size),
            nullable: self.nullable || other.nullable,
            inhabited: self.inhabited || other.inhabited,
        }
    }
}

/// The measures of these nodes, under their numbers.
pub(crate) fn measure_nodes(alloc: Global, nodes: &[Node]) -> Result<Vec<Measure>, AllocError>
    requires { IsOrdered nodes.now }
    ensures { IfOk result (λ measures. measures.items ≡ map measure_of (trees_of nodes.now)) }
{
    let mut measures = Vec::new(alloc);
    for node in nodes {
        let measure = measure_node(&measures, node);
        measures.push(measure)?;
    }
    Ok(measures)
}

fn measure_node(measures: &[Measure], node: &Node) -> Measure
    requires { PartsBelow (length measures.now) node.now }
    ensures { (trees : List Tree) → measures.now ≡ map measure_of trees → result ≡ measure_of (tree_of trees node.now) }
{
    match node {
        Node::Symbol(_) => Measure {
            size: 1,
            nullable: false,
            inhabited: true,
        },
        Node::Sequence(parts) => measure_sequence(measures, parts),
        Node::Choice(parts) => measure_choice(measures, parts),
        Node::Repeat(part, min, max) => measure_repeat(measures[part.index()], *min, *max),
    }
}

fn measure_sequence(measures: &[Measure], parts: &[ExprId]) -> Measure
    requires { All (λ part. part < length measures.now) parts.now }
    ensures { (trees : List Tree) → measures.now ≡ map measure_of trees → result ≡ measure_of (sequence_of (map (tree_at trees) parts.now)) }
{
    let mut whole = Measure {
        size: 0,
        nullable: true,
        inhabited: true,
    };
    for part in parts {
        whole = whole.then(measures[part.index()]);
    }
    whole
}

fn measure_choice(measures: &[Measure], parts: &[ExprId]) -> Measure
    requires { All (λ part. part < length measures.now) parts.now }
    ensures { (trees : List Tree) → measures.now ≡ map measure_of trees → result ≡ measure_of (choice_of (map (tree_at trees) parts.now)) }
{
    let mut whole = Measure {
        size: 0,
        nullable: false,
        inhabited: false,
    };
    for part in parts {
        whole = whole.or(measures[part.index()]);
    }
    whole
}

fn measure_repeat(part: Measure, min: u32, max: Option<u32>) -> Measure
    ensures { (tree : Tree) → part ≡ measure_of tree → result ≡ measure_of (repeat tree min max) }
{
    let has_rounds = max.is_none_or(|most| min <= most);
    Measure {
        size: u64::from(copies(min, max)).saturating_mul(part.size),
        nullable: has_rounds && (min == 0 || part.nullable),
        inhabited: has_rounds && (min == 0 || part.inhabited),
    }
}

/// How many copies of a part with these bounds there are.
pub(crate) fn copies(min: u32, max: Option<u32>) -> u32
    ensures { result ≡ copies_of min max }
{
    max.unwrap_or(min.max(1))
}
