//! The sets of an expression. Its parts come before it, and what waits stands in a list, so that depth costs no stack.

ghost use Rattle.std.specs.Prelude.{◌≡◌, ℕ, ◌+◌, ◌*◌, ◌<◌, ◌≤◌, ◌^◌, ◌↔◌, ◌++◌, ◌∷◌, [], List, map, length, replicate, reverse, drop, Contains, None, IfOk, OnOk, IsTrue, if◌then◌else◌};
ghost use Rattle.std.specs.List.Sorted.{IsStrictlyIncreasing};
ghost use Rattle.xs_positions.specs.Tree.{Tree, size, repeat, sequence_of, choice_of, copies};
ghost use Rattle.xs_positions.specs.PositionWords.{IsWord, Ends, Rounds};
ghost use Rattle.xs_positions.specs.Sets.{Describes};
ghost use Rattle.xs_positions.specs.Measures.{AreMeasured, has_word, has_rounds};
ghost use Rattle.xs_positions.specs.Parts.{sets_of, IsPartOf, AreParts};
ghost use Rattle.xs_positions.specs.Nodes.{ids_at, ids_of};
ghost use Rattle.xs_positions.specs.Walk.{tree_in, trees_in};
ghost use Rattle.xs_positions.specs.Copies.{AreCopies, AreJoined};

use crate::expr::{ExprId, Node};
use crate::measures::{Measure, copies};
use crate::sets::Part;
use std::alloc::{AllocError, Global};

/// How many positions a block of parts in order has, but for its last part.
const BLOCK: usize = 64;

/// What is still to be done.
#[derive(Clone, Copy)]
enum Task {
    /// The sets of this expression are to be found.
    Visit(ExprId),
    /// They are to be made of those of its parts: the expression, the number of its first position, and how many sets
    /// were found before those of its parts.
    Build(ExprId, u32, usize),
}

/// Sets that were found, and what is still to be done.
#[derive(Drop)]
struct Walk {
    alloc: Global,
    /// The tasks, the next one last.
    tasks: Vec<Task>,
    /// The sets of expressions whose positions lie one after the other, from 0 on.
    found: Vec<Part>,
    /// How many positions those are.
    count: u32,
}

/// The sets of an expression whose positions have numbers from 0 on.
pub(crate) fn find_sets(
    alloc: Global,
    nodes: &[Node],
    measures: &[Measure],
    root: ExprId,
) -> Result<Part, AllocError>
    requires measured { AreMeasured nodes.now measures.now }
    requires root { root < length nodes.now }
    requires fits { size (tree_in nodes.now root) < 2 ^ 32 }
    ensures { IfOk result (IsPartOf (tree_in nodes.now root) 0) }
{
    let mut walk = Walk {
        alloc,
        tasks: vec![in alloc; Task::Visit(root)]?,
        found: Vec::new(alloc),
        count: 0,
    };
    while let Some(task) = walk.tasks.pop() {
        walk.step(nodes, measures, task)?;
    }
    Ok(walk.found.swap_remove(0))
}

impl Walk {
    ghost use Rattle.xs_positions.specs.Walking.{CanDo, Does, Visits, IsReady, IsBuilt};

    fn step(&mut self, nodes: &[Node], measures: &[Measure], task: Task) -> Result<(), AllocError>
        requires measured { AreMeasured nodes.now measures.now }
        requires can { CanDo nodes.now task self.old }
        ensures { OnOk result (Does nodes.now task self.old self.new) }
    {
        match task {
            Task::Visit(id) => self.visit(nodes, measures, id),
            Task::Build(id, base, below) => self.build(nodes, measures, id, base, below),
        }
    }

    /// Puts the sets of an expression that has no positions or no word to those that were found. Of another its parts
    /// are to be visited, the first of them first, and then it is to be built.
    fn visit(&mut self, nodes: &[Node], measures: &[Measure], id: ExprId) -> Result<(), AllocError>
        requires measured { AreMeasured nodes.now measures.now }
        requires id { id < length nodes.now }
        requires fits { self.old.count + size (tree_in nodes.now id) < 2 ^ 32 }
        ensures { OnOk result (Visits nodes.now id self.old self.new) }
    {
        let measure = measures[id.index()];
        if measure.size == 0 || !measure.inhabited {
            let part = Part::unused(self.alloc, measure.size, measure.nullable)?;
            self.found.push(part)?;
            self.count += measure.size as u32;
            return Ok(());
        }
        self.tasks
            .push(Task::Build(id, self.count, self.found.len()))?;
        wait_for_parts(&mut self.tasks, &nodes[id.index()])
    }

    /// Makes the sets of an expression of those of its parts, which it takes.
    fn build(
        &mut self,
        nodes: &[Node],
        measures: &[Measure],
        id: ExprId,
        base: u32,
        below: usize,
    ) -> Result<(), AllocError>
        requires measured { AreMeasured nodes.now measures.now }
        requires ready { IsReady nodes.now id base below self.old }
        ensures { OnOk result (IsBuilt nodes.now id base below self.old self.new) }
    {
        let parts = self.found.split_off(below)?;
        let measure = measures[id.index()];
        let mut part = build_part(self.alloc, nodes, measures, id, base, parts)?;
        part.nullable = measure.nullable;
        self.found.push(part)?;
        self.count = base + measure.size as u32;
        Ok(())
    }
}

/// The parts of the node are to be visited, the first of them first.
fn wait_for_parts(tasks: &mut Vec<Task>, node: &Node) -> Result<(), AllocError>
    ensures { OnOk result (tasks.new.items ≡ tasks.old.items ++ reverse (map Task.Visit (ids_of node.now))) }
{
    match node {
        Node::Symbol(_) => Ok(()),
        Node::Sequence(parts) => wait_for(tasks, parts),
        Node::Choice(parts) => wait_for(tasks, parts),
        Node::Repeat(part, min, max) => wait_for_copies(tasks, *part, copies(*min, *max)),
    }
}

/// These expressions are to be visited, the first of them first.
fn wait_for(tasks: &mut Vec<Task>, parts: &[ExprId]) -> Result<(), AllocError>
    ensures { OnOk result (tasks.new.items ≡ tasks.old.items ++ reverse (map Task.Visit parts.now)) }
{
    let mut i = parts.len();
    while i > 0 {
        i -= 1;
        tasks.push(Task::Visit(parts[i]))?;
    }
    Ok(())
}

/// So many copies of an expression are to be visited.
fn wait_for_copies(tasks: &mut Vec<Task>, part: ExprId, count: u32) -> Result<(), AllocError>
    ensures { OnOk result (tasks.new.items ≡ tasks.old.items ++ replicate count (Task.Visit part)) }
{
    for _ in 0..count {
        tasks.push(Task::Visit(part))?;
    }
    Ok(())
}

/// The sets of an expression with a word, from those of its parts, whose positions begin at the base. Whether the empty
/// word is one is not said.
fn build_part(
    alloc: Global,
    nodes: &[Node],
    measures: &[Measure],
    id: ExprId,
    base: u32,
    parts: Vec<Part>,
) -> Result<Part, AllocError>
    requires measured { AreMeasured nodes.now measures.now }
    requires id { id < length nodes.now }
    requires inhabited { IsTrue (has_word (tree_in nodes.now id)) }
    requires fits { base + size (tree_in nodes.now id) < 2 ^ 32 }
    requires parts { AreParts base (trees_in nodes.now (ids_at nodes.now id)) parts.items }
    ensures { IfOk result (λ part. Describes (IsWord (tree_in nodes.now id) base) base (size (tree_in nodes.now id)) (sets_of part)) }
{
    match &nodes[id.index()] {
        Node::Symbol(_) => Part::one(alloc, base),
        Node::Sequence(_) => join_all(alloc, base, parts),
        Node::Choice(_) => choose(alloc, base, parts),
        Node::Repeat(part, min, max) => {
            if measures[part.index()].inhabited {
                repeat(alloc, base, *min, *max, parts)
            } else {
                Part::unused(alloc, measures[id.index()].size, false)
            }
        }
    }
}

/// A word of each part, in order. The parts are joined in blocks, and a block with what comes before it, so that what
/// follows many positions comes to them by many at once.
fn join_all(alloc: Global, base: u32, parts: Vec<Part>) -> Result<Part, AllocError>
    requires { (trees : List Tree) × AreParts base trees parts.items × IsTrue (has_word (sequence_of trees)) × (base + size (sequence_of trees) < 2 ^ 32) }
    ensures { (trees : List Tree) → AreParts base trees parts.items → IsTrue (has_word (sequence_of trees)) → IfOk result (IsPartOf (sequence_of trees) base) }
{
    let mut whole = Part::unused(alloc, 0, true)?;
    let mut block = Part::unused(alloc, 0, true)?;
    for part in parts {
        let start = base + whole.len() as u32;
        block = block.then(start, part)?;
        if block.len() >= BLOCK {
            whole = whole.then(base, block)?;
            block = Part::unused(alloc, 0, true)?;
        }
    }
    whole.then(base, block)
}

/// A word of one of the parts.
fn choose(alloc: Global, base: u32, parts: Vec<Part>) -> Result<Part, AllocError>
    ensures { (trees : List Tree) → AreParts base trees parts.items → IfOk result (IsPartOf (choice_of trees) base) }
{
    let mut whole = Part::unused(alloc, 0, false)?;
    for part in parts {
        whole = whole.or(part)?;
    }
    Ok(whole)
}

/// Words of copies of a part, as many as the bounds allow.
fn repeat(
    alloc: Global,
    base: u32,
    min: u32,
    max: Option<u32>,
    mut parts: Vec<Part>,
) -> Result<Part, AllocError>
    requires { (tree : Tree) × AreCopies tree base min max parts.items }
    ensures { (tree : Tree) → AreCopies tree base min max parts.items → IfOk result (λ whole. Describes (IsWord (repeat tree min max) base) base (size (repeat tree min max)) (sets_of whole)) }
{
    match max {
        Some(1) => Ok(parts.swap_remove(0)),
        Some(_) => {
            let copies = find_copies(alloc, base, min, parts)?;
            Ok(copies.within())
        }
        None => repeat_last(alloc, base, min, parts),
    }
}

/// Words of copies of a part, of which the last comes over and over.
fn repeat_last(alloc: Global, base: u32, min: u32, mut parts: Vec<Part>) -> Result<Part, AllocError>
    requires { (tree : Tree) × AreCopies tree base min None parts.items }
    ensures { (tree : Tree) → AreCopies tree base min None parts.items → IfOk result (λ whole. Describes (IsWord (repeat tree min None) base) base (size (repeat tree min None)) (sets_of whole)) }
{
    let Some(last) = parts.pop() else {
        return Part::unused(alloc, 0, true);
    };
    let whole = find_copies(alloc, base, 0, parts)?.whole;
    let start = base + whole.len() as u32;
    let last = last.looped(start)?;
    whole.then(base, last)
}

/// Copies of a part, one after the other.
#[derive(Drop)]
struct Copies {
    /// The sets of one word of each copy.
    whole: Part,
    /// Where a word of enough copies may end.
    ends: Vec<u32>,
}

impl Copies {
    /// The sets of the words of enough copies.
    fn within(self) -> Part
        ensures sets { sets_of result ≡ record (sets_of self.whole) { last = self.ends.items; loops = [] } }
        ensures nullable { result.nullable ≡ self.whole.nullable }
    {
        let Copies { mut whole, ends } = self;
        whole.last = ends;
        whole.loops.clear();
        whole
    }
}

fn find_copies(alloc: Global, base: u32, least: u32, parts: Vec<Part>) -> Result<Copies, AllocError>
    requires { (tree : Tree) × AreParts base (replicate (length parts.items) tree) parts.items × IsTrue (has_word tree) }
    ensures { (tree : Tree) → AreParts base (replicate (length parts.items) tree) parts.items → IsTrue (has_word tree) → IfOk result (λ copies. AreJoined tree base least (length parts.items) copies.whole copies.ends.items) }
{
    let mut whole = Part::unused(alloc, 0, true)?;
    let mut ends = Vec::new(alloc);
    let mut count = 0;
    for part in parts {
        let nullable = part.nullable;
        whole = whole.then(base, part)?;
        count += 1;
        if least as usize <= count {
            add_ends(&mut ends, nullable, &whole.last)?;
        }
    }
    Ok(Copies { whole, ends })
}

/// Adds where a word of one copy more may end.
fn add_ends(ends: &mut Vec<u32>, nullable: bool, last: &[u32]) -> Result<(), AllocError>
    ensures { OnOk result (ends.new.items ≡ (if nullable then last.now else ends.old.items ++ last.now)) }
{
    if nullable {
        // Where a word of fewer copies may end, one of this many may end too.
        ends.clear();
    }
    ends.extend_from_slice(last)?;
    Ok(())
}
