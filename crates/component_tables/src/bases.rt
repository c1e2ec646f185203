//! Types along their bases, in runs, so that whether one is derived from another takes few steps.

ghost use Rattle.std.specs.Prelude.{◌≡◌, ◌↔◌, ◌≤◌, ◌<◌, ◌^◌, IsTrue, Some, None, length, slice_index_or, IfOk};
ghost use Rattle.xs_components.specs.Tables.{Tables};
ghost use Rattle.component_references.specs.Order.{IsOrder};
ghost use Rattle.component_references.specs.Ranked.{IsRanked};
ghost use Rattle.component_tables.specs.Bases as spec;
ghost use Rattle.component_tables.specs.inside.Runs as runs;

use component_references::{Rule, fill, order_of};
use std::alloc::{AllocError, Global};
use std::marker::Model;
use xs_components::{ComplexId, ComplexType, Components, Methods, SimpleForm, SimpleId, TypeId};

/// Where a type stands in a run of types, each of which but the first is derived from the one before it.
#[derive(Clone, Copy)]
pub struct BaseLine {
    first: TypeId,
    rank: u32,
    // the ranks of the nearest types of the run, from itself up, that are derived by extension, and by restriction; 0 where none is
    extended: u32,
    restricted: u32,
    is_union: bool,
}

impl BaseLine {
    /// The first type of the run.
    pub fn first(&self) -> TypeId
        ensures { result ≡ self.now.first }
    {
        self.first
    }

    /// Whether the type is a union, or restricts one.
    pub fn is_union(&self) -> bool
        ensures { result ≡ self.now.is_union }
    {
        self.is_union
    }

    /// Whether the type is another one of the run, or stands below it.
    pub fn is_within(&self, above: &BaseLine) -> bool
        ensures { IsTrue result ↔ (above.now.rank ≤ self.now.rank) }
    {
        above.rank <= self.rank
    }

    /// Whether no step up to another type of the run is by one of the methods.
    pub fn is_free_below(&self, above: &BaseLine, excluded: &Methods) -> bool
        ensures { IsTrue result ↔ spec.IsFree self.now above.now.rank excluded.now }
    {
        (!excluded.extension || self.extended <= above.rank)
            && (!excluded.restriction || self.restricted <= above.rank)
    }
}

// The line of a type that is a run by itself.
fn alone(of: TypeId) -> BaseLine
    ensures { result ≡ spec.alone of }
{
    BaseLine {
        first: of,
        rank: 0,
        extended: 0,
        restricted: 0,
        is_union: false,
    }
}

/// The lines of all simple types and all complex types.
pub struct BaseLines {
    simples: Vec<BaseLine>,
    complexes: Vec<BaseLine>,
}

impl Model for BaseLines {
    ghost use Rattle.component_tables.specs.Bases.{BaseTable};

    ghost Value = { BaseTable };

    ghost view = { λ b. record { simples = b.simples.items; complexes = b.complexes.items } };
}

impl BaseLines {
    /// Finds all, each after that of its base.
    pub(crate) fn of(alloc: Global, parts: &Components) -> Result<BaseLines, AllocError>
        requires ranked { IsRanked parts.now }
        ensures lines { IfOk result (spec.AreLinesOf parts.now) }
    {
        let simple = simple_steps(alloc, parts)?;
        let complex = complex_steps(alloc, parts)?;
        let simples = lines_of(alloc, simple.as_slice(), parts.simple_ranks())?;
        let complexes = lines_of(alloc, complex.as_slice(), parts.complex_ranks())?;
        Ok(BaseLines { simples, complexes })
    }

    /// The line of a type.
    pub fn line(&self, of: &TypeId) -> BaseLine
        ensures { result ≡ spec.line_at self.now of.now }
    {
        match of {
            TypeId::AnyType => alone(*of),
            TypeId::Builtin(_) => alone(*of),
            TypeId::Simple(id) => line_among(&self.simples, id.number(), *of),
            TypeId::Complex(id) => line_among(&self.complexes, id.number(), *of),
        }
    }
}

// The line of a number, else that of a type that is a run by itself.
fn line_among(lines: &[BaseLine], number: u32, of: TypeId) -> BaseLine
    ensures { result ≡ slice_index_or lines.now number (spec.alone of) }
{
    match lines.get(number as usize) {
        Some(line) => *line,
        None => alone(of),
    }
}

// A type, with the one of its kind that it is derived from, if there is one.
#[derive(Clone, Copy)]
struct BaseStep {
    own: TypeId,
    base: Option<u32>,
    by_extension: bool,
    is_union: bool,
}

// The number of a simple type.
fn simple_number(of: &TypeId) -> Option<u32>
    ensures { result ≡ spec.simple_number of.now }
{
    match of {
        TypeId::AnyType => None,
        TypeId::Builtin(_) => None,
        TypeId::Simple(id) => Some(id.number()),
        TypeId::Complex(_) => None,
    }
}

// The number of a complex type.
fn complex_number(of: &TypeId) -> Option<u32>
    ensures { result ≡ spec.complex_number of.now }
{
    match of {
        TypeId::AnyType => None,
        TypeId::Builtin(_) => None,
        TypeId::Simple(_) => None,
        TypeId::Complex(id) => Some(id.number()),
    }
}

fn simple_step(id: SimpleId, form: &SimpleForm) -> BaseStep
    ensures { result ≡ runs.simple_step id form.now }
{
    let own = TypeId::Simple(id);
    match form {
        SimpleForm::Restrict { base, .. } => BaseStep {
            own,
            base: simple_number(base),
            by_extension: false,
            is_union: false,
        },
        SimpleForm::ListOf { .. } => BaseStep {
            own,
            base: None,
            by_extension: false,
            is_union: false,
        },
        SimpleForm::UnionOf { .. } => BaseStep {
            own,
            base: None,
            by_extension: false,
            is_union: true,
        },
    }
}

fn complex_step(id: ComplexId, part: &ComplexType) -> BaseStep
    ensures { result ≡ runs.complex_step id part.now }
{
    BaseStep {
        own: TypeId::Complex(id),
        base: complex_number(&part.base),
        by_extension: part.by_extension,
        is_union: false,
    }
}

// The step of the simple type of a number.
fn simple_at(parts: &Components, number: u32) -> Option<BaseStep>
    ensures { result ≡ runs.simple_at parts.now number }
{
    match parts.simple_at(number) {
        Some(id) => Some(simple_step(id, &parts.simple(id).form)),
        None => None,
    }
}

// The step of the complex type of a number.
fn complex_at(parts: &Components, number: u32) -> Option<BaseStep>
    ensures { result ≡ runs.complex_at parts.now number }
{
    match parts.complex_at(number) {
        Some(id) => Some(complex_step(id, parts.complex(id))),
        None => None,
    }
}

// The steps of all simple types.
fn simple_steps(alloc: Global, parts: &Components) -> Result<Vec<BaseStep>, AllocError>
    ensures { IfOk result (λ steps. runs.AreSteps (runs.simple_at parts.now) (length parts.now.simples.parts) steps.items) }
{
    let mut steps = Vec::new(alloc);
    for number in 0..parts.simples().len() as u32 {
        let Some(step) = simple_at(parts, number) else {
            return Ok(steps);
        };
        steps.push(step)?;
    }
    Ok(steps)
}

// The steps of all complex types.
fn complex_steps(alloc: Global, parts: &Components) -> Result<Vec<BaseStep>, AllocError>
    ensures { IfOk result (λ steps. runs.AreSteps (runs.complex_at parts.now) (length parts.now.complexes.parts) steps.items) }
{
    let mut steps = Vec::new(alloc);
    for number in 0..parts.complexes().len() as u32 {
        let Some(step) = complex_at(parts, number) else {
            return Ok(steps);
        };
        steps.push(step)?;
    }
    Ok(steps)
}

// The base of the type of a number.
fn base_at(steps: &[BaseStep], number: u32) -> Option<u32> {
    match steps.get(number as usize) {
        Some(step) => step.base,
        None => None,
    }
}

// The weight of a number.
fn weight_at(weights: &[u32], number: u32) -> u32 {
    match weights.get(number as usize) {
        Some(weight) => *weight,
        None => 0,
    }
}

// Makes the type of a number heavier.
fn add_weight(weights: &mut [u32], number: u32, more: u32) {
    if (number as usize) < weights.len() {
        let weight = weights[number as usize];
        weights[number as usize] = weight.saturating_add(more);
    }
}

// How many types are derived from each, itself too. It tells only which of them goes on in a run: any choice serves, and this one
// leads from a type up through few runs.
fn weights_of(alloc: Global, steps: &[BaseStep], order: &[u32]) -> Result<Vec<u32>, AllocError> {
    let mut weights = Vec::from_elem(alloc, 1u32, steps.len())?;
    for number in order.iter().rev() {
        if let Some(base) = base_at(steps, *number) {
            let weight = weight_at(&weights, *number);
            add_weight(weights.as_mut_slice(), base, weight);
        }
    }
    Ok(weights)
}

// Puts a type behind its base, if it is heavier than the one there.
fn offer(nexts: &mut [Option<u32>], weights: &[u32], base: u32, number: u32) {
    if (base as usize) < nexts.len() {
        let is_heavier = match nexts[base as usize] {
            Some(other) => weight_at(weights, other) < weight_at(weights, number),
            None => true,
        };
        if is_heavier {
            nexts[base as usize] = Some(number);
        }
    }
}

// The type that goes on behind each.
fn nexts_of(
    alloc: Global,
    steps: &[BaseStep],
    order: &[u32],
) -> Result<Vec<Option<u32>>, AllocError> {
    let weights = weights_of(alloc, steps, order)?;
    let mut nexts = Vec::from_elem(alloc, None, steps.len())?;
    for number in order {
        if let Some(base) = base_at(steps, *number) {
            offer(nexts.as_mut_slice(), &weights, base, *number);
        }
    }
    Ok(nexts)
}

// The type that goes on behind that of a number.
fn next_at(nexts: &[Option<u32>], number: u32) -> Option<u32>
    ensures { result ≡ slice_index_or nexts.now number None }
{
    match nexts.get(number as usize) {
        Some(next) => *next,
        None => None,
    }
}

// Whether a type is the one that goes on behind a base.
fn is_next(nexts: &[Option<u32>], base: u32, number: u32) -> bool
    ensures { result ≡ runs.is_next nexts.now base number }
{
    match next_at(nexts, base) {
        Some(next) => next == number,
        None => false,
    }
}

// The line of the first type of a run, below a union or not.
fn starting(step: &BaseStep, rank: u32, is_below_union: bool) -> BaseLine
    ensures { result ≡ runs.starting step.now rank is_below_union }
{
    BaseLine {
        first: step.own,
        rank,
        extended: 0,
        restricted: 0,
        is_union: step.is_union || is_below_union,
    }
}

// The line of a type that goes on behind its base.
fn following(step: &BaseStep, rank: u32, line: &BaseLine) -> BaseLine
    ensures { result ≡ runs.following step.now rank line.now }
{
    BaseLine {
        first: line.first,
        rank,
        extended: if step.by_extension {
            rank
        } else {
            line.extended
        },
        restricted: if step.by_extension {
            line.restricted
        } else {
            rank
        },
        is_union: step.is_union || line.is_union,
    }
}

// How the line of a type comes from that of its base.
#[derive(Clone, Copy)]
struct RunRule<'a> {
    steps: &'a [BaseStep],
    nexts: &'a [Option<u32>],
    ranks: &'a [u32],
}

impl Rule<BaseLine> for RunRule<'_> {
    ghost is_valid = { λ r. runs.AreLower r.steps.now r.ranks.now };

    ghost count = { λ r. length r.ranks.now };

    ghost ranks = { λ r. r.ranks.now };

    ghost value_of = { λ r n. runs.line_of r.steps.now r.nexts.now r.ranks.now n };

    fn value(&self, x: u32, table: &[BaseLine]) -> BaseLine {
        let step = &self.steps[x as usize];
        let rank = self.ranks[x as usize];
        match step.base {
            None => starting(step, rank, false),
            Some(base) => joined(
                is_next(self.nexts, base, x),
                step,
                rank,
                &table[base as usize],
            ),
        }
    }
}

// The line of a type by that of its base, where it goes on behind that, or does not.
fn joined(goes_on: bool, step: &BaseStep, rank: u32, line: &BaseLine) -> BaseLine
    ensures { result ≡ runs.joined goes_on step.now rank line.now }
{
    if goes_on {
        following(step, rank, line)
    } else {
        starting(step, rank, line.is_union)
    }
}

// The lines of all types of one kind, in an order by ranks.
fn lines_by(
    alloc: Global,
    steps: &[BaseStep],
    nexts: &[Option<u32>],
    ranks: &[u32],
    order: &[u32],
) -> Result<Vec<BaseLine>, AllocError>
    requires lower { runs.AreLower steps.now ranks.now }
    requires order { IsOrder (length ranks.now) ranks.now order.now }
    ensures lines { IfOk result (λ lines. runs.AreLines steps.now nexts.now ranks.now lines.items) }
{
    let mut lines = Vec::from_elem(alloc, alone(TypeId::AnyType), ranks.len())?;
    let rule = RunRule {
        steps,
        nexts,
        ranks,
    };
    fill(&rule, order, lines.as_mut_slice());
    Ok(lines)
}

// The lines of all types of one kind.
fn lines_of(alloc: Global, steps: &[BaseStep], ranks: &[u32]) -> Result<Vec<BaseLine>, AllocError>
    requires lower { runs.AreLower steps.now ranks.now }
    requires few { length ranks.now < 2 ^ 32 }
    ensures lines { IfOk result (λ lines. runs.AreSome steps.now ranks.now lines.items) }
{
    let order = order_of(alloc, ranks)?;
    let nexts = nexts_of(alloc, steps, &order)?;
    let lines = lines_by(alloc, steps, nexts.as_slice(), ranks, order.as_slice())?;
    Ok(lines)
}

impl Drop for BaseLines {
    fn drop(self) {
        let BaseLines { simples, complexes } = self;
        drop(simples);
        drop(complexes);
    }
}
