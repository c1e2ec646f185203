//! The effective total ranges of all particles.

ghost use Rattle.std.specs.Prelude.{◌≡◌, ℕ, ◌<◌, List, All, map, length, IfOk};
ghost use Rattle.xs_components.specs.Tables.{Tables};
ghost use Rattle.component_references.specs.Ranked.{IsRanked};
ghost use Rattle.particle_forms.specs.Models.{model_of};
ghost use Rattle.particle_forms.specs.Ranges.{range, is_emptiable, sum_of, widest_of, AreRangesOf};
ghost use Rattle.particle_forms.specs.Steps.{known, term_range, HasParts};

use crate::extent::TotalRange;
use component_references::{Rule, fill, order_of};
use std::alloc::{AllocError, Global};
use std::marker::Model;
use xs_components::{Components, ParticleId, Term};

/// The effective total ranges of all particles of a schema set (Structures 3.8.6), by the numbers of the particles.
#[derive(Drop)]
pub struct Ranges {
    table: Vec<TotalRange>,
}

impl Model for Ranges {
    ghost use Rattle.std.specs.Prelude.{List};
    ghost use Rattle.particle_forms.specs.declared.extent.TotalRange.{TotalRange};

    ghost Value = { List TotalRange };

    ghost view = { λ r. r.table.items };
}

impl Ranges {
    /// The ranges of all particles, each found once from those of lower rank.
    pub fn of(alloc: Global, parts: &Components) -> Result<Ranges, AllocError>
        requires ranked { IsRanked parts.now }
        ensures ranges { IfOk result (AreRangesOf parts.now) }
    {
        let order = order_of(alloc, parts.particle_ranks())?;
        let mut table = Vec::from_elem(alloc, TotalRange::nothing(), parts.particles().len())?;
        fill(&RangeRule { parts }, &order, table.as_mut_slice());
        Ok(Ranges { table })
    }

    /// The effective total range of a particle: how many elements its words have at least and at most, `None` where there is
    /// no bound. Numbers stop at the greatest of their type; of no members both are 0.
    pub fn range(&self, p: ParticleId) -> (u64, Option<u64>)
        requires there { p < length self.now }
        ensures range { (parts : Tables) → AreRangesOf parts self.now → result ≡ ((range (model_of parts p)).least, (range (model_of parts p)).most) }
    {
        let range = self.table[p.number() as usize];
        (range.least, range.most)
    }

    /// Whether a particle may come without any element (Structures 3.9.6).
    pub fn emptiable(&self, p: ParticleId) -> bool
        requires there { p < length self.now }
        ensures emptiable { (parts : Tables) → AreRangesOf parts self.now → result ≡ is_emptiable (model_of parts p) }
    {
        self.table[p.number() as usize].least == 0
    }
}

// How the range of a particle comes from those of lower rank.
#[derive(Clone, Copy)]
struct RangeRule<'a> {
    parts: &'a Components,
}

impl Rule<TotalRange> for RangeRule<'_> {
    ghost is_valid = { λ r. IsRanked r.parts.now };

    ghost count = { λ r. length r.parts.now.particles.parts };

    ghost ranks = { λ r. r.parts.now.particles.ranks };

    ghost value_of = { λ r id. range (model_of r.parts.now id) };

    fn value(&self, x: u32, table: &[TotalRange]) -> TotalRange {
        let part = &self.parts.particles()[x as usize];
        range_of(self.parts, &part.term, table).times(part.min, part.max)
    }
}

// The range of a term, by those of its parts.
fn range_of(parts: &Components, term: &Term, table: &[TotalRange]) -> TotalRange
    requires parts { HasParts parts.now (length table.now) term.now }
    ensures { result ≡ term_range parts.now (known table.now) term.now }
{
    match term {
        Term::Element(_) | Term::Any(_) => TotalRange::once(),
        Term::Group(group) => match parts.group(*group).particle {
            Some(particle) => table[particle.number() as usize],
            None => TotalRange::nothing(),
        },
        Term::Sequence(members) | Term::All(members) => sum(members.as_slice(), table),
        Term::Choice(members) => widest(members.as_slice(), table),
    }
}

// The sums of the members' ranges.
fn sum(members: &[ParticleId], table: &[TotalRange]) -> TotalRange
    requires { All (λ id. id < length table.now) members.now }
    ensures { result ≡ sum_of (map (known table.now) members.now) }
{
    let mut all = TotalRange::nothing();
    let mut left = members.len();
    while left > 0 {
        left -= 1;
        all = table[members[left].number() as usize].and(all);
    }
    all
}

// From the least to the greatest of the members' ranges.
fn widest(members: &[ParticleId], table: &[TotalRange]) -> TotalRange
    requires { All (λ id. id < length table.now) members.now }
    ensures { result ≡ widest_of (map (known table.now) members.now) }
{
    if members.is_empty() {
        return TotalRange::nothing();
    }
    let mut left = members.len() - 1;
    let mut all = table[members[left].number() as usize];
    while left > 0 {
        left -= 1;
        all = table[members[left].number() as usize].or(all);
    }
    all
}
