//! The effective total ranges of the parts of a form.

ghost use Rattle.std.specs.Prelude.{◌≡◌, ◌<◌, ◌==◌, [], map, length, All, IfOk};
ghost use Rattle.particle_forms.specs.Ranges as ranges;
ghost use Rattle.particle_forms.specs.Steps.{known};
ghost use Rattle.particle_models.specs.Parts.{trees_from, MembersBelow, IsForm};
ghost use Rattle.particle_restrict.specs.Totals as totals;
ghost use Rattle.particle_restrict.specs.Tables.{AreOrdered, part_total};

use particle_models::{Bounds, Compositor, Part};
use std::alloc::{AllocError, Global};
use std::marker::Model;

/// How many elements there are at least and at most: `None` where there is no bound. Numbers stop at the greatest of their type.
#[derive(Clone, Copy)]
pub(crate) struct Total {
    pub(crate) least: u64,
    pub(crate) most: Option<u64>,
}

impl Model for Total {
    ghost use Rattle.particle_forms.specs.declared.extent.TotalRange.{TotalRange};

    ghost Value = { TotalRange };

    ghost view = { λ r. record { least = r.least; most = r.most } };

    ghost inverse = { λ r. record { least = r.least; most = r.most } };
}

impl Total {
    /// No elements.
    fn nothing() -> Self
        ensures { result ≡ ranges.nothing }
    {
        Total {
            least: 0,
            most: Some(0),
        }
    }

    /// One element.
    fn once() -> Self
        ensures { result ≡ ranges.once }
    {
        Total {
            least: 1,
            most: Some(1),
        }
    }

    /// Whether there may be none.
    pub(crate) fn may_be_nothing(self) -> bool
        ensures { result ≡ (self.least == 0) }
    {
        self.least == 0
    }

    /// The elements of the one and of the other.
    fn and(self, other: Self) -> Self
        ensures { result ≡ ranges.both self other }
    {
        Total {
            least: self.least.saturating_add(other.least),
            most: most_and(self.most, other.most),
        }
    }

    /// The elements of the one or of the other.
    fn or(self, other: Self) -> Self
        ensures { result ≡ ranges.either self other }
    {
        Total {
            least: self.least.min(other.least),
            most: most_or(self.most, other.most),
        }
    }

    /// The elements of so many of it.
    fn times(self, bounds: Bounds) -> Self
        ensures { result ≡ totals.taken bounds self }
    {
        Total {
            least: u64::from(bounds.least).saturating_mul(self.least),
            most: most_of(bounds.most, self.most),
        }
    }
}

fn most_and(one: Option<u64>, other: Option<u64>) -> Option<u64>
    ensures { result ≡ ranges.most_both one other }
{
    match (one, other) {
        (Some(n), Some(m)) => Some(n.saturating_add(m)),
        _ => None,
    }
}

fn most_or(one: Option<u64>, other: Option<u64>) -> Option<u64>
    ensures { result ≡ ranges.most_either one other }
{
    match (one, other) {
        (Some(n), Some(m)) => Some(n.max(m)),
        _ => None,
    }
}

// Unbounded dominates, unless multiplied by 0.
fn most_of(times: Option<u32>, most: Option<u64>) -> Option<u64>
    ensures { result ≡ ranges.most_times times most }
{
    match (times, most) {
        (Some(n), Some(m)) => Some(u64::from(n).saturating_mul(m)),
        (Some(0), None) | (None, Some(0)) => Some(0),
        _ => None,
    }
}

/// The effective total ranges of parts, each found once from those of its members.
pub(crate) fn totals_of(alloc: Global, parts: &[Part]) -> Result<Vec<Total>, AllocError>
    requires { AreOrdered parts.now }
    ensures { IfOk result (λ table. table.items ≡ map totals.total (trees_from [] parts.now)) }
{
    let mut table = Vec::new(alloc);
    for part in parts {
        let total = total_of(part, &table);
        table.push(total)?;
    }
    Ok(table)
}

// The range of a part, by those of its members.
fn total_of(part: &Part, table: &[Total]) -> Total
    requires { MembersBelow (length table.now) part.now }
    ensures { result ≡ part_total table.now part.now }
{
    match part {
        Part::Leaf(bounds, _) => Total::once().times(*bounds),
        Part::Group(bounds, compositor, members) => {
            range_of(*compositor, members.as_slice(), table).times(*bounds)
        }
    }
}

// The range of a group's members.
fn range_of(compositor: Compositor, members: &[u32], table: &[Total]) -> Total
    requires { All (λ id. id < length table.now) members.now }
    ensures { result ≡ totals.range_of compositor (map (known table.now) members.now) }
{
    match compositor {
        Compositor::Sequence | Compositor::All => sum(members, table),
        Compositor::Choice => widest(members, table),
    }
}

// The sums of the members' ranges.
fn sum(members: &[u32], table: &[Total]) -> Total
    requires { All (λ id. id < length table.now) members.now }
    ensures { result ≡ ranges.sum_of (map (known table.now) members.now) }
{
    let mut all = Total::nothing();
    let mut left = members.len();
    while left > 0 {
        left -= 1;
        let member = table[members[left] as usize];
        all = member.and(all);
    }
    all
}

// From the least to the greatest of the members' ranges.
fn widest(members: &[u32], table: &[Total]) -> Total
    requires { All (λ id. id < length table.now) members.now }
    ensures { result ≡ ranges.widest_of (map (known table.now) members.now) }
{
    if members.is_empty() {
        return Total::nothing();
    }
    let mut left = members.len() - 1;
    let mut all = table[members[left] as usize];
    while left > 0 {
        left -= 1;
        let member = table[members[left] as usize];
        all = member.or(all);
    }
    all
}

/// The range of a part.
pub(crate) fn total_at(totals: &[Total], part: u32) -> Total
    requires { part < length totals.now }
    ensures { result ≡ known totals.now part }
{
    totals[part as usize]
}
