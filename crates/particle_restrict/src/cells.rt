//! Tables of pairs of particles, each filled once from the pairs of their members.

ghost use Rattle.std.specs.Prelude.{◌≡◌, ◌↔◌, ◌<◌, ◌+◌, ◌*◌, ◌^◌, ◌&&◌, List, [], map, length, All, IsTrue, IfOk, OnOk, slice_index, slice_index_or};
ghost use Rattle.particle_models.specs.Trees.{Tree, leaf, group};
ghost use Rattle.particle_models.specs.Parts.{trees_from, tree_in, members_at};
ghost use Rattle.particle_restrict.specs.Totals as totals;
ghost use Rattle.particle_restrict.specs.Totals.{emptiable_members};
ghost use Rattle.particle_restrict.specs.Occurrence.{any_number};
ghost use Rattle.particle_restrict.specs.Restricts.{Restricts};
ghost use Rattle.particle_restrict.specs.Tables.{HasType, IsCell, AreCells, HaveCells, IsSides, no_cell};

use crate::Pairs;
use crate::groups::group_restricts;
use crate::leaves::{is_element, is_wildcard, range_ok, terms_restrict, total_ok};
use crate::terms::{Derivation, Term};
use crate::totals::{Total, total_at};
use particle_models::{Bounds, Compositor, Part};
use std::alloc::{AllocError, Global};

/// Whether a particle restricts another, and whether it restricts that other where it is an element or a wildcard that may come
/// any number of times.
#[derive(Clone, Copy)]
pub(crate) struct Cell {
    pub(crate) restricts: bool,
    pub(crate) within: bool,
}

/// The particles that are compared, and the effective total ranges of both sides.
#[derive(Drop)]
pub(crate) struct Sides<'a, T> {
    pub(crate) types: &'a T,
    pub(crate) terms: &'a [Term],
    pub(crate) derived: &'a [Part],
    pub(crate) base: &'a [Part],
    pub(crate) totals: &'a [Total],
    pub(crate) base_totals: &'a [Total],
}

/// The members of two groups, and a table with the cells of their pairs.
#[derive(Drop)]
struct MemberPairs<'a, T> {
    sides: &'a Sides<'a, T>,
    cells: &'a [Cell],
    members: &'a [u32],
    base_members: &'a [u32],
}

impl<T: Derivation> Pairs for MemberPairs<'_, T> {
    ghost is_valid = { λ p. HaveCells p.sides.now.terms.now (T.derives p.sides.now.types.now) p.sides.now.derived.now p.sides.now.base.now p.cells.now p.members.now p.base_members.now };

    ghost count = { λ p. length p.members.now };

    ghost base_count = { λ p. length p.base_members.now };

    ghost restricts = { λ p i j. Restricts p.sides.now.terms.now (T.derives p.sides.now.types.now)
        (tree_in p.sides.now.derived.now (slice_index p.members.now i)) (tree_in p.sides.now.base.now (slice_index p.base_members.now j)) };

    fn pair(&self, member: usize, base: usize) -> bool {
        let cell = cell_at(
            self.cells,
            self.sides.base.len(),
            self.members[member],
            self.base_members[base],
        );
        cell.restricts
    }
}

/// The cell of a pair.
pub(crate) fn cell_at(cells: &[Cell], width: usize, i: u32, j: u32) -> Cell
    requires { i * width + j < length cells.now }
    ensures { result ≡ slice_index_or cells.now (i * width + j) no_cell }
{
    cells[i as usize * width + j as usize]
}

/// The cells of all pairs, row by row, members before their groups.
pub(crate) fn cells_of<T: Derivation>(
    alloc: Global,
    sides: &Sides<'_, T>,
) -> Result<Vec<Cell>, AllocError>
    requires sides { IsSides (T.is_type sides.now.types.now) sides.now.terms.now sides.now.derived.now sides.now.base.now sides.now.totals.now sides.now.base_totals.now }
    requires valid { T.is_valid sides.now.types.now }
    requires few { length sides.now.derived.now < 2 ^ 32 }
    ensures count { IfOk result (λ cells. length cells.items ≡ length sides.now.derived.now * length sides.now.base.now) }
    ensures cells { IfOk result (λ cells. AreCells sides.now.terms.now (T.derives sides.now.types.now) sides.now.derived.now sides.now.base.now cells.items) }
{
    let mut cells = Vec::new(alloc);
    for d in 0..sides.derived.len() as u32 {
        add_row(alloc, sides, &mut cells, d)?;
    }
    Ok(cells)
}

/// Adds the cells of a particle over all particles of the base.
fn add_row<T: Derivation>(
    alloc: Global,
    sides: &Sides<'_, T>,
    cells: &mut Vec<Cell>,
    d: u32,
) -> Result<(), AllocError>
    requires sides { IsSides (T.is_type sides.now.types.now) sides.now.terms.now sides.now.derived.now sides.now.base.now sides.now.totals.now sides.now.base_totals.now }
    requires valid { T.is_valid sides.now.types.now }
    requires there { d < length sides.now.derived.now }
    requires count { length cells.old.items ≡ d * length sides.now.base.now }
    requires cells { AreCells sides.now.terms.now (T.derives sides.now.types.now) sides.now.derived.now sides.now.base.now cells.old.items }
    ensures count { OnOk result (length cells.new.items ≡ (d + 1) * length sides.now.base.now) }
    ensures cells { OnOk result (AreCells sides.now.terms.now (T.derives sides.now.types.now) sides.now.derived.now sides.now.base.now cells.new.items) }
{
    for b in 0..sides.base.len() {
        let cell = cell_of(alloc, sides, cells, d, b)?;
        cells.push(cell)?;
    }
    Ok(())
}

/// The cell of a pair, by those of the pairs before it.
fn cell_of<T: Derivation>(
    alloc: Global,
    sides: &Sides<'_, T>,
    cells: &[Cell],
    d: u32,
    b: usize,
) -> Result<Cell, AllocError>
    requires sides { IsSides (T.is_type sides.now.types.now) sides.now.terms.now sides.now.derived.now sides.now.base.now sides.now.totals.now sides.now.base_totals.now }
    requires valid { T.is_valid sides.now.types.now }
    requires there { d < length sides.now.derived.now }
    requires base { b < length sides.now.base.now }
    requires count { length cells.now ≡ d * length sides.now.base.now + b }
    requires cells { AreCells sides.now.terms.now (T.derives sides.now.types.now) sides.now.derived.now sides.now.base.now cells.now }
    ensures { IfOk result (IsCell sides.now.terms.now (T.derives sides.now.types.now) (tree_in sides.now.derived.now d) (tree_in sides.now.base.now b)) }
{
    match &sides.base[b] {
        Part::Leaf(bounds, u) => Ok(over_leaf(sides, cells, d, b, *bounds, *u)),
        Part::Group(bounds, compositor, members) => {
            let restricts = over_group(
                alloc,
                sides,
                cells,
                d,
                *bounds,
                *compositor,
                members.as_slice(),
            )?;
            Ok(Cell {
                restricts,
                within: restricts,
            })
        }
    }
}

/// The cell of a particle over an element or a wildcard.
fn over_leaf<T: Derivation>(
    sides: &Sides<'_, T>,
    cells: &[Cell],
    d: u32,
    b: usize,
    base: Bounds,
    u: u32,
) -> Cell
    requires sides { IsSides (T.is_type sides.now.types.now) sides.now.terms.now sides.now.derived.now sides.now.base.now sides.now.totals.now sides.now.base_totals.now }
    requires valid { T.is_valid sides.now.types.now }
    requires there { d < length sides.now.derived.now }
    requires base { b < length sides.now.base.now }
    requires leaf { tree_in sides.now.base.now b ≡ leaf base u }
    requires count { length cells.now ≡ d * length sides.now.base.now + b }
    requires cells { AreCells sides.now.terms.now (T.derives sides.now.types.now) sides.now.derived.now sides.now.base.now cells.now }
    ensures { IsCell sides.now.terms.now (T.derives sides.now.types.now) (tree_in sides.now.derived.now d) (leaf base u) result }
{
    match &sides.derived[d as usize] {
        Part::Leaf(bounds, t) => {
            let any = any_number();
            let within = terms_restrict(sides.types, sides.terms, *bounds, *t, any, u);
            let ok = range_ok(*bounds, base);
            let restricts = both(within, ok);
            Cell { restricts, within }
        }
        Part::Group(_, _, members) => {
            let wild = is_wildcard(sides.terms, u);
            let each = all_within(cells, members.as_slice(), sides.base.len(), b);
            let within = both(wild, each);
            let total = total_at(sides.totals, d);
            let ok = total_ok(total, base);
            let restricts = both(within, ok);
            Cell { restricts, within }
        }
    }
}

/// Whether each member restricts the wildcard that may come any number of times.
fn all_within(cells: &[Cell], members: &[u32], width: usize, b: usize) -> bool
    requires { All (λ m. m * width + b < length cells.now) members.now }
    ensures { IsTrue result ↔ All (λ m. IsTrue (slice_index_or cells.now (m * width + b) no_cell).within) members.now }
{
    members
        .iter()
        .all(|m| cells[*m as usize * width + b].within)
}

/// Both.
fn both(one: bool, other: bool) -> bool
    ensures { result ≡ (one && other) }
{
    one && other
}

/// Any number of times.
fn any_number() -> Bounds
    ensures { result ≡ any_number }
{
    Bounds {
        least: 0,
        most: None,
    }
}

/// Whether a particle restricts a group.
fn over_group<T: Derivation>(
    alloc: Global,
    sides: &Sides<'_, T>,
    cells: &[Cell],
    d: u32,
    base: Bounds,
    base_compositor: Compositor,
    base_members: &[u32],
) -> Result<bool, AllocError>
    requires sides { IsSides (T.is_type sides.now.types.now) sides.now.terms.now sides.now.derived.now sides.now.base.now sides.now.totals.now sides.now.base_totals.now }
    requires valid { T.is_valid sides.now.types.now }
    requires there { d < length sides.now.derived.now }
    requires members { All (λ j. d * length sides.now.base.now + j < length cells.now) base_members.now }
    requires base { All (λ j. j < length sides.now.base.now) base_members.now }
    requires cells { AreCells sides.now.terms.now (T.derives sides.now.types.now) sides.now.derived.now sides.now.base.now cells.now }
    ensures { IfOk result (λ fits. IsTrue fits ↔ Restricts sides.now.terms.now (T.derives sides.now.types.now) (tree_in sides.now.derived.now d) (group base base_compositor (members_at (trees_from [] sides.now.base.now) base_members.now))) }
{
    let emptiable = emptiable_of(alloc, sides.base_totals, base_members)?;
    match &sides.derived[d as usize] {
        Part::Leaf(_, t) => {
            if !is_element(sides.terms, *t) {
                return Ok(false);
            }
            let alone = [d];
            let pairs = MemberPairs {
                sides,
                cells,
                members: &alone,
                base_members,
            };
            let fits = group_restricts(
                alloc,
                &pairs,
                Bounds::once(),
                base_compositor,
                1,
                base,
                base_compositor,
                &emptiable,
            )?;
            Ok(fits)
        }
        Part::Group(bounds, compositor, members) => {
            let pairs = MemberPairs {
                sides,
                cells,
                members: members.as_slice(),
                base_members,
            };
            let fits = group_restricts(
                alloc,
                &pairs,
                *bounds,
                *compositor,
                members.len(),
                base,
                base_compositor,
                &emptiable,
            )?;
            Ok(fits)
        }
    }
}

/// Which of a group's members are emptiable.
fn emptiable_of(
    alloc: Global,
    base_totals: &[Total],
    members: &[u32],
) -> Result<Vec<bool>, AllocError>
    requires { All (λ m. m < length base_totals.now) members.now }
    ensures { (trees : List Tree) → base_totals.now ≡ map totals.total trees → IfOk result (λ flags. flags.items ≡ emptiable_members (members_at trees members.now)) }
{
    let mut flags = Vec::new(alloc);
    for member in members {
        let total = total_at(base_totals, *member);
        flags.push(total.may_be_nothing())?;
    }
    Ok(flags)
}
