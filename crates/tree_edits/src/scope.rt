ghost use Rattle.std.specs.Prelude.{◌≡◌, ◌+◌, ◌<◌, ◌≤◌, List, IfOk, IfSome, MatchOption, length, reverse, take, slice_index_or};
ghost use Rattle.tree_rows.specs.Rows.{siblings};
ghost use Rattle.tree_rows.specs.declared.row.Binding.{Binding};
ghost use Rattle.tree_rows.specs.declared.row.Row.{Row};
ghost use Rattle.tree_rows.specs.declared.limits.TheConstants.{MAX_DEPTH};
ghost use Rattle.tag_names.specs.Scopes.{first_scope};
ghost use Rattle.tree_building.specs.Shape.{AreSound};
ghost use Rattle.tree_edits.specs.Edits.{scope_in};
ghost use Rattle.tree_edits.specs.Places.{scope_above};
ghost use Rattle.tree_edits.specs.Walks.{IsLastAbove};

use crate::places::{Spot, place_of};
use std::alloc::{AllocError, Global};
use tag_names::Prefixes;
use tree_rows::Row;

/// The last row that is less deep than this, and the rows before it.
fn last_above(rows: &[Row], depth: u32) -> Option<(&Row, &[Row])>
    ensures shorter { IfSome result (λ found. length found.1.now < length rows.now) }
    ensures above { MatchOption result ((scope : List Binding) → scope_above depth scope (reverse rows.now) ≡ scope)
        (λ found. IsLastAbove depth rows.now found.1.now found.0.now) }
{
    let mut left = rows;
    'left: while let Some((row, earlier)) = left.split_last() {
        if row.depth < depth {
            return Some((row, earlier));
        }
        left = earlier;
    }
    None
}

/// The scope above a depth, where these rows come before.
fn scope_of(alloc: Global, rows: &[Row], depth: u32) -> Result<Prefixes, AllocError>
    ensures { IfOk result (λ scope. scope ≡ scope_above depth first_scope (reverse rows.now)) }
{
    match last_above(rows, depth) {
        None => Prefixes::new(alloc),
        Some((row, earlier)) => {
            let mut scope = scope_of(alloc, earlier, row.depth)?;
            scope.bind_all(row.bindings.as_slice())?;
            Ok(scope)
        }
    }
}

/// The scope of what is put at a spot.
pub fn scope_at(alloc: Global, rows: &[Row], spot: Spot) -> Result<Prefixes, AllocError>
    requires within { spot.parent < length rows.now }
    requires shallow { spot.depth ≤ MAX_DEPTH }
    ensures { IfOk result (λ scope. scope ≡ scope_above (spot.depth + 1) first_scope (reverse (take (spot.parent + 1) rows.now))) }
{
    scope_of(alloc, &rows[..spot.parent + 1], spot.depth + 1)
}

/// The scope of the names of the element whose row has this place, its own bindings among them.
pub fn scope_inside(alloc: Global, rows: &[Row], place: usize) -> Result<Prefixes, AllocError>
    requires within { place < length rows.now }
    requires shallow { (row : Row) → row ≡ slice_index_or rows.now place row → row.depth ≤ MAX_DEPTH }
    ensures { (row : Row) → row ≡ slice_index_or rows.now place row → IfOk result (λ scope. scope ≡ scope_above (row.depth + 1) first_scope (reverse (take (place + 1) rows.now))) }
{
    let below = rows[place].depth + 1;
    scope_of(alloc, &rows[..place + 1], below)
}

/// The scope in which the row of a place stands, if it has this depth.
fn scope_before(
    alloc: Global,
    rows: &[Row],
    place: usize,
    depth: u32,
) -> Result<Prefixes, AllocError>
    requires { place ≤ length rows.now }
    ensures { IfOk result (λ scope. scope ≡ scope_above depth first_scope (reverse (take place rows.now))) }
{
    scope_of(alloc, &rows[..place], depth)
}

/// The scope inside of a node: its bindings and those of the elements around it, the innermost first; the scope around the
/// root where there is no such node.
///
/// # Errors
///
/// `AllocError` is want of memory.
pub fn scope_of_node(alloc: Global, rows: &[Row], node: u32) -> Result<Prefixes, AllocError>
    requires { AreSound rows.now }
    ensures { IfOk result (λ scope. scope ≡ scope_in node first_scope (siblings rows.now 1)) }
{
    let place = place_of(rows, node);
    let Some(row) = rows.get(place) else {
        return Prefixes::new(alloc);
    };
    let mut scope = scope_before(alloc, rows, place, row.depth)?;
    scope.bind_all(row.bindings.as_slice())?;
    Ok(scope)
}
