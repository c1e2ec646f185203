//! Tables of order-keeping maps.

ghost use Rattle.std.specs.Prelude.{◌≡◌, ℕ, ◌+◌, ◌<◌, ◌≤◌, ◌↔◌, ◌&&◌, ◌⊎◌, false, length, slice_index_or, IsTrue, IfOk};
ghost use Rattle.particle_restrict.specs.Maps.{HasMap, HasLaxMap};

use crate::pairs::Pairs;
use std::alloc::{AllocError, Global};

/// Whether some strictly order-keeping map takes each member to one that it restricts, and all members of the base that it does
/// not reach may be left out (Structures 3.9.6, Recurse). `optional` says which of the base's members may be left out.
///
/// # Errors
/// When memory runs out.
pub fn has_map<P: Pairs>(
    alloc: Global,
    pairs: &P,
    members: usize,
    optional: &[bool],
) -> Result<bool, AllocError>
    requires valid { P.is_valid pairs.now }
    requires members { members ≡ P.count pairs.now }
    requires base { length optional.now ≡ P.base_count pairs.now }
    ensures map { IfOk result (λ fits. IsTrue fits ↔ HasMap (P.restricts pairs.now) members optional.now) }
{
    // For each i, whether the members from i on fit those of the base behind the present one: none before `low`, and none
    // from `end` on.
    let mut row = vec![in alloc; false; members]?;
    row.push(true)?;
    let mut low = members;
    let mut end = members + 1;
    for behind in 0..optional.len() {
        let j = optional.len() - 1 - behind;
        low = low.saturating_sub(1);
        turn(&mut row, pairs, members, low, end, j, optional[j]);
        if !optional[j] {
            end = end.saturating_sub(1);
        }
    }
    Ok(row[0])
}

/// Whether some strictly order-keeping map takes each member to one that it restricts (Structures 3.9.6, RecurseLax).
///
/// # Errors
/// When memory runs out.
pub fn has_lax_map<P: Pairs>(
    alloc: Global,
    pairs: &P,
    members: usize,
    base: usize,
) -> Result<bool, AllocError>
    requires valid { P.is_valid pairs.now }
    requires members { members ≡ P.count pairs.now }
    requires base { base ≡ P.base_count pairs.now }
    ensures map { IfOk result (λ fits. IsTrue fits ↔ HasLaxMap (P.restricts pairs.now) members base) }
{
    let optional = vec![in alloc; true; base]?;
    has_map(alloc, pairs, members, &optional)
}

/// Brings the table from the members behind one of the base to those from it on. Outside of some members it stays as it is.
fn turn<P: Pairs>(
    row: &mut Vec<bool>,
    pairs: &P,
    members: usize,
    low: usize,
    end: usize,
    j: usize,
    optional: bool,
)
    requires valid { P.is_valid pairs.now }
    requires members { members ≡ P.count pairs.now }
    requires base { j < P.base_count pairs.now }
    requires row { length row.old.items ≡ members + 1 }
    requires end { end ≤ members + 1 }
    requires outside { (i : ℕ) → (i < low ⊎ end ≤ i) → slice_index_or row.old.items i false ≡ false }
    requires next { (i : ℕ) → i < low → slice_index_or row.old.items (i + 1) false ≡ false }
    ensures len { length row.new.items ≡ length row.old.items }
    ensures values { (i : ℕ) → i < length row.old.items → IsTrue (slice_index_or row.new.items i false) ↔
        (IsTrue (optional && slice_index_or row.old.items i false) ⊎ (IsTrue (slice_index_or row.old.items (i + 1) false) × P.restricts pairs.now i j)) }
{
    for i in low..end {
        let fits = fits_from(row, pairs, members, i, j, optional);
        row[i] = fits;
    }
}

/// Whether the members from i on fit those of the base from j on, by the table of those behind j.
fn fits_from<P: Pairs>(
    row: &[bool],
    pairs: &P,
    members: usize,
    i: usize,
    j: usize,
    optional: bool,
) -> bool
    requires valid { P.is_valid pairs.now }
    requires members { members ≡ P.count pairs.now }
    requires base { j < P.base_count pairs.now }
    requires row { length row.now ≡ members + 1 }
    requires member { i ≤ members }
    ensures { IsTrue result ↔ (IsTrue (optional && slice_index_or row.now i false) ⊎ (IsTrue (slice_index_or row.now (i + 1) false) × P.restricts pairs.now i j)) }
{
    if optional && row[i] {
        return true;
    }
    if i == members || !row[i + 1] {
        return false;
    }
    pairs.pair(i, j)
}
