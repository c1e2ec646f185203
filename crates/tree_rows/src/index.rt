ghost use Rattle.std.specs.Prelude.{◌≡◌, ◌+◌, ◌≤◌, IfOk, length, drop};
ghost use Rattle.tree_rows.specs.Rows.{rows_of, siblings};
ghost use Rattle.tree_rows.specs.Sizes.{deeper_count, sizes};

use crate::{Row, Siblings};
use std::alloc::{AllocError, Global};
use std::marker::Model;

/// The rows of a tree, and of each how many are below it. Contracts see the tree's forest.
#[derive(Drop)]
pub struct TreeIndex<'a> {
    rows: &'a [Row],
    below: Vec<usize>,
}

impl<'a> Model for TreeIndex<'a> {
    ghost use Rattle.tree_rows.specs.Forest.{Forest};
    ghost use Rattle.tree_rows.specs.SiblingCode.{forest_code};

    ghost Value = { Forest };

    ghost coded = { forest_code };

    ghost use Rattle.tree_rows.specs.Rows.{siblings};
    ghost use Rattle.tree_rows.specs.Held.{IsWhole};

    ghost view = { λ i. siblings i.rows.now 1 };

    ghost invariant = { IsWhole };
}

/// How many rows from this place on come next that are deeper, where it is known how many each of them has below it. It
/// takes a step for each child.
fn count_below(rows: &[Row], below: &[usize], from: usize, depth: u32) -> usize
    requires long { length below.now ≡ length rows.now }
    requires within { from ≤ length rows.now }
    requires known { drop from below.now ≡ sizes (drop from rows.now) }
    ensures { result ≡ deeper_count depth (drop from rows.now) }
{
    let mut place = from;
    while place < rows.len() {
        if rows[place].depth <= depth {
            return place - from;
        }
        place += below[place] + 1;
    }
    place - from
}

/// Of each row, how many come next that are deeper.
fn counts_below(alloc: Global, rows: &[Row]) -> Result<Vec<usize>, AllocError>
    ensures { IfOk result (λ below. below.items ≡ sizes rows.now) }
{
    let mut below = vec![in alloc; 0; rows.len()]?;
    let mut place = rows.len();
    while 0 < place {
        place -= 1;
        let count = count_below(rows, &below, place + 1, rows[place].depth);
        below[place] = count;
    }
    Ok(below)
}

impl<'a> TreeIndex<'a> {
    /// The index of a tree's rows. It is made in linear time.
    pub fn new(alloc: Global, rows: &'a [Row]) -> Result<Self, AllocError>
        requires { rows.now ≡ rows_of 1 (siblings rows.now 1) }
        ensures { IfOk result (λ index. index ≡ siblings rows.now 1) }
    {
        let below = counts_below(alloc, rows)?;
        Ok(TreeIndex { rows, below })
    }

    /// The root, with all that is below it.
    pub fn top(&self) -> Siblings<'_>
        ensures { result ≡ self.now }
    {
        Siblings {
            rows: self.rows,
            below: self.below.as_slice(),
        }
    }
}
