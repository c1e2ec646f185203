ghost use Rattle.std.specs.Prelude.{◌≡◌, ◌++◌, ◌+◌, ◌^◌, ◌<◌, ◌≤◌, OnOk, OnErr, length, take, drop};
ghost use Rattle.tree_rows.specs.declared.limits.TheConstants.{MAX_DEPTH};
ghost use Rattle.tree_building.specs.Shape.{AreUnder};
ghost use Rattle.tree_edits.specs.EditRows.{raised};

use std::alloc::AllocError;
use tree_rows::Row;

/// The same on a slice.
fn raise_slice(rows: &mut [Row], free: u32, levels: u32)
    requires numbers { free + length rows.old < 2 ^ 32 }
    requires depths { AreUnder 129 rows.old }
    requires levels { levels ≤ MAX_DEPTH }
    ensures { rows.new ≡ raised free levels rows.old }
{
    let mut at = 0;
    'rows: while at < rows.len() {
        let row = &mut rows[at];
        row.number = free + at as u32;
        row.depth += levels;
        at += 1;
    }
}

/// Gives the rows numbers from `free` on, and lets them stand so many levels deeper.
pub fn raise(rows: &mut Vec<Row>, free: u32, levels: u32)
    requires numbers { free + length rows.old.items < 2 ^ 32 }
    requires depths { AreUnder 129 rows.old.items }
    requires levels { levels ≤ MAX_DEPTH }
    ensures { rows.new.items ≡ raised free levels rows.old.items }
{
    raise_slice(rows, free, levels);
}

/// Puts new rows before a place. Where memory is wanting, they are dropped and the others stay.
pub fn insert_rows(rows: &mut Vec<Row>, place: usize, mut new: Vec<Row>) -> Result<(), AllocError>
    requires { place ≤ length rows.old.items }
    ensures ok { OnOk result (rows.new.items ≡ take place rows.old.items ++ (new.items ++ drop place rows.old.items)) }
    ensures err { OnErr result (rows.new.items ≡ rows.old.items) }
{
    let behind = rows.len() - place;
    rows.append(&mut new)?;
    rows[place..].rotate_left(behind);
    Ok(())
}

/// Takes so many rows from a place on away.
pub fn remove_rows(rows: &mut Vec<Row>, place: usize, count: usize)
    requires { place + count ≤ length rows.old.items }
    ensures { rows.new.items ≡ take place rows.old.items ++ drop (place + count) rows.old.items }
{
    let left = rows.len() - count;
    rows[place..].rotate_left(count);
    rows.truncate(left);
}
