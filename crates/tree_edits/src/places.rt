ghost use Rattle.std.specs.Prelude.{◌≡◌, List, ◌++◌, ◌+◌, ◌<◌, ◌≤◌, IfOk, IfErr, length, take, drop};
ghost use Rattle.std.specs.List.{position_or_len};
ghost use Rattle.tree_rows.specs.declared.row.Row.{Row};
ghost use Rattle.tree_building.specs.Shape.{AreSound};
ghost use Rattle.tree_edits.specs.EditRows.{is_numbered, rows_width, put_rows, ends_at};
ghost use Rattle.tree_edits.specs.Spots.{CannotPut, IsSpot, CannotReword, IsTextPlace, CannotChange, IsElementPlace, CannotRemove, IsSpan};

use crate::EditError;
use tree_rows::{Content, Row};

/// Where new siblings stand among the rows of a tree, and where and how deep their parent stands.
#[derive(Clone, Copy)]
pub struct Spot {
    pub parent: usize,
    pub place: usize,
    pub depth: u32,
}

/// The rows of a node and of all that is below it.
#[derive(Clone, Copy)]
pub struct Span {
    pub place: usize,
    pub count: usize,
}

/// The place of the first row of the number; the number of rows where there is none.
pub fn place_of(rows: &[Row], number: u32) -> usize
    ensures { result ≡ position_or_len (is_numbered number) rows.now }
{
    for (place, row) in rows.iter().enumerate() {
        if row.number == number {
            return place;
        }
    }
    rows.len()
}

/// The rows behind a place.
fn rows_behind(rows: &[Row], place: usize) -> &[Row]
    requires { place < length rows.now }
    ensures { result.now ≡ drop (place + 1) rows.now }
{
    &rows[place + 1..]
}

/// How many rows are below a node of this depth, where these rows come behind it.
pub fn below_count(rows: &[Row], depth: u32) -> usize
    ensures count { result ≡ position_or_len (ends_at depth) rows.now }
    ensures within { result ≤ length rows.now }
{
    for (count, row) in rows.iter().enumerate() {
        if row.depth <= depth {
            return count;
        }
    }
    rows.len()
}

/// How many children an element has, where these rows come behind it and its children have this depth.
fn child_count(rows: &[Row], depth: u32) -> usize
    ensures { result ≡ rows_width depth rows.now }
{
    let mut count = 0;
    for row in rows {
        if row.depth < depth {
            return count;
        }
        if row.depth == depth {
            count += 1;
        }
    }
    count
}

/// The place among these rows of the child of this index, where its siblings have this depth.
fn child_place(rows: &[Row], depth: u32, index: u32) -> usize
    ensures within { result ≤ length rows.now }
    ensures put { (new : List Row) → put_rows index depth new rows.now ≡ take result rows.now ++ (new ++ drop result rows.now) }
{
    let mut left = index;
    for (place, row) in rows.iter().enumerate() {
        if row.depth < depth {
            return place;
        }
        if row.depth == depth {
            if left == 0 {
                return place;
            }
            left -= 1;
        }
    }
    rows.len()
}

/// Where new siblings go that are put before the child of this index.
pub fn spot_of(rows: &[Row], parent: u32, index: u32) -> Result<Spot, EditError>
    requires { AreSound rows.now }
    ensures ok { IfOk result (IsSpot rows.now parent index) }
    ensures err { IfErr result (CannotPut rows.now parent index) }
{
    let place = place_of(rows, parent);
    let Some(row) = rows.get(place) else {
        return Err(EditError::UnknownNode);
    };
    let depth = match &row.content {
        Content::Chars(_) => return Err(EditError::NotElement),
        Content::Element(_) => row.depth,
    };
    let behind = rows_behind(rows, place);
    let below = depth + 1;
    if child_count(behind, below) < index as usize {
        return Err(EditError::BadIndex);
    }
    Ok(Spot {
        parent: place,
        place: place + 1 + child_place(behind, below, index),
        depth,
    })
}

/// The place of a text.
pub fn text_place(rows: &[Row], node: u32) -> Result<usize, EditError>
    requires { AreSound rows.now }
    ensures ok { IfOk result (IsTextPlace rows.now node) }
    ensures err { IfErr result (CannotReword rows.now node) }
{
    let place = place_of(rows, node);
    let Some(row) = rows.get(place) else {
        return Err(EditError::UnknownNode);
    };
    match &row.content {
        Content::Element(_) => Err(EditError::NotText),
        Content::Chars(_) => Ok(place),
    }
}

/// The place of an element.
pub fn element_place(rows: &[Row], node: u32) -> Result<usize, EditError>
    requires { AreSound rows.now }
    ensures ok { IfOk result (IsElementPlace rows.now node) }
    ensures err { IfErr result (CannotChange rows.now node) }
{
    let place = place_of(rows, node);
    let Some(row) = rows.get(place) else {
        return Err(EditError::UnknownNode);
    };
    match &row.content {
        Content::Chars(_) => Err(EditError::NotElement),
        Content::Element(_) => Ok(place),
    }
}

/// The rows of a node that is not the root.
pub fn span_of(rows: &[Row], node: u32) -> Result<Span, EditError>
    requires { AreSound rows.now }
    ensures ok { IfOk result (IsSpan rows.now node) }
    ensures err { IfErr result (CannotRemove rows.now node) }
{
    let place = place_of(rows, node);
    let Some(row) = rows.get(place) else {
        return Err(EditError::UnknownNode);
    };
    if place == 0 {
        return Err(EditError::RootFixed);
    }
    let below = below_count(rows_behind(rows, place), row.depth);
    Ok(Span {
        place,
        count: 1 + below,
    })
}
