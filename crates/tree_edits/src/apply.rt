ghost use Rattle.std.specs.Prelude.{◌≡◌, ℕ, ◌+◌, ◌≤◌, ◌<◌, ◌^◌, ◌||◌, nat_lt, true, Ok, OnOk, OnErr, IfOk, IfErr, length, slice_index_or, slice_set};
ghost use Rattle.tree_rows.specs.declared.row.Row.{Row};
ghost use Rattle.tree_rows.specs.declared.row.Content.TheVariants as contents;
ghost use Rattle.tree_rows.specs.Rows.{siblings};
ghost use Rattle.tree_building.specs.Blocks.{one_element};
ghost use Rattle.tree_rows.specs.Forest.{none, text as text_node};
ghost use Rattle.tree_edits.specs.Edits.{after, put, put_within, insert_within, reword, found, can_be_made};
ghost use Rattle.tree_edits.specs.Tests.{edited};
ghost use Rattle.tree_building.specs.Shape.{AreSound, AreWhole, AreUnder, deepest_row};
ghost use Rattle.tree_edits.specs.Refusals.{IsWhy};
ghost use Rattle.tree_edits.specs.Spots.{tree_of, inserting, IsSpot, Puts, Inserts, IsText, Fits, HasRoom, HasNoRoom, Rewords, Removes, CannotRemove};

use crate::elements::{rename_element, set_attribute, unset_attribute};
use crate::names::judge_block;
use crate::places::{Spot, span_of, spot_of, text_place};
use crate::scope::scope_at;
use crate::shifts::{insert_rows, raise, remove_rows};
use crate::{Edit, EditError};
use item_listing::Item;
use std::alloc::{AllocError, Global};
use tag_names::Prefixes;
use tree_building::build_block;
use tree_rows::{Attributes, Bindings, Content, MAX_DEPTH, MAX_NODES, Row};
use xs_names::Text;

const MOST_NODES: usize = MAX_NODES as usize;

const MOST_LEVELS: usize = MAX_DEPTH as usize;

const MAX_NUMBER: usize = 4_294_967_295;

/// Refuses so many new nodes below an element of this depth, where they pass a limit; the deepest element stands this deep
/// among them.
fn fit(
    rows: &[Row],
    next_free: u32,
    more: usize,
    depth: u32,
    deepest: usize,
) -> Result<(), EditError>
    requires rows { AreWhole rows.now }
    requires shallow { depth ≤ MAX_DEPTH }
    ensures ok { OnOk result (HasRoom rows.now next_free more depth deepest) }
    ensures err { IfErr result (HasNoRoom rows.now next_free more depth deepest) }
{
    if are_too_many(rows.len(), next_free, more) {
        return Err(EditError::TooManyNodes);
    }
    if deepest > MOST_LEVELS - depth as usize {
        return Err(EditError::TooDeep);
    }
    Ok(())
}

/// Whether so many more nodes would be too many, or would use the last number.
fn are_too_many(live: usize, next_free: u32, more: usize) -> bool
    requires { live < 2 ^ 63 }
    ensures { result ≡ (nat_lt MAX_NODES (live + more) || nat_lt 4294967295 (next_free + more)) }
{
    more > MOST_NODES || live + more > MOST_NODES || next_free as usize + more > MAX_NUMBER
}

/// Puts new rows that fit at a spot, and answers the next free number.
fn put_fitting(
    rows: &mut Vec<Row>,
    next_free: u32,
    spot: Spot,
    mut new: Vec<Row>,
) -> Result<u32, AllocError>
    requires sound { AreSound rows.old.items }
    requires within { spot.place ≤ length rows.old.items }
    requires shallow { spot.depth ≤ MAX_DEPTH }
    requires whole { AreWhole new.items }
    requires under { AreUnder (deepest_row 0 new.items + 1) new.items }
    requires fits { Fits rows.old.items new.items next_free spot.depth }
    ensures ok { IfOk result (λ free. (parent index : ℕ) → IsSpot rows.old.items parent index spot → Puts rows.old.items rows.new.items next_free free parent index spot.depth new.items) }
    ensures kept { OnErr result (rows.new.items ≡ rows.old.items) }
{
    let free = next_free + new.len() as u32;
    raise(&mut new, next_free, spot.depth);
    insert_rows(rows, spot.place, new)?;
    Ok(free)
}

/// Puts the element of a block at a spot, where its names resolve in this scope, and answers the next free number.
fn put_block(
    alloc: Global,
    rows: &mut Vec<Row>,
    next_free: u32,
    spot: Spot,
    scope: &Prefixes,
    items: &[Item],
) -> Result<u32, EditError>
    requires sound { AreSound rows.old.items }
    requires within { spot.place ≤ length rows.old.items }
    requires shallow { spot.depth ≤ MAX_DEPTH }
    requires one { one_element items.now ≡ true }
    ensures ok { IfOk result (λ free. (parent index : ℕ) → IsSpot rows.old.items parent index spot → Inserts rows.old.items rows.new.items next_free free parent index spot.depth scope.now items.now) }
    ensures err { IfErr result (λ e. (parent index : ℕ) → IsWhy (insert_within (tree_of rows.old.items next_free) parent index scope.now items.now spot.depth) e) }
    ensures kept { OnErr result (rows.new.items ≡ rows.old.items) }
{
    let judged = judge_block(alloc, scope, items)?;
    judged.names.early()?;
    fit(rows, next_free, judged.nodes, spot.depth, judged.depth)?;
    judged.names.late()?;
    let new = build_block(alloc, scope, items)?;
    let next = put_fitting(rows, next_free, spot, new)?;
    Ok(next)
}

/// Puts the element of a block, and answers the next free number.
fn insert_block(
    alloc: Global,
    rows: &mut Vec<Row>,
    next_free: u32,
    parent: u32,
    index: u32,
    items: &[Item],
) -> Result<u32, EditError>
    requires sound { AreSound rows.old.items }
    requires one { one_element items.now ≡ true }
    ensures ok { IfOk result (λ free. put (siblings rows.old.items 1) parent index (inserting rows.old.items next_free parent index items.now) ≡ Ok (tree_of rows.new.items free)) }
    ensures sound { OnOk result (AreSound rows.new.items) }
    ensures err { IfErr result (IsWhy (put (siblings rows.old.items 1) parent index (inserting rows.old.items next_free parent index items.now))) }
    ensures kept { OnErr result (rows.new.items ≡ rows.old.items) }
{
    let spot = spot_of(rows, parent, index)?;
    let scope = scope_at(alloc, rows, spot)?;
    put_block(alloc, rows, next_free, spot, &scope, items)
}

/// The row of a text alone.
fn text_row(alloc: Global, text: &Text) -> Result<Vec<Row>, AllocError>
    ensures { IfOk result (λ rows. IsText text.now rows.items) }
{
    let mut rows = Vec::new(alloc);
    rows.push(Row {
        number: 0,
        depth: 1,
        content: Content::Chars(text.try_clone()?),
        bindings: Bindings::new(alloc),
        attributes: Attributes::new(alloc),
    })?;
    Ok(rows)
}

/// Puts a text, and answers the next free number.
fn add_text(
    alloc: Global,
    rows: &mut Vec<Row>,
    next_free: u32,
    parent: u32,
    index: u32,
    text: &Text,
) -> Result<u32, EditError>
    requires sound { AreSound rows.old.items }
    ensures ok { IfOk result (λ free. put (siblings rows.old.items 1) parent index (put_within (tree_of rows.old.items next_free) parent index (text_node 0 text.now none)) ≡ Ok (tree_of rows.new.items free)) }
    ensures sound { OnOk result (AreSound rows.new.items) }
    ensures err { IfErr result (IsWhy (put (siblings rows.old.items 1) parent index (put_within (tree_of rows.old.items next_free) parent index (text_node 0 text.now none)))) }
    ensures kept { OnErr result (rows.new.items ≡ rows.old.items) }
{
    let spot = spot_of(rows, parent, index)?;
    fit(rows, next_free, 1, spot.depth, 0)?;
    let new = text_row(alloc, text)?;
    let free = put_fitting(rows, next_free, spot, new)?;
    Ok(free)
}

/// Writes the characters of a text into its row.
fn write_text(rows: &mut Vec<Row>, place: usize, text: Text)
    requires { place < length rows.old.items }
    ensures { (row : Row) → row ≡ slice_index_or rows.old.items place row → rows.new.items ≡ slice_set rows.old.items place (record row { content = contents.Chars text }) }
{
    rows[place].content = Content::Chars(text);
}

/// Gives a text other characters.
fn set_text(alloc: Global, rows: &mut Vec<Row>, node: u32, text: &Text) -> Result<(), EditError>
    requires sound { AreSound rows.old.items }
    ensures ok { OnOk result (Rewords rows.old.items rows.new.items node text.now) }
    ensures err { IfErr result (λ e. (next : ℕ) → IsWhy (reword (tree_of rows.old.items next) node text.now (found node 1 (siblings rows.old.items 1))) e) }
    ensures kept { OnErr result (rows.new.items ≡ rows.old.items) }
{
    let place = text_place(rows, node)?;
    let text = text.try_clone()?;
    write_text(rows, place, text);
    Ok(())
}

/// Takes a node away with all that is below it.
fn remove_node(rows: &mut Vec<Row>, node: u32) -> Result<(), EditError>
    requires sound { AreSound rows.old.items }
    ensures ok { OnOk result (Removes rows.old.items rows.new.items node) }
    ensures err { IfErr result (CannotRemove rows.old.items node) }
    ensures kept { OnErr result (rows.new.items ≡ rows.old.items) }
{
    let span = span_of(rows, node)?;
    remove_rows(rows, span.place, span.count);
    Ok(())
}

/// Makes an edit on the rows of a tree step by step, and answers the next free number.
fn change_rows(
    alloc: Global,
    rows: &mut Vec<Row>,
    next_free: u32,
    edit: &Edit,
) -> Result<u32, EditError>
    requires sound { AreSound rows.old.items }
    requires block { can_be_made edit.now ≡ true }
    ensures ok { IfOk result (λ free. after (tree_of rows.old.items next_free) edit.now ≡ Ok (tree_of rows.new.items free)) }
    ensures sound { OnOk result (AreSound rows.new.items) }
    ensures err { IfErr result (IsWhy (after (tree_of rows.old.items next_free) edit.now)) }
    ensures kept { OnErr result (rows.new.items ≡ rows.old.items) }
{
    match edit {
        Edit::Insert {
            parent,
            index,
            items,
        } => insert_block(alloc, rows, next_free, *parent, *index, items.as_slice()),
        Edit::AddText {
            parent,
            index,
            text,
        } => add_text(alloc, rows, next_free, *parent, *index, text),
        Edit::SetText { node, text } => {
            set_text(alloc, rows, *node, text)?;
            Ok(next_free)
        }
        Edit::Remove { node } => {
            remove_node(rows, *node)?;
            Ok(next_free)
        }
        Edit::Rename { node, name } => {
            rename_element(alloc, rows, *node, name)?;
            Ok(next_free)
        }
        Edit::SetAttr { node, name, value } => {
            set_attribute(alloc, rows, *node, name, value)?;
            Ok(next_free)
        }
        Edit::UnsetAttr { node, name } => {
            unset_attribute(alloc, rows, *node, name)?;
            Ok(next_free)
        }
    }
}

/// Makes an edit on the rows of a tree, and answers the next free number.
///
/// # Errors
///
/// The refusal of the first of the edit's tests that stands, or `EditError::Memory`, which is want of memory. The rows are
/// then as before.
pub fn edit_rows(
    alloc: Global,
    rows: &mut Vec<Row>,
    next_free: u32,
    edit: &Edit,
) -> Result<u32, EditError>
    requires sound { AreSound rows.old.items }
    requires block { can_be_made edit.now ≡ true }
    ensures ok { IfOk result (λ free. edited (tree_of rows.old.items next_free) edit.now ≡ Ok (tree_of rows.new.items free)) }
    ensures sound { OnOk result (AreSound rows.new.items) }
    ensures err { IfErr result (IsWhy (edited (tree_of rows.old.items next_free) edit.now)) }
    ensures kept { OnErr result (rows.new.items ≡ rows.old.items) }
{
    change_rows(alloc, rows, next_free, edit)
}
