//! What is known of a tree.

ghost use Rattle.std.specs.Prelude.{◌≡◌, IfOk, OnOk};
ghost use Rattle.plain_tree.specs.Found.{HasNames};
ghost use Rattle.session_model.specs.State.{with_names};
ghost use Rattle.compiled_schema.specs.Usable.{IsUsable, set_of};
ghost use Rattle.plain_session.specs.Stocks.{IsReady, IsStock};

use compiled_schema::{Compiled, usable_with_more_names};
use forest_keys::assess;
use plain_tree::{Tree, add_names, document_names_are_found};
use session_model::{count_codes, entries_are_named};
use std::alloc::{AllocError, Global};
use tree_assess::ElementEntry;
use xs_names::NsId;

/// What is known of a tree.
#[derive(Drop)]
pub(crate) struct Stock {
    /// The entries of its elements, in document order.
    pub entries: Vec<ElementEntry>,
    /// How many codes their records have.
    pub total: u64,
    /// At each number the place of its element among the entries. It is but where to look first.
    places: Vec<usize>,
}

impl Stock {
    /// Where to look for the entry of a number.
    pub fn place_of(&self, node: u32) -> usize {
        match self.places.get(node as usize) {
            Some(place) => *place,
            None => 0,
        }
    }
}

/// At each number below `free` the place of its element among the entries; nothing where there is no memory for it.
fn places_in(alloc: Global, entries: &[ElementEntry], free: u32) -> Vec<usize> {
    let Ok(mut places) = vec![in alloc; 0; free as usize] else {
        return Vec::new(alloc);
    };
    for (place, entry) in entries.iter().enumerate() {
        if let Some(slot) = places.get_mut(entry.number as usize) {
            *slot = place;
        }
    }
    places
}

// The entries of a tree whose names are in the table of the set. Codes that are past counting are want of memory.
fn assessed(alloc: Global, set: &mut Compiled, tree: &Tree) -> Result<Stock, AllocError>
    requires ready { IsReady set.old }
    requires names { HasNames set.old.names tree.now.forest }
    ensures stock { IfOk result (IsStock set.old tree.now) }
    ensures same { set.new ≡ set.old }
{
    // Who reads a tree is told that it is one.
    let free = tree.next_free();
    entries_are_named();
    let entries = assess(alloc, set, tree)?;
    match count_codes(&entries) {
        Some(total) => {
            let places = places_in(alloc, &entries, free);
            Ok(Stock {
                entries,
                total,
                places,
            })
        }
        None => {
            drop(entries);
            Err(AllocError)
        }
    }
}

/// Puts the names of a tree into the table of a set, and assesses it.
///
/// # Errors
///
/// `AllocError` is want of memory. Some names may then have been put there.
pub(crate) fn take_stock(
    alloc: Global,
    set: &mut Compiled,
    tree: &Tree,
) -> Result<Stock, AllocError>
    requires ready { IsReady set.old }
    ensures ready { OnOk result (IsReady set.new) }
    ensures named { OnOk result (set_of set.new ≡ with_names (set_of set.old) tree.now.forest) }
    ensures stock { IfOk result (IsStock set.new tree.now) }
{
    document_names_are_found();
    usable_with_more_names();
    add_names(&mut set.names, tree)?;
    assessed(alloc, set, tree)
}

/// Takes stock of a tree that is opened: no more is known of the set than that documents may be assessed by it.
///
/// # Errors
///
/// `AllocError` is want of memory. Some names may then have been put there.
pub(crate) fn first_stock(
    alloc: Global,
    set: &mut Compiled,
    tree: &Tree,
) -> Result<Stock, AllocError>
    requires usable { IsUsable set.old }
    ensures ready { OnOk result (IsReady set.new) }
    ensures named { OnOk result (set_of set.new ≡ with_names (set_of set.old) tree.now.forest) }
    ensures stock { IfOk result (IsStock set.new tree.now) }
{
    // Who reads a table of names is told that it is sound.
    let _sound = set.names.lookup(NsId::ABSENT, "");
    take_stock(alloc, set, tree)
}
