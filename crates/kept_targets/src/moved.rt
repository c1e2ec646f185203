//! The elements that are new, have another name, or are governed otherwise than before.

ghost use Rattle.std.specs.Prelude.{◌≡◌, ℕ, Option, Some, None, true, slice_get, MatchOption, OnOk};
ghost use Rattle.xs_names.specs.Names.{NameTable};
ghost use Rattle.tree_rows.specs.Forest.{Document};
ghost use Rattle.doc_nodes.specs.Nodes.{Has, element_children, is_element_at};
ghost use Rattle.doc_changes.specs.Stands.{StandsFor};
ghost use Rattle.child_lists.specs.from_kept_forgetting.Below.{IsWithin};
ghost use Rattle.child_lists.specs.from_kept_records.Slots.{IsMade, kept_at};
ghost use Rattle.kept_slots.specs.Slots.{at};
ghost use Rattle.kept_targets.specs.Kept as spec;
ghost use Rattle.kept_targets.specs.Moved as law;
ghost use Rattle.kept_targets.specs.Whole.{IsWhole};

use crate::keys::{ElementSign, TargetKeys, sign_of};
use child_lists::kept_judging::kept_records::KeptRecords;
use child_lists::kept_state::KeptState;
use compiled_schema::Compiled;
use doc_tree::DocTree;
use model_lists::ModelList;
use std::alloc::AllocError;
use xs_components::{Components, ConstraintId, ElementId};

/// A document, with its schema set and all that is kept of its elements.
#[derive(Clone, Copy)]
pub(crate) struct Kept<'a> {
    pub set: &'a Compiled,
    pub doc: &'a DocTree,
    pub state: &'a KeptState,
}

// The identity constraints of an element with this declaration.
fn declared(parts: &Components, declaration: Option<ElementId>) -> &[ConstraintId]
    ensures { result.now ≡ law.constraints_by parts.now declaration }
{
    match declaration {
        None => &[],
        Some(id) => match parts.elements().get(id.number() as usize) {
            None => &[],
            Some(declaration) => declaration.constraints.as_slice(),
        },
    }
}

// Whether an element with these signs has the same name, and the same identity constraints or none, before and after.
fn is_steady(parts: &Components, old: &ElementSign, new: &ElementSign) -> bool
    ensures { result ≡ true → law.IsSteady parts.now old.now new.now }
{
    old.name == new.name
        && (old.pair.declaration == new.pair.declaration
            || declared(parts, old.pair.declaration).is_empty()
                && declared(parts, new.pair.declaration).is_empty())
}

// The sign of an element, if something is kept of it.
fn sign_at(records: &KeptRecords, node: u32) -> Option<ElementSign>
    ensures { result ≡ spec.sign_at records.now.slots node }
{
    match records.get(node) {
        None => None,
        Some(kept) => Some(sign_of(kept)),
    }
}

// Whether an element has the same name, and the same identity constraints or none, as before; where it is new it has not.
fn stays_steady(by: &Kept<'_>, keys: &TargetKeys, node: u32) -> bool
    ensures { result ≡ true → law.StaysSteady by.now.set.now.parts by.now.state.now.records.slots (at keys.now.signs) node }
{
    let Some(now) = by.state.records.get(node) else {
        return false;
    };
    match keys.signs.get(node) {
        None => false,
        Some(was) => is_steady(&by.set.parts, was, &sign_of(now)),
    }
}

/// Puts an element and all elements below it behind others.
///
/// # Errors
///
/// `AllocError` is want of memory.
pub fn add_below(doc: &DocTree, node: u32, numbers: &mut Vec<u32>) -> Result<(), AllocError>
    requires stands { (t : NameTable) × (d : Document) × StandsFor t doc.now d }
    requires element { is_element_at doc.now node ≡ true }
    ensures all { OnOk result ((m : ℕ) → is_element_at doc.now m ≡ true → IsWithin doc.now node m → Has m numbers.new.items) }
    ensures adds { OnOk result (law.Adds doc.now numbers.old.items numbers.new.items (λ m. m ≡ node)) }
{
    numbers.push(node)?;
    for place in 0..doc.child_count(node) {
        let Some(child) = doc.element_at(node, place) else {
            return Ok(());
        };
        add_below(doc, child, numbers)?;
    }
    Ok(())
}

/// Puts an element behind others where its sign is another than before, with those below it of which this is so; where it is new, or not
/// steady, with all below it.
#[cycle(moved)]
pub(crate) fn add_moved(
    by: &Kept<'_>,
    keys: &TargetKeys,
    node: u32,
    moved: &mut Vec<u32>,
) -> Result<(), AllocError>
    requires whole { IsWhole by.now.set.now by.now.doc.now by.now.state.now }
    requires element { is_element_at by.now.doc.now node ≡ true }
    ensures looked { OnOk result (law.IsLookedAt by.now.set.now.parts by.now.doc.now by.now.state.now.records.slots (at keys.now.signs) moved.new.items node) }
    ensures adds { OnOk result (law.Adds by.now.doc.now moved.old.items moved.new.items (λ m. m ≡ node)) }
{
    let now = sign_at(&by.state.records, node);
    let was = keys.signs.get(node).copied();
    if was == now {
        return Ok(());
    }
    if !stays_steady(by, keys, node) {
        return add_below(by.doc, node, moved);
    }
    moved.push(node)?;
    add_children(by, keys, node, moved)
}

// The same of the child elements of an element.
#[cycle(moved)]
fn add_children(
    by: &Kept<'_>,
    keys: &TargetKeys,
    parent: u32,
    moved: &mut Vec<u32>,
) -> Result<(), AllocError>
    requires whole { IsWhole by.now.set.now by.now.doc.now by.now.state.now }
    requires element { is_element_at by.now.doc.now parent ≡ true }
    ensures looked { OnOk result ((c : ℕ) → Has c (element_children by.now.doc.now parent) → law.IsLookedAt by.now.set.now.parts by.now.doc.now by.now.state.now.records.slots (at keys.now.signs) moved.new.items c) }
    ensures adds { OnOk result (law.Adds by.now.doc.now moved.old.items moved.new.items (λ m. Has m (element_children by.now.doc.now parent))) }
{
    for place in 0..by.doc.child_count(parent) {
        let Some(child) = by.doc.element_at(parent, place) else {
            return Ok(());
        };
        add_moved(by, keys, child, moved)?;
    }
    Ok(())
}

// The same of an element, unless it is one that was looked at.
fn add_other(
    by: &Kept<'_>,
    keys: &TargetKeys,
    node: u32,
    but: Option<u32>,
    moved: &mut Vec<u32>,
) -> Result<(), AllocError>
    requires whole { IsWhole by.now.set.now by.now.doc.now by.now.state.now }
    requires element { is_element_at by.now.doc.now node ≡ true }
    ensures looked { OnOk result ((but ≡ Some node → ⊥) → law.IsLookedAt by.now.set.now.parts by.now.doc.now by.now.state.now.records.slots (at keys.now.signs) moved.new.items node) }
    ensures adds { OnOk result (law.Adds by.now.doc.now moved.old.items moved.new.items (λ m. m ≡ node)) }
{
    if but == Some(node) {
        return Ok(());
    }
    add_moved(by, keys, node, moved)
}

// The list of the symbols of an element's child elements, where its type has a content model.
fn list_at(by: &Kept<'_>, node: u32) -> Option<ModelList>
    requires { IsMade by.now.state.now.records.slots node }
    ensures { result ≡ (kept_at by.now.state.now.records.slots node).list }
{
    by.state.children(node).list
}

// The child element of this number among those of an element whose names are ambivalent, from 0; `None` past the last.
fn marked_child(by: &Kept<'_>, parent: u32, number: u32) -> Option<u32>
    requires whole { IsWhole by.now.set.now by.now.doc.now by.now.state.now }
    requires element { is_element_at by.now.doc.now parent ≡ true }
    ensures { MatchOption result (slice_get (law.marks by.now.set.now by.now.doc.now by.now.state.now parent) number ≡ None)
        (λ child. (place : ℕ) × (slice_get (law.marks by.now.set.now by.now.doc.now by.now.state.now parent) number ≡ Some place) × (slice_get (element_children by.now.doc.now parent) place ≡ Some child)) }
{
    match list_at(by, parent) {
        None => None,
        Some(list) => match by.state.lists.marked(list, number) {
            None => None,
            Some(place) => by.doc.element_at(parent, place),
        },
    }
}

/// The same of those child elements of an element whose names are ambivalent, but for one that was looked at.
pub(crate) fn add_marked(
    by: &Kept<'_>,
    keys: &TargetKeys,
    parent: u32,
    but: Option<u32>,
    moved: &mut Vec<u32>,
) -> Result<(), AllocError>
    requires whole { IsWhole by.now.set.now by.now.doc.now by.now.state.now }
    requires element { is_element_at by.now.doc.now parent ≡ true }
    ensures looked { OnOk result ((c : ℕ) → law.IsMarked by.now.set.now by.now.doc.now by.now.state.now parent c → (but ≡ Some c → ⊥) → law.IsLookedAt by.now.set.now.parts by.now.doc.now by.now.state.now.records.slots (at keys.now.signs) moved.new.items c) }
    ensures adds { OnOk result (law.Adds by.now.doc.now moved.old.items moved.new.items (λ m. Has m (element_children by.now.doc.now parent))) }
{
    for number in 0..by.doc.child_count(parent) {
        let Some(child) = marked_child(by, parent, number) else {
            return Ok(());
        };
        add_other(by, keys, child, but, moved)?;
    }
    Ok(())
}
