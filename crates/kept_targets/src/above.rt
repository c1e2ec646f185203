//! An element and those above it.

ghost use Rattle.std.specs.Prelude.{◌≡◌, ◌⊎◌, ℕ, [], List, Some, map, true, false, IfOk, OnOk};
ghost use Rattle.identity_constraints.specs.Seen.{KeyElement, KeyForest};
ghost use Rattle.identity_constraints.specs.Targets as targets;
ghost use Rattle.what_is_found.specs.Identity.{seen_element};
ghost use Rattle.path_walk.specs.Sight.{seen};
ghost use Rattle.path_walk.specs.declared.set.KeySet.{KeySet as KeySetData};
ghost use Rattle.scope_targets.specs.Found.{targeting_of};
ghost use Rattle.scope_targets.specs.Kin.{AreAbove, AreSeen};
ghost use Rattle.scope_targets.specs.Targetings as law;
ghost use Rattle.scope_targets.specs.Kept.{targets_of};
ghost use Rattle.doc_nodes.specs.Nodes.{Has, element_children, is_element_at};
ghost use Rattle.doc_changes.specs.Held.{parent_at};
ghost use Rattle.child_lists.specs.from_kept_forgetting.Below.{IsWithin};
ghost use Rattle.child_lists.specs.from_kept_records.Slots.{IsMade, entry_at};
ghost use Rattle.kept_targets.specs.Kept.{kin_of};
ghost use Rattle.kept_targets.specs.Touched.{IsNoted, IsTouching, scopes_at};
ghost use Rattle.kept_targets.specs.Whole.{IsWhole};

use crate::keys::TargetKeys;
use crate::moved::Kept;
use crate::siblings::{KeptSiblings, sight_of};
use path_walk::{KeySet, constraints_of};
use scope_targets::{ElementTargeting, add_scope};
use std::alloc::AllocError;

/// Elements that are to be looked at again: as targets, and as those whose constraints have targets.
#[derive(Drop)]
pub(crate) struct Touched {
    pub targets: Vec<u32>,
    pub scopes: Vec<u32>,
}

// Whether an element has identity constraints.
fn is_scope(by: &Kept<'_>, node: u32) -> bool
    requires { IsMade by.now.state.now.records.slots node }
    ensures { result ≡ false → scopes_at by.now.set.now by.now.state.now.records.slots node ≡ [] }
{
    !constraints_of(&by.set.parts, &sight_of(by.state.at(node))).is_empty()
}

// Puts an element behind others, where it is a target.
fn note_target(keys: &TargetKeys, node: u32, targets: &mut Vec<u32>) -> Result<(), AllocError>
    ensures { OnOk result (IsNoted (targets_of keys.now.counted node ≡ []) node targets.old.items targets.new.items) }
{
    if !keys.counted.is_target(node) {
        return Ok(());
    }
    targets.push(node)?;
    Ok(())
}

// Puts an element behind others, where it has identity constraints.
fn note_scope(by: &Kept<'_>, node: u32, scopes: &mut Vec<u32>) -> Result<(), AllocError>
    requires { IsMade by.now.state.now.records.slots node }
    ensures { OnOk result (IsNoted (scopes_at by.now.set.now by.now.state.now.records.slots node ≡ []) node scopes.old.items scopes.new.items) }
{
    if !is_scope(by, node) {
        return Ok(());
    }
    scopes.push(node)?;
    Ok(())
}

/// Puts an element and those above it behind others: where they are targets, and where they have identity constraints.
///
/// # Errors
///
/// `AllocError` is want of memory.
pub(crate) fn add_touching(
    by: &Kept<'_>,
    keys: &TargetKeys,
    node: u32,
    touched: &mut Touched,
) -> Result<(), AllocError>
    requires whole { IsWhole by.now.set.now by.now.doc.now by.now.state.now }
    requires element { is_element_at by.now.doc.now node ≡ true }
    ensures { OnOk result (IsTouching by.now.set.now by.now.doc.now by.now.state.now.records.slots keys.now node touched.old touched.new) }
{
    let mut next = Some(node);
    'up: while let Some(own) = next {
        note_target(keys, own, &mut touched.targets)?;
        note_scope(by, own, &mut touched.scopes)?;
        next = by.doc.parent(own);
    }
    Ok(())
}

/// What identity constraints are evaluated by.
pub(crate) fn key_set<'a>(by: &Kept<'a>) -> KeySet<'a>
    ensures names { result.names.now ≡ by.now.set.now.names }
    ensures parts { result.parts.now ≡ by.now.set.now.parts }
    ensures contents { result.contents.now ≡ by.now.set.now.contents }
    ensures identities { result.identities.now ≡ by.now.set.now.identities.items }
{
    KeySet {
        alloc: by.state.alloc,
        names: &by.set.names,
        parts: &by.set.parts,
        contents: &by.set.contents,
        identities: by.set.identities.as_slice(),
    }
}

/// An element as a target of the identity constraints of the elements at and above it (Structures 3.11.4).
///
/// # Errors
///
/// `AllocError` is want of memory.
pub(crate) fn targetings_at(by: &Kept<'_>, node: u32) -> Result<Vec<ElementTargeting>, AllocError>
    requires whole { IsWhole by.now.set.now by.now.doc.now by.now.state.now }
    requires element { is_element_at by.now.doc.now node ≡ true }
    ensures { IfOk result (λ found. (above : List KeyElement) (below : KeyForest)
        → AreAbove (kin_of by.now.doc.now by.now.state.now.records.slots) (parent_at by.now.doc.now node) above → AreSeen (kin_of by.now.doc.now by.now.state.now.records.slots) (element_children by.now.doc.now node) below
        → map targeting_of found.items ≡ law.targetings_of by.now.set.now.names by.now.set.now.parts by.now.set.now.identities.items above (seen_element (entry_at by.now.state.now.records.slots node)) below) }
{
    let set = key_set(by);
    let target = KeptSiblings::from(by.doc, &by.state.records, node);
    let mut found = Vec::new(by.state.alloc);
    let mut way = Vec::new(by.state.alloc);
    let mut next = Some(node);
    'up: while let Some(own) = next {
        let scope = sight_of(by.state.at(own));
        add_scope(&set, target, &scope, &mut way, &mut found)?;
        next = by.doc.parent(own);
    }
    Ok(found)
}
