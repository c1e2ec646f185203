//! Targets found anew where a document is another than before.

ghost use Rattle.std.specs.Prelude.{◌≡◌, ◌≢◌, ◌⊎◌, ℕ, [], Some, true, IfOk, OnOk};
ghost use Rattle.tree_rows.specs.Forest.{Document};
ghost use Rattle.what_is_found.specs.Identity.{seen};
ghost use Rattle.identity_constraints.specs.Satisfied.{identity_at};
ghost use Rattle.doc_nodes.specs.Nodes.{Has, Lacks, element_children, is_element_at};
ghost use Rattle.doc_changes.specs.Held.{parent_at};
ghost use Rattle.child_lists.specs.from_kept_records.Slots.{IsMade, kept_at};
ghost use Rattle.child_lists.specs.from_kept_records.Found.{IsOver, found_in};
ghost use Rattle.scope_targets.specs.Targetings.{Targeting};
ghost use Rattle.scope_targets.specs.Kept.{parent_of, targets_of};
ghost use Rattle.kept_slots.specs.Slots.{at};
ghost use Rattle.kept_targets.specs.Counting.{Adopts, AreScopesAbove, CanAdopt, Drops, Finds, Forgets, IsCounting, IsNoTarget};
ghost use Rattle.kept_targets.specs.Kept.{AreTargets, IsTargetOf};
ghost use Rattle.kept_targets.specs.Moved.{Adds, IsLookedAt, IsMarked};
ghost use Rattle.kept_targets.specs.Touched.{IsTouching};
ghost use Rattle.kept_targets.specs.declared.above.Touched.{Touched as TouchedData};
ghost use Rattle.kept_targets.specs.Turned.{WereTargets, list_of, lowest_of, own_of};
ghost use Rattle.kept_targets.specs.Whole.{IsWhole};

use crate::above::{Touched, add_touching, targetings_at};
use crate::keys::{TargetKeys, sign_of};
use crate::moved::{Kept, add_marked, add_moved};
use crate::turn::Turn;
use child_lists::kept_state::KeptState;
use compiled_schema::Compiled;
use doc_tree::DocTree;
use std::alloc::AllocError;

// An element, with those below it, where their signs are others than before.
fn own_moved(by: &Kept<'_>, keys: &TargetKeys, node: u32) -> Result<Vec<u32>, AllocError>
    requires whole { IsWhole by.now.set.now by.now.doc.now by.now.state.now }
    requires element { is_element_at by.now.doc.now node ≡ true }
    ensures looked { IfOk result (λ moved. IsLookedAt by.now.set.now.parts by.now.doc.now by.now.state.now.records.slots (at keys.now.signs) moved.items node) }
    ensures adds { IfOk result (λ moved. Adds by.now.doc.now [] moved.items (λ m. m ≡ node)) }
{
    let mut moved = Vec::new(by.state.alloc);
    add_moved(by, keys, node, &mut moved)?;
    Ok(moved)
}

// The same of the child elements of an element whose names are ambivalent.
fn marked_moved(by: &Kept<'_>, keys: &TargetKeys, parent: u32) -> Result<Vec<u32>, AllocError>
    requires whole { IsWhole by.now.set.now by.now.doc.now by.now.state.now }
    requires element { is_element_at by.now.doc.now parent ≡ true }
    ensures looked { IfOk result (λ moved. (n : ℕ) → IsMarked by.now.set.now by.now.doc.now by.now.state.now parent n
        → IsLookedAt by.now.set.now.parts by.now.doc.now by.now.state.now.records.slots (at keys.now.signs) moved.items n) }
    ensures adds { IfOk result (λ moved. Adds by.now.doc.now [] moved.items (λ m. Has m (element_children by.now.doc.now parent))) }
{
    let mut moved = Vec::new(by.state.alloc);
    add_marked(by, keys, parent, None, &mut moved)?;
    Ok(moved)
}

// The same of an element and of the other child elements of its parent whose names are ambivalent.
fn listed_moved(by: &Kept<'_>, keys: &TargetKeys, node: u32) -> Result<Vec<u32>, AllocError>
    requires whole { IsWhole by.now.set.now by.now.doc.now by.now.state.now }
    requires element { is_element_at by.now.doc.now node ≡ true }
    ensures looked { IfOk result (λ moved. IsLookedAt by.now.set.now.parts by.now.doc.now by.now.state.now.records.slots (at keys.now.signs) moved.items node) }
    ensures marked { IfOk result (λ moved. (p n : ℕ) → parent_at by.now.doc.now node ≡ Some p → (node ≡ n → ⊥) → IsMarked by.now.set.now by.now.doc.now by.now.state.now p n
        → IsLookedAt by.now.set.now.parts by.now.doc.now by.now.state.now.records.slots (at keys.now.signs) moved.items n) }
    ensures adds { IfOk result (λ moved. Adds by.now.doc.now [] moved.items (λ m. (m ≡ node) ⊎ ((p : ℕ) × (parent_at by.now.doc.now node ≡ Some p) × Has m (element_children by.now.doc.now p)))) }
{
    let mut moved = own_moved(by, keys, node)?;
    match by.doc.parent(node) {
        None => Ok(moved),
        Some(parent) => {
            add_marked(by, keys, parent, Some(node), &mut moved)?;
            Ok(moved)
        }
    }
}

// The elements whose signs are others than before.
fn moved_by(by: &Kept<'_>, keys: &TargetKeys, turn: &Turn) -> Result<Vec<u32>, AllocError>
    requires whole { IsWhole by.now.set.now by.now.doc.now by.now.state.now }
    requires lowest { is_element_at by.now.doc.now (lowest_of turn.now) ≡ true }
    ensures own { IfOk result (λ moved. (n : ℕ) → own_of turn.now ≡ Some n → IsLookedAt by.now.set.now.parts by.now.doc.now by.now.state.now.records.slots (at keys.now.signs) moved.items n) }
    ensures marked { IfOk result (λ moved. (p n : ℕ) → list_of by.now.doc.now turn.now ≡ Some p → own_of turn.now ≢ Some n → IsMarked by.now.set.now by.now.doc.now by.now.state.now p n
        → IsLookedAt by.now.set.now.parts by.now.doc.now by.now.state.now.records.slots (at keys.now.signs) moved.items n) }
    ensures only { IfOk result (λ moved. (m : ℕ) → Has m moved.items → (is_element_at by.now.doc.now m ≡ true) × ((own_of turn.now ≡ Some m)
        ⊎ (((p : ℕ) × (list_of by.now.doc.now turn.now ≡ Some p) × Has m (element_children by.now.doc.now p)) ⊎ ((p : ℕ) × (parent_at by.now.doc.now m ≡ Some p) × Has p moved.items)))) }
{
    match turn {
        Turn::Own(node) => own_moved(by, keys, *node),
        Turn::Listed(node) => listed_moved(by, keys, *node),
        Turn::Gone { parent, .. } => marked_moved(by, keys, *parent),
    }
}

// Takes elements out as targets.
fn take_each(keys: &mut TargetKeys, nodes: &[u32]) -> Result<(), AllocError>
    requires { IsCounting keys.old }
    ensures counting { OnOk result (IsCounting keys.new) }
    ensures takes { OnOk result (Finds IsNoTarget keys.old keys.new nodes.now) }
{
    for node in nodes {
        keys.counted.take_targets(*node)?;
    }
    Ok(())
}

// Keeps no parents and no signs of elements any more, which are the scopes of no targets.
fn drop_each(keys: &mut TargetKeys, nodes: &[u32]) -> Result<(), AllocError>
    requires counting { IsCounting keys.old }
    requires none { (n m : ℕ) (a : Targeting) → Has n nodes.now → Has a (targets_of keys.old.counted m) → a.scope ≡ n → ⊥ }
    requires whole { (n c : ℕ) → Has n nodes.now → parent_of keys.old.counted c ≡ Some n → Has c nodes.now }
    ensures counting { OnOk result (IsCounting keys.new) }
    ensures drops { OnOk result (Drops keys.old keys.new nodes.now) }
{
    for node in nodes {
        keys.counted.set_parent(*node, None)?;
        keys.signs.take(*node);
    }
    Ok(())
}

// Keeps nothing of elements that are gone any more.
fn forget(keys: &mut TargetKeys, gone: &[u32]) -> Result<(), AllocError>
    requires counting { IsCounting keys.old }
    requires above { AreScopesAbove keys.old }
    requires whole { (n c : ℕ) → Has n gone.now → parent_of keys.old.counted c ≡ Some n → Has c gone.now }
    ensures counting { OnOk result (IsCounting keys.new) }
    ensures forgets { OnOk result (Forgets keys.old keys.new gone.now) }
{
    take_each(keys, gone)?;
    drop_each(keys, gone)
}

// Keeps the parents and the signs of elements.
fn adopt(by: &Kept<'_>, keys: &mut TargetKeys, moved: &[u32]) -> Result<(), AllocError>
    requires whole { IsWhole by.now.set.now by.now.doc.now by.now.state.now }
    requires elements { (n : ℕ) → Has n moved.now → is_element_at by.now.doc.now n ≡ true }
    requires counting { IsCounting keys.old }
    requires can { CanAdopt by.now.doc.now keys.old moved.now }
    ensures counting { OnOk result (IsCounting keys.new) }
    ensures adopts { OnOk result (Adopts by.now.doc.now by.now.state.now.records.slots keys.old keys.new moved.now) }
{
    for node in moved {
        keys.counted.set_parent(*node, by.doc.parent(*node))?;
        keys.set_sign(*node, sign_of(by.state.at(*node)))?;
    }
    Ok(())
}

// Finds the targets anew that elements are.
fn find_again(by: &Kept<'_>, keys: &mut TargetKeys, nodes: &[u32]) -> Result<(), AllocError>
    requires whole { IsWhole by.now.set.now by.now.doc.now by.now.state.now }
    requires elements { (n : ℕ) → Has n nodes.now → is_element_at by.now.doc.now n ≡ true }
    requires counting { IsCounting keys.old }
    ensures counting { OnOk result (IsCounting keys.new) }
    ensures finds { OnOk result (Finds (IsTargetOf by.now.set.now by.now.doc.now by.now.state.now.records.slots) keys.old keys.new nodes.now) }
{
    for node in nodes {
        keys.counted.take_targets(*node)?;
        let found = targetings_at(by, *node)?;
        keys.counted.put_targets(*node, found)?;
    }
    Ok(())
}

// The elements that are to be looked at again above and at the lowest one of a turn.
fn touched_by(by: &Kept<'_>, keys: &TargetKeys, lowest: u32) -> Result<Touched, AllocError>
    requires whole { IsWhole by.now.set.now by.now.doc.now by.now.state.now }
    requires element { is_element_at by.now.doc.now lowest ≡ true }
    ensures { IfOk result (λ touched. (none : TouchedData) × (none.targets.items ≡ []) × (none.scopes.items ≡ []) × IsTouching by.now.set.now by.now.doc.now by.now.state.now.records.slots keys.now lowest none touched) }
{
    let mut touched = Touched {
        targets: Vec::new(by.state.alloc),
        scopes: Vec::new(by.state.alloc),
    };
    add_touching(by, keys, lowest, &mut touched)?;
    Ok(touched)
}

/// Finds anew which targets elements are, as far as it can be otherwise than before: of the elements whose names or governing are others
/// and of those that have come, and of all above them and above the element where the document is another. Answers the elements
/// whose codes can be others.
///
/// # Errors
///
/// `AllocError` is want of memory, or so much would be counted more than 4,294,967,295 times, or an element has no higher number than
/// its parent.
pub fn retarget(
    set: &Compiled,
    doc: &DocTree,
    state: &KeptState,
    keys: &mut TargetKeys,
    turn: &Turn,
) -> Result<Vec<u32>, AllocError>
    requires whole { IsWhole set.now doc.now state.now }
    requires before { WereTargets set.now doc.now state.now keys.old turn.now }
    ensures targets { OnOk result (AreTargets set.now doc.now state.now.records.slots keys.new) }
    ensures scopes { IfOk result (λ scopes. (n : ℕ) → Has n scopes.items → is_element_at doc.now n ≡ true) }
    ensures rest { IfOk result (λ scopes. (d : Document) → IsOver set.now doc.now state.now.records.slots d → (n : ℕ) → IsMade state.now.records.slots n → Lacks n scopes.items
        → (kept_at state.now.records.slots n).identity ≡ identity_at set.now.names set.now.parts set.now.identities.items n (seen (found_in doc.now state.now.records.slots d.forest))) }
{
    let by = Kept { set, doc, state };
    let moved = moved_by(&by, keys, turn)?;
    let touched = touched_by(&by, keys, turn.lowest())?;
    forget(keys, turn.gone())?;
    adopt(&by, keys, moved.as_slice())?;
    find_again(&by, keys, moved.as_slice())?;
    find_again(&by, keys, touched.targets.as_slice())?;
    let mut scopes = touched.scopes;
    scopes.extend_from_slice(moved.as_slice())?;
    Ok(scopes)
}
