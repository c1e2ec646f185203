//! The child elements whose terms go by their place, asked again.

ghost use Rattle.std.specs.Prelude.{◌≡◌, ◌+◌, ◌*◌, ◌≤◌, ℕ, List, [], ◌∷◌, None, Some, slice_get, OnOk, MatchOption};
ghost use Rattle.tree_rows.specs.Forest.{Forest};
ghost use Rattle.elem_governing.specs.declared.pairs.Governing.{Governing};
ghost use Rattle.doc_nodes.specs.Nodes.{element_children};
ghost use Rattle.child_lists.specs.from_kept_records.Slots.{IsMade, pair_at};
ghost use Rattle.child_lists.specs.from_kept_state.Kept.{FitBut, IsBeside};
ghost use Rattle.child_lists.specs.from_kept_state.KeptChildren.{KeptChildren as KeptChildrenData};
ghost use Rattle.kept_below.specs.Moved.{moved};
ghost use Rattle.child_lists.specs.Places.{IsPlaceOf};
ghost use Rattle.child_lists.specs.Family.{AreCounted, AreGivenBut, IsAttributed, IsListedBy, IsMidway};
ghost use Rattle.child_lists.specs.Family as family;
ghost use Rattle.kept_children.specs.Edited.{IsSettledAt};
ghost use Rattle.kept_below.specs.Below.{KeepsIdentity};
ghost use Rattle.kept_children.specs.Steps.{GovernsBelow, LeaveRoom, TakeAtMost, digits, marked_count, places_of, width};

use child_lists::kept_state::KeptState;
use child_lists::{ChildPlace, govern_at, list_of};
use compiled_schema::Compiled;
use doc_tree::DocTree;
use kept_above::recount;
use kept_below::settle_below;
use std::alloc::AllocError;
use xsv_steps::{Ledger, Steps};

/// Governs a child element by its term as it is now, with all below it.
///
/// # Errors
///
/// `AllocError` is want of memory, or there are too many codes.
pub(crate) fn settle_at<L: Ledger>(
    doc: &DocTree,
    set: &mut Compiled,
    kept: &mut KeptState,
    at: &ChildPlace,
    steps: &mut Steps<L>,
) -> Result<(), AllocError>
    requires place { IsPlaceOf doc.now at.now }
    requires midway { (was : KeptChildrenData) × IsMidway set.old doc.now kept.old at.now.parent was [] }
    requires attributed { IsAttributed set.old doc.now kept.old at.now.parent }
    ensures settled { OnOk result (IsSettledAt set.old doc.now kept.old kept.new at.now) }
    ensures fit { OnOk result (FitBut set.old doc.now kept.new (at.now.parent ∷ [])) }
    ensures beside { OnOk result (IsBeside set.old doc.now kept.new) }
    ensures identity { OnOk result (KeepsIdentity kept.old kept.new) }
    ensures same { set.new ≡ set.old }
    ensures least { steps.old ≤ steps.new }
    ensures steps { TakeAtMost set.old doc.now kept.old at.now steps.old steps.new }
    ensures left { OnOk result (LeaveRoom set.old doc.now kept.old at.now kept.new steps.old steps.new) }
{
    let child = govern_at(doc, set, kept, at, steps)?;
    settle_below(doc, set, kept, &child, steps)
}

// Governs a child element by its term as it is now, and counts what it comes to in place of what it came to.
fn settle_marked<L: Ledger>(
    doc: &DocTree,
    set: &mut Compiled,
    kept: &mut KeptState,
    at: &ChildPlace,
    steps: &mut Steps<L>,
) -> Result<(), AllocError>
    requires place { IsPlaceOf doc.now at.now }
    requires midway { (was : KeptChildrenData) × IsMidway set.old doc.now kept.old at.now.parent was [] }
    requires attributed { IsAttributed set.old doc.now kept.old at.now.parent }
    requires counted { AreCounted kept.old at.now.parent (element_children doc.now at.now.parent) }
    ensures midway { OnOk result ((was : KeptChildrenData) → IsMidway set.old doc.now kept.old at.now.parent was [] → IsMidway set.old doc.now kept.new at.now.parent was []) }
    ensures attributed { OnOk result (IsAttributed set.old doc.now kept.new at.now.parent) }
    ensures counted { OnOk result (AreCounted kept.new at.now.parent (element_children doc.now at.now.parent)) }
    ensures given { OnOk result ((places : List ℕ) → AreGivenBut set.old doc.now kept.old at.now.parent (at.now.place ∷ places) → AreGivenBut set.old doc.now kept.new at.now.parent places) }
    ensures pair { OnOk result (pair_at kept.new.records.slots at.now.parent ≡ pair_at kept.old.records.slots at.now.parent) }
    ensures identity { OnOk result (KeepsIdentity kept.old kept.new) }
    ensures same { set.new ≡ set.old }
    ensures least { steps.old ≤ steps.new }
    ensures steps { TakeAtMost set.old doc.now kept.old at.now steps.old steps.new }
    ensures left { OnOk result (LeaveRoom set.old doc.now kept.old at.now kept.new steps.old steps.new) }
{
    let was = kept.outcome(at.node);
    settle_at(doc, set, kept, at, steps)?;
    let now = kept.outcome(at.node);
    recount(kept, at.parent, was, now);
    Ok(())
}

// The place and the number of the child element whose name is ambivalent of this number among those, from 0; `None` past the last.
fn marked_at(
    doc: &DocTree,
    set: &Compiled,
    kept: &KeptState,
    parent: u32,
    number: u32,
) -> Option<(u32, u32)>
    requires made { IsMade kept.now.records.slots parent }
    requires listed { IsListedBy set.now kept.now parent (family.symbols_of set.now doc.now kept.now parent) }
    ensures { MatchOption result
        (slice_get (places_of set.now doc.now kept.now parent) number ≡ None)
        (λ found. IsPlaceOf doc.now (record { parent = parent; place = found.0; node = found.1 }) × (slice_get (places_of set.now doc.now kept.now parent) number ≡ Some found.0)) }
{
    match list_of(set, kept, parent) {
        None => None,
        Some((list, _)) => match kept.lists.marked(list, number) {
            None => None,
            Some(place) => match doc.element_at(parent, place) {
                None => None,
                Some(node) => Some((place, node)),
            },
        },
    }
}

/// Governs the child elements of an element whose names are ambivalent again. It takes at most `8 * (bits(n + 1) + 1)` steps for each of
/// them, where there are `n` child elements, beside the steps of what is governed otherwise than before.
///
/// # Errors
///
/// `AllocError` is want of memory, or there are too many codes.
pub(crate) fn settle_all_marked<L: Ledger>(
    doc: &DocTree,
    set: &mut Compiled,
    kept: &mut KeptState,
    parent: u32,
    steps: &mut Steps<L>,
) -> Result<(), AllocError>
    requires midway { (was : KeptChildrenData) × IsMidway set.old doc.now kept.old parent was [] }
    requires attributed { IsAttributed set.old doc.now kept.old parent }
    requires counted { AreCounted kept.old parent (element_children doc.now parent) }
    requires given { AreGivenBut set.old doc.now kept.old parent (places_of set.old doc.now kept.old parent) }
    ensures midway { OnOk result ((was : KeptChildrenData) → IsMidway set.old doc.now kept.old parent was [] → IsMidway set.old doc.now kept.new parent was []) }
    ensures attributed { OnOk result (IsAttributed set.old doc.now kept.new parent) }
    ensures counted { OnOk result (AreCounted kept.new parent (element_children doc.now parent)) }
    ensures given { OnOk result (AreGivenBut set.old doc.now kept.new parent []) }
    ensures identity { OnOk result (KeepsIdentity kept.old kept.new) }
    ensures same { set.new ≡ set.old }
    ensures least { steps.old ≤ steps.new }
    ensures steps { (siblings : Forest) (governs : ℕ → Governing) → GovernsBelow set.old doc.now (pair_at kept.old.records.slots parent) parent governs siblings →
        steps.new ≤ steps.old + (8 * digits (width doc.now parent) * marked_count set.old doc.now kept.old parent + 3 * moved kept.old.records.slots governs siblings) }
{
    for number in 0..doc.child_count(parent) {
        let Some((place, node)) = marked_at(doc, set, kept, parent, number) else {
            return Ok(());
        };
        let at = ChildPlace {
            parent,
            place,
            node,
        };
        settle_marked(doc, set, kept, &at, steps)?;
    }
    Ok(())
}
