//! A child element that comes, goes, or has another name.

ghost use Rattle.std.specs.Prelude.{◌≡◌, ◌+◌, ◌*◌, ◌^◌, ◌<◌, ◌≤◌, ℕ, List, [], ◌∷◌, Some, remove, OnOk};
ghost use Rattle.assess_records.specs.Counts.{attempt_count, child_count, with_child};
ghost use Rattle.assess_records.specs.declared.counts.ChildCounts.{ChildCounts};
ghost use Rattle.tree_rows.specs.Forest.{Forest};
ghost use Rattle.elem_governing.specs.declared.pairs.Governing.{Governing};
ghost use Rattle.doc_nodes.specs.Nodes.{element_children};
ghost use Rattle.child_lists.specs.from_kept_records.Books.{IsBooked};
ghost use Rattle.child_lists.specs.from_kept_records.KeptElement.{KeptElement as KeptData};
ghost use Rattle.child_lists.specs.from_kept_records.Slots.{IsKept, IsMade, kept_at, pair_at};
ghost use Rattle.child_lists.specs.from_kept_state.Kept.{FitBut, IsBeside, Rewrites, children_at};
ghost use Rattle.child_lists.specs.from_kept_state.KeptChildren.{KeptChildren as KeptChildrenData};
ghost use Rattle.child_lists.specs.from_kept_judging.Judged.{AreChildren};
ghost use Rattle.kept_below.specs.Moved.{moved};
ghost use Rattle.child_lists.specs.Places.{IsPlaceOf};
ghost use Rattle.kept_children.specs.Edited.{IsPlanted, IsPruned, IsRenamed, IsRightFor, IsSettledAt};
ghost use Rattle.child_lists.specs.Family.{AreCounted, AreGivenBut, IsAttributed, IsMidway};
ghost use Rattle.kept_below.specs.Below.{KeepsIdentity};
ghost use Rattle.kept_children.specs.Steps.{GovernsBelow, LeaveRoom, TakeAtMost, digits, marked_count, places_of, width};

use crate::marked::{settle_all_marked, settle_at};
use child_lists::kept_judging::judge_if_apart;
use child_lists::kept_state::{KeptChildren, KeptState, Outcome};
use child_lists::{ChildPlace, govern_at, list_child, note_stuck, relist_child, unlist_child};
use compiled_schema::Compiled;
use doc_tree::DocTree;
use kept_above::{recount, settle_above};
use kept_below::settle_again;
use std::alloc::AllocError;
use xsv_steps::{Ledger, Steps};

// Makes an element right whose child elements are kept as they should be, and those above it.
fn settle_parent(
    doc: &DocTree,
    set: &mut Compiled,
    kept: &mut KeptState,
    parent: u32,
    was: &KeptChildren,
) -> Result<(), AllocError>
    requires midway { IsMidway set.old doc.now kept.old parent was.now [] }
    requires children { AreChildren set.old doc.now kept.old parent (pair_at kept.old.records.slots parent) (children_at kept.old.records.slots parent) }
    ensures right { OnOk result (IsRightFor set.old doc.now kept.new) }
    ensures identity { OnOk result (KeepsIdentity kept.old kept.new) }
    ensures same { set.new ≡ set.old }
{
    let before = kept.outcome(parent);
    judge_if_apart(doc, set, kept, parent, was)?;
    settle_above(doc, set, kept, parent, before)
}

// Counts one more child element of an element.
fn count_in(kept: &mut KeptState, parent: u32, outcome: Outcome)
    requires made { IsMade kept.old.records.slots parent }
    requires few { child_count (kept_at kept.old.records.slots parent).counts + 1 < 2 ^ 32 }
    requires fewer { attempt_count (kept_at kept.old.records.slots parent).counts + 1 < 2 ^ 32 }
    ensures change { (k : KeptData) → IsKept kept.old.records.slots parent k →
        Rewrites kept.old kept.new parent (Some (record k { counts = with_child outcome.validity outcome.attempted k.counts })) }
    ensures booked { IsBooked kept.old.records → IsBooked kept.new.records }
{
    let mut children = kept.children(parent);
    children.counts.add(outcome.validity, outcome.attempted);
    kept.set_children(parent, children);
}

// Counts one child element less of an element.
fn count_out(kept: &mut KeptState, parent: u32, outcome: Outcome)
    requires made { IsMade kept.old.records.slots parent }
    requires counted { (rest : ChildCounts) × ((kept_at kept.old.records.slots parent).counts ≡ with_child outcome.validity outcome.attempted rest) }
    ensures change { (k : KeptData) (rest : ChildCounts) → IsKept kept.old.records.slots parent k → k.counts ≡ with_child outcome.validity outcome.attempted rest →
        Rewrites kept.old kept.new parent (Some (record k { counts = rest })) }
    ensures booked { IsBooked kept.old.records → IsBooked kept.new.records }
{
    let mut children = kept.children(parent);
    children.counts.remove(outcome.validity, outcome.attempted);
    kept.set_children(parent, children);
}

// Governs the child elements whose names are ambivalent again, and makes their parent right, and those above it.
fn settle_rest<L: Ledger>(
    doc: &DocTree,
    set: &mut Compiled,
    kept: &mut KeptState,
    own: (u32, &KeptChildren),
    steps: &mut Steps<L>,
) -> Result<(), AllocError>
    requires midway { IsMidway set.old doc.now kept.old own.0 own.1.now [] }
    requires attributed { IsAttributed set.old doc.now kept.old own.0 }
    requires counted { AreCounted kept.old own.0 (element_children doc.now own.0) }
    requires given { AreGivenBut set.old doc.now kept.old own.0 (places_of set.old doc.now kept.old own.0) }
    ensures right { OnOk result (IsRightFor set.old doc.now kept.new) }
    ensures identity { OnOk result (KeepsIdentity kept.old kept.new) }
    ensures same { set.new ≡ set.old }
    ensures least { steps.old ≤ steps.new }
    ensures steps { (siblings : Forest) (governs : ℕ → Governing) → GovernsBelow set.old doc.now (pair_at kept.old.records.slots own.entry.0) own.entry.0 governs siblings →
        steps.new ≤ steps.old + (8 * digits (width doc.now own.entry.0) * marked_count set.old doc.now kept.old own.entry.0 + 3 * moved kept.old.records.slots governs siblings) }
{
    let (parent, was) = own;
    settle_all_marked(doc, set, kept, parent, steps)?;
    settle_parent(doc, set, kept, parent, was)
}

// Governs a child element that came, and counts it.
fn settle_new<L: Ledger>(
    doc: &DocTree,
    set: &mut Compiled,
    kept: &mut KeptState,
    at: &ChildPlace,
    steps: &mut Steps<L>,
) -> Result<(), AllocError>
    requires place { IsPlaceOf doc.now at.now }
    requires midway { (was : KeptChildrenData) × IsMidway set.old doc.now kept.old at.now.parent was [] }
    requires attributed { IsAttributed set.old doc.now kept.old at.now.parent }
    requires counted { AreCounted kept.old at.now.parent (remove (element_children doc.now at.now.parent) at.now.place) }
    ensures midway { OnOk result ((was : KeptChildrenData) → IsMidway set.old doc.now kept.old at.now.parent was [] → IsMidway set.old doc.now kept.new at.now.parent was []) }
    ensures attributed { OnOk result (IsAttributed set.old doc.now kept.new at.now.parent) }
    ensures counted { OnOk result (AreCounted kept.new at.now.parent (element_children doc.now at.now.parent)) }
    ensures given { OnOk result ((places : List ℕ) → AreGivenBut set.old doc.now kept.old at.now.parent (at.now.place ∷ places) → AreGivenBut set.old doc.now kept.new at.now.parent places) }
    ensures pair { OnOk result (pair_at kept.new.records.slots at.now.parent ≡ pair_at kept.old.records.slots at.now.parent) }
    ensures identity { OnOk result (KeepsIdentity kept.old kept.new) }
    ensures same { set.new ≡ set.old }
    ensures least { steps.old ≤ steps.new }
    ensures steps { TakeAtMost set.old doc.now kept.old at.now steps.old steps.new }
    ensures left { OnOk result (LeaveRoom set.old doc.now kept.old at.now kept.new steps.old steps.new) }
{
    settle_at(doc, set, kept, at, steps)?;
    let outcome = kept.outcome(at.node);
    count_in(kept, at.parent, outcome);
    Ok(())
}

// Governs a child element that has another name by its term, with all below it.
fn settle_again_at<L: Ledger>(
    doc: &DocTree,
    set: &mut Compiled,
    kept: &mut KeptState,
    at: &ChildPlace,
    steps: &mut Steps<L>,
) -> Result<(), AllocError>
    requires place { IsPlaceOf doc.now at.now }
    requires midway { (was : KeptChildrenData) × IsMidway set.old doc.now kept.old at.now.parent was (at.now.node ∷ []) }
    requires attributed { IsAttributed set.old doc.now kept.old at.now.parent }
    ensures settled { OnOk result (IsSettledAt set.old doc.now kept.old kept.new at.now) }
    ensures fit { OnOk result (FitBut set.old doc.now kept.new (at.now.parent ∷ [])) }
    ensures beside { OnOk result (IsBeside set.old doc.now kept.new) }
    ensures identity { OnOk result (KeepsIdentity kept.old kept.new) }
    ensures same { set.new ≡ set.old }
    ensures least { steps.old ≤ steps.new }
    ensures steps { TakeAtMost set.old doc.now kept.old at.now steps.old steps.new }
    ensures left { OnOk result (LeaveRoom set.old doc.now kept.old at.now kept.new steps.old steps.new) }
{
    let child = govern_at(doc, set, kept, at, steps)?;
    settle_again(doc, set, kept, &child, steps)
}

// Governs a child element that has another name, and counts what it comes to in place of what it came to.
fn settle_named<L: Ledger>(
    doc: &DocTree,
    set: &mut Compiled,
    kept: &mut KeptState,
    at: &ChildPlace,
    steps: &mut Steps<L>,
) -> Result<(), AllocError>
    requires place { IsPlaceOf doc.now at.now }
    requires midway { (was : KeptChildrenData) × IsMidway set.old doc.now kept.old at.now.parent was (at.now.node ∷ []) }
    requires attributed { IsAttributed set.old doc.now kept.old at.now.parent }
    requires counted { AreCounted kept.old at.now.parent (element_children doc.now at.now.parent) }
    ensures midway { OnOk result ((was : KeptChildrenData) → IsMidway set.old doc.now kept.old at.now.parent was (at.now.node ∷ []) → IsMidway set.old doc.now kept.new at.now.parent was []) }
    ensures attributed { OnOk result (IsAttributed set.old doc.now kept.new at.now.parent) }
    ensures counted { OnOk result (AreCounted kept.new at.now.parent (element_children doc.now at.now.parent)) }
    ensures given { OnOk result ((places : List ℕ) → AreGivenBut set.old doc.now kept.old at.now.parent (at.now.place ∷ places) → AreGivenBut set.old doc.now kept.new at.now.parent places) }
    ensures pair { OnOk result (pair_at kept.new.records.slots at.now.parent ≡ pair_at kept.old.records.slots at.now.parent) }
    ensures identity { OnOk result (KeepsIdentity kept.old kept.new) }
    ensures same { set.new ≡ set.old }
    ensures least { steps.old ≤ steps.new }
    ensures steps { TakeAtMost set.old doc.now kept.old at.now steps.old steps.new }
    ensures left { OnOk result (LeaveRoom set.old doc.now kept.old at.now kept.new steps.old steps.new) }
{
    let was = kept.outcome(at.node);
    settle_again_at(doc, set, kept, at, steps)?;
    let now = kept.outcome(at.node);
    recount(kept, at.parent, was, now);
    Ok(())
}

/// Keeps a child element that was put into the document, with all below it, and makes all records right. It takes at most
/// `24 * B + 1` steps, `16 * B` for each child element of its parent whose name is ambivalent, where `B` is `bits(n + 1) + 1` and the
/// parent has `n` child elements; and three for each child element of elements that are new or whose type is another.
///
/// # Errors
///
/// `AllocError` is want of memory, or there are too many codes.
pub fn put_child<L: Ledger>(
    doc: &DocTree,
    set: &mut Compiled,
    kept: &mut KeptState,
    at: &ChildPlace,
    steps: &mut Steps<L>,
) -> Result<(), AllocError>
    requires place { IsPlaceOf doc.now at.now }
    requires beside { IsBeside set.old doc.now kept.old }
    requires planted { IsPlanted set.old doc.now kept.old at.now }
    ensures right { OnOk result (IsRightFor set.old doc.now kept.new) }
    ensures identity { OnOk result (KeepsIdentity kept.old kept.new) }
    ensures same { set.new ≡ set.old }
    ensures least { steps.old ≤ steps.new }
    ensures steps { (siblings : Forest) (governs : ℕ → Governing) → GovernsBelow set.old doc.now (pair_at kept.old.records.slots at.now.parent) at.now.parent governs siblings →
        steps.new ≤ steps.old + (24 * digits (width doc.now at.now.parent) + 1 + 16 * digits (width doc.now at.now.parent) * marked_count set.old doc.now kept.old at.now.parent + 3 * moved kept.old.records.slots governs siblings) }
{
    let parent = at.parent;
    let was = kept.children(parent);
    list_child(doc, set, kept, at, steps)?;
    note_stuck(doc, set, kept, parent, steps);
    settle_new(doc, set, kept, at, steps)?;
    settle_rest(doc, set, kept, (parent, &was), steps)
}

/// Makes all records right, where a child element was taken out of the document that came to this, and nothing is kept of it any more.
/// Steps are as those of `put_child`, by the number of child elements before.
///
/// # Errors
///
/// As those of `put_child`.
pub fn take_child<L: Ledger>(
    doc: &DocTree,
    set: &mut Compiled,
    kept: &mut KeptState,
    taken: (&ChildPlace, Outcome),
    steps: &mut Steps<L>,
) -> Result<(), AllocError>
    requires beside { IsBeside set.old doc.now kept.old }
    requires pruned { IsPruned set.old doc.now kept.old taken.0.now taken.1 }
    ensures right { OnOk result (IsRightFor set.old doc.now kept.new) }
    ensures identity { OnOk result (KeepsIdentity kept.old kept.new) }
    ensures same { set.new ≡ set.old }
    ensures least { steps.old ≤ steps.new }
    ensures steps { (siblings : Forest) (governs : ℕ → Governing) → GovernsBelow set.old doc.now (pair_at kept.old.records.slots taken.entry.0.now.parent) taken.entry.0.now.parent governs siblings →
        steps.new ≤ steps.old + (24 * digits (width doc.now taken.entry.0.now.parent + 1) + 1 + 16 * digits (width doc.now taken.entry.0.now.parent + 1) * marked_count set.old doc.now kept.old taken.entry.0.now.parent + 3 * moved kept.old.records.slots governs siblings) }
{
    let (at, outcome) = taken;
    let parent = at.parent;
    let was = kept.children(parent);
    unlist_child(set, kept, at, steps);
    count_out(kept, parent, outcome);
    note_stuck(doc, set, kept, parent, steps);
    settle_rest(doc, set, kept, (parent, &was), steps)
}

/// Makes all records right, where a child element has another name now. Steps are as those of `put_child`.
///
/// # Errors
///
/// As those of `put_child`.
pub fn name_child<L: Ledger>(
    doc: &DocTree,
    set: &mut Compiled,
    kept: &mut KeptState,
    at: &ChildPlace,
    steps: &mut Steps<L>,
) -> Result<(), AllocError>
    requires place { IsPlaceOf doc.now at.now }
    requires beside { IsBeside set.old doc.now kept.old }
    requires renamed { IsRenamed set.old doc.now kept.old at.now }
    ensures right { OnOk result (IsRightFor set.old doc.now kept.new) }
    ensures identity { OnOk result (KeepsIdentity kept.old kept.new) }
    ensures same { set.new ≡ set.old }
    ensures least { steps.old ≤ steps.new }
    ensures steps { (siblings : Forest) (governs : ℕ → Governing) → GovernsBelow set.old doc.now (pair_at kept.old.records.slots at.now.parent) at.now.parent governs siblings →
        steps.new ≤ steps.old + (24 * digits (width doc.now at.now.parent) + 1 + 16 * digits (width doc.now at.now.parent) * marked_count set.old doc.now kept.old at.now.parent + 3 * moved kept.old.records.slots governs siblings) }
{
    let parent = at.parent;
    let was = kept.children(parent);
    relist_child(doc, set, kept, at, steps);
    note_stuck(doc, set, kept, parent, steps);
    settle_named(doc, set, kept, at, steps)?;
    settle_rest(doc, set, kept, (parent, &was), steps)
}
