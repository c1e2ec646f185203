//! From an element downwards, as far as what governs is another.

ghost use Rattle.std.specs.Prelude.{◌≡◌, ◌≤◌, ◌+◌, ◌*◌, ℕ, List, [], ◌∷◌, Some, None, map, length, slice_get, true, IfOk, OnOk};
ghost use Rattle.tree_rows.specs.Forest.{Forest, Document, count};
ghost use Rattle.assess_records.specs.Counts.{counts_of};
ghost use Rattle.elem_governing.specs.declared.pairs.Governing.{Governing};
ghost use Rattle.compiled_schema.specs.Usable.{set_of};
ghost use Rattle.model_lists.specs.Lists.{IsLive, KeepLists};
ghost use Rattle.model_lists.specs.declared.handle.ModelList.{ModelList as ModelListData};
ghost use Rattle.doc_nodes.specs.Nodes.{Has, element_children, is_element_at};
ghost use Rattle.doc_changes.specs.Stands.{StandsFor};
ghost use Rattle.doc_changes.specs.Readers.{element_numbers};
ghost use Rattle.kept_slots.specs.Slots.{at};
ghost use Rattle.child_listing.specs.from_kept_records.Slots.{IsMade, pair_at, kept_at, record_at};
ghost use Rattle.child_listing.specs.from_kept_records.Fit.{models_of, AboveIn, IsGathered, IsTop};
ghost use Rattle.child_listing.specs.from_kept_state.Kept.{CanGovern, FitBut, IsBeside};
ghost use Rattle.child_listing.specs.from_kept_state.Governed.{Governed as GovernedData};
ghost use Rattle.child_listing.specs.from_kept_judging.Judged.{AreChildren, pair_by};
ghost use Rattle.child_listing.specs.Children.{AreGoverned, IsFresh, IsSpare};
ghost use Rattle.kept_forgetting.specs.Below.{IsBelow, KeepsBut};
ghost use Rattle.kept_below.specs.Below.{AreAbove, IsMadeAnew, IsSettled, KeepsIdentity};
ghost use Rattle.kept_below.specs.Moved.{AreGivenDown, moved};

use assess_records::ChildCounts;
use child_listing::kept_judging::{judge, keep_judged, pair_of_root};
use child_listing::kept_state::{Governed, KeptChildren, KeptState};
use child_listing::list_children;
use compiled_schema::Compiled;
use doc_tree::DocTree;
use model_lists::{ModelList, ModelLists};
use std::alloc::AllocError;
use xsv_steps::{Ledger, Steps};

// The list of the child elements of an element, if it has one.
fn list_of(kept: &KeptState, node: u32) -> Option<ModelList>
    ensures { result ≡ (kept_at kept.now.records.slots node).list }
{
    match kept.records.get(node) {
        None => None,
        Some(own) => own.list,
    }
}

// Gives a list back, if there is one.
fn give_back(lists: &mut ModelLists, list: Option<ModelList>)
    requires { (h : ModelListData) → list ≡ Some h → IsLive lists.old h }
    ensures { KeepLists lists.old lists.new (λ h. list ≡ Some h) }
{
    if let Some(list) = list {
        lists.give(list);
    }
}

// Keeps an element that is governed so and has such child elements, with its records, and gives back the list that it had.
fn keep_anew(
    doc: &DocTree,
    set: &mut Compiled,
    kept: &mut KeptState,
    element: &Governed,
    children: KeptChildren,
) -> Result<(), AllocError>
    requires beside { IsBeside set.old doc.now kept.old }
    requires element { is_element_at doc.now element.now.node ≡ true }
    requires governed { CanGovern set.old.parts element.now.pair }
    requires spare { IsSpare kept.old children.list }
    ensures made { OnOk result (IsMadeAnew set.old doc.now kept.old kept.new element.now children) }
    ensures beside { OnOk result (IsBeside set.old doc.now kept.new) }
    ensures same { set.new ≡ set.old }
{
    let list = list_of(kept, element.node);
    keep_judged(doc, set, kept, element, children)?;
    give_back(&mut kept.lists, list);
    Ok(())
}

// Governs these child elements of one that waits so, and counts what they come to.
#[cycle(below)]
fn settle_all<L: Ledger>(
    doc: &DocTree,
    set: &mut Compiled,
    kept: &mut KeptState,
    children: &[Governed],
    steps: &mut Steps<L>,
) -> Result<ChildCounts, AllocError>
    requires beside { IsBeside set.old doc.now kept.old }
    requires fit { (parent : GovernedData) × (waiting : List ℕ) × AreGoverned set.old doc.now parent children.now × (is_element_at doc.now parent.node ≡ true) × FitBut set.old doc.now kept.old (parent.node ∷ waiting) × AreAbove doc.now parent.node waiting }
    ensures governed { OnOk result ((child : GovernedData) → Has child children.now → IsMade kept.new.records.slots child.node × (pair_at kept.new.records.slots child.node ≡ child.pair)) }
    ensures counts { IfOk result (λ counts. counts ≡ counts_of (map (λ child. record_at kept.new.records.slots child.node) children.now)) }
    ensures fit { OnOk result ((parent : GovernedData) (waiting : List ℕ) → AreGoverned set.old doc.now parent children.now → FitBut set.old doc.now kept.old (parent.node ∷ waiting) → FitBut set.old doc.now kept.new (parent.node ∷ waiting)) }
    ensures rest { OnOk result ((parent : GovernedData) → AreGoverned set.old doc.now parent children.now → KeepsBut (IsBelow doc.now parent.node) kept.old kept.new) }
    ensures identity { OnOk result (KeepsIdentity kept.old kept.new) }
    ensures beside { OnOk result (IsBeside set.old doc.now kept.new) }
    ensures same { set.new ≡ set.old }
    ensures least { steps.old ≤ steps.new }
    ensures steps { (siblings : Forest) (governs : ℕ → Governing) → AreGivenDown set.old doc.now governs siblings → element_numbers siblings ≡ map (λ child. child.node) children.now →
        ((child : GovernedData) → Has child children.now → governs child.node ≡ child.pair) → steps.new ≤ steps.old + 3 * moved kept.old.records.slots governs siblings }
{
    let mut counts = ChildCounts::new();
    for child in children {
        settle_below(doc, set, kept, child, steps)?;
        let outcome = kept.outcome(child.node);
        counts.add(outcome.validity, outcome.attempted);
    }
    Ok(counts)
}

// Makes what is kept of the child elements of an element that waits, is to be governed so, and of all below.
#[cycle(below)]
fn settle_children<L: Ledger>(
    doc: &DocTree,
    set: &mut Compiled,
    kept: &mut KeptState,
    parent: &Governed,
    steps: &mut Steps<L>,
) -> Result<KeptChildren, AllocError>
    requires beside { IsBeside set.old doc.now kept.old }
    requires element { is_element_at doc.now parent.now.node ≡ true }
    requires fit { (waiting : List ℕ) × FitBut set.old doc.now kept.old (parent.now.node ∷ waiting) × AreAbove doc.now parent.now.node waiting }
    ensures children { IfOk result (λ children. AreChildren set.old doc.now kept.new parent.now.node parent.now.pair children) }
    ensures spare { IfOk result (λ children. IsSpare kept.new children.list) }
    ensures fresh { IfOk result (λ children. IsFresh kept.old.lists children.list) }
    ensures fit { OnOk result ((waiting : List ℕ) → FitBut set.old doc.now kept.old (parent.now.node ∷ waiting) → FitBut set.old doc.now kept.new (parent.now.node ∷ waiting)) }
    ensures rest { OnOk result (KeepsBut (IsBelow doc.now parent.now.node) kept.old kept.new) }
    ensures identity { OnOk result (KeepsIdentity kept.old kept.new) }
    ensures beside { OnOk result (IsBeside set.old doc.now kept.new) }
    ensures same { set.new ≡ set.old }
    ensures least { steps.old ≤ steps.new }
    ensures steps { (siblings : Forest) (governs : ℕ → Governing) → AreGivenDown set.old doc.now governs siblings → element_numbers siblings ≡ element_children doc.now parent.now.node →
        ((place child : ℕ) → slice_get (element_children doc.now parent.now.node) place ≡ Some child → governs child ≡ pair_by set.old doc.now parent.now.pair parent.now.node place child) →
        steps.new ≤ steps.old + 3 * (length (element_numbers siblings) + moved kept.old.records.slots governs siblings) }
{
    let listing = list_children(doc, set, kept, parent, steps)?;
    let counts = settle_all(doc, set, kept, listing.children.as_slice(), steps)?;
    Ok(KeptChildren {
        stuck: listing.stuck,
        counts,
        list: listing.list,
    })
}

/// Governs an element so, and judges it anew. Where its type is another, or nothing is kept of it, all below it follows. It takes at
/// most three steps for each child element of an element whose type is another, or of which nothing was kept.
///
/// # Errors
///
/// `AllocError` is want of memory, or there are too many codes.
#[cycle(below)]
pub fn settle_again<L: Ledger>(
    doc: &DocTree,
    set: &mut Compiled,
    kept: &mut KeptState,
    element: &Governed,
    steps: &mut Steps<L>,
) -> Result<(), AllocError>
    requires beside { IsBeside set.old doc.now kept.old }
    requires element { is_element_at doc.now element.now.node ≡ true }
    requires governed { CanGovern set.old.parts element.now.pair }
    requires gathered { IsMade kept.old.records.slots element.now.node → (pair_at kept.old.records.slots element.now.node).of ≡ element.now.pair.of →
        IsGathered (set_of set.old) (models_of set.old) doc.now kept.old.records.slots kept.old.lists element.now.node }
    requires fit { (waiting : List ℕ) × FitBut set.old doc.now kept.old (element.now.node ∷ waiting) × AboveIn doc.now element.now.node waiting × AreAbove doc.now element.now.node waiting }
    ensures settled { OnOk result (IsSettled doc.now kept.old kept.new element.now) }
    ensures fit { OnOk result ((waiting : List ℕ) → FitBut set.old doc.now kept.old (element.now.node ∷ waiting) → AboveIn doc.now element.now.node waiting → FitBut set.old doc.now kept.new waiting) }
    ensures identity { OnOk result (KeepsIdentity kept.old kept.new) }
    ensures beside { OnOk result (IsBeside set.old doc.now kept.new) }
    ensures same { set.new ≡ set.old }
    ensures least { steps.old ≤ steps.new }
    ensures steps { (siblings : Forest) (governs : ℕ → Governing) → AreGivenDown set.old doc.now governs siblings → element_numbers siblings ≡ element.now.node ∷ [] →
        governs element.now.node ≡ element.now.pair → steps.new ≤ steps.old + 3 * moved kept.old.records.slots governs siblings }
{
    if kept.is_typed(element) {
        return judge(doc, set, kept, element);
    }
    let children = settle_children(doc, set, kept, element, steps)?;
    keep_anew(doc, set, kept, element, children)
}

/// Governs an element so, whose parent waits. Where it is not so already, it is judged anew, and all below it follows as far as it
/// must. It takes as many steps as `settle_again`.
///
/// # Errors
///
/// As those of `settle_again`.
#[cycle(below)]
pub fn settle_below<L: Ledger>(
    doc: &DocTree,
    set: &mut Compiled,
    kept: &mut KeptState,
    element: &Governed,
    steps: &mut Steps<L>,
) -> Result<(), AllocError>
    requires beside { IsBeside set.old doc.now kept.old }
    requires element { is_element_at doc.now element.now.node ≡ true }
    requires governed { CanGovern set.old.parts element.now.pair }
    requires fit { (waiting : List ℕ) × FitBut set.old doc.now kept.old waiting × AboveIn doc.now element.now.node waiting × AreAbove doc.now element.now.node waiting }
    ensures settled { OnOk result (IsSettled doc.now kept.old kept.new element.now) }
    ensures fit { OnOk result ((waiting : List ℕ) → FitBut set.old doc.now kept.old waiting → AboveIn doc.now element.now.node waiting → FitBut set.old doc.now kept.new waiting) }
    ensures identity { OnOk result (KeepsIdentity kept.old kept.new) }
    ensures beside { OnOk result (IsBeside set.old doc.now kept.new) }
    ensures same { set.new ≡ set.old }
    ensures least { steps.old ≤ steps.new }
    ensures steps { (siblings : Forest) (governs : ℕ → Governing) → AreGivenDown set.old doc.now governs siblings → element_numbers siblings ≡ element.now.node ∷ [] →
        governs element.now.node ≡ element.now.pair → steps.new ≤ steps.old + 3 * moved kept.old.records.slots governs siblings }
{
    if kept.is_governed(element) {
        return Ok(());
    }
    settle_again(doc, set, kept, element, steps)
}

/// Keeps all elements of a document of which nothing is kept yet. It takes at most three steps for each node.
///
/// # Errors
///
/// As those of `settle_again`.
pub fn open_records<L: Ledger>(
    doc: &DocTree,
    set: &mut Compiled,
    kept: &mut KeptState,
    steps: &mut Steps<L>,
) -> Result<(), AllocError>
    requires beside { IsBeside set.old doc.now kept.old }
    requires none { (n : ℕ) → at kept.old.records.slots n ≡ None }
    ensures fit { OnOk result (FitBut set.old doc.now kept.new []) }
    ensures top { OnOk result (IsTop (set_of set.old) doc.now kept.new.records.slots) }
    ensures beside { OnOk result (IsBeside set.old doc.now kept.new) }
    ensures same { set.new ≡ set.old }
    ensures least { steps.old ≤ steps.new }
    ensures steps { (d : Document) → StandsFor set.old.names doc.now d → steps.new ≤ steps.old + 3 * count d.forest }
{
    let root = pair_of_root(kept.alloc, doc, set)?;
    settle_below(doc, set, kept, &root, steps)
}
