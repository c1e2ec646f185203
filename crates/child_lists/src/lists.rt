//! Edits of a list, and what is read of it.

ghost use Rattle.std.specs.Prelude.{◌≡◌, ◌≢◌, ◌+◌, ◌*◌, ◌<◌, ◌≤◌, ℕ, List, Option, true, Some, length, remove, slice_set, IfOk, OnOk};
ghost use Rattle.child_trees.specs.Bits.{bits};
ghost use Rattle.tree_rows.specs.Forest.{Document};
ghost use Rattle.xs_components.specs.declared.common.TypeId.{TypeId as TypeIdData};
ghost use Rattle.content_automaton.specs.Terms.{name_at as expanded_at};
ghost use Rattle.content_automaton.specs.Symbols.{symbol_of};
ghost use Rattle.content_models.specs.Built.{symbols_of};
ghost use Rattle.compiled_schema.specs.Usable.{IsUsable};
ghost use Rattle.model_terms.specs.Terms.{stuck_in, term_in};
ghost use Rattle.doc_nodes.specs.Nodes.{Lacks, Nodes, element_children, is_element_at};
ghost use Rattle.doc_changes.specs.Stands.{StandsFor};
ghost use Rattle.doc_changes.specs.Readers.{name_at};
ghost use Rattle.kept_slots.specs.Slots.{at as slot_at};
ghost use Rattle.child_listing.specs.from_kept_records.Books.{HaveOwnLists};
ghost use Rattle.child_listing.specs.from_kept_records.Fit.{models_of};
ghost use Rattle.child_listing.specs.from_kept_records.Slots.{IsMade, kept_at, pair_at};
ghost use Rattle.child_listing.specs.from_kept_state.Kept.{CanGovern, IsBeside};
ghost use Rattle.child_listing.specs.from_kept_state.KeptChildren.{KeptChildren as KeptChildrenData};
ghost use Rattle.child_listing.specs.from_kept_judging.Judged.{pair_by};
ghost use Rattle.child_lists.specs.Places.{IsPlaceOf};
ghost use Rattle.child_lists.specs.Family.{AreCounted, AreGivenBut, IsAttributed, IsListedBy, IsMidway, marked_places};
ghost use Rattle.child_lists.specs.Family as family;

use crate::place::{ChildPlace, list_of};
use child_listing::kept_judging::pair_below;
use child_listing::kept_state::{Governed, KeptState};
use compiled_schema::Compiled;
use content_models::ContentAutomaton;
use doc_tree::DocTree;
use model_lists::ListedChild;
use std::alloc::AllocError;
use xs_components::TermId;
use xsv_steps::{Ledger, Steps};

// A child element as it is listed.
fn listed(
    doc: &DocTree,
    set: &Compiled,
    automaton: &ContentAutomaton,
    at: &ChildPlace,
) -> ListedChild
    requires usable { IsUsable set.now }
    requires stands { (d : Document) × StandsFor set.now.names doc.now d }
    requires model { (of : Option TypeIdData) × (models_of set.now of ≡ Some automaton.now) }
    requires element { is_element_at doc.now at.now.node ≡ true }
    ensures place { result.place ≡ at.now.place }
    ensures symbol { result.symbol ≡ symbol_of set.now.names (symbols_of automaton.now) (expanded_at set.now.names (name_at doc.now at.now.node)) }
{
    let Some(name) = doc.name(at.node) else {
        unreachable!()
    };
    ListedChild {
        place: at.place,
        symbol: automaton.symbol(&set.names, name),
    }
}

/// Puts a child element into the list of its parent. It takes at most `16 * (bits(n + 1) + 1)` steps, where the parent has `n` child
/// elements.
///
/// # Errors
///
/// `AllocError` is want of memory.
pub fn list_child<L: Ledger>(
    doc: &DocTree,
    set: &Compiled,
    kept: &mut KeptState,
    at: &ChildPlace,
    steps: &mut Steps<L>,
) -> Result<(), AllocError>
    requires place { IsPlaceOf doc.now at.now }
    requires midway { (was : KeptChildrenData) × (waiting : List ℕ) × IsMidway set.now doc.now kept.old at.now.parent was waiting }
    requires listed { IsListedBy set.now kept.old at.now.parent (remove (family.symbols_of set.now doc.now kept.old at.now.parent) at.now.place) }
    ensures midway { OnOk result ((was : KeptChildrenData) (waiting : List ℕ) → IsMidway set.now doc.now kept.old at.now.parent was waiting → IsMidway set.now doc.now kept.new at.now.parent was waiting) }
    ensures listed { OnOk result (IsListedBy set.now kept.new at.now.parent (family.symbols_of set.now doc.now kept.new at.now.parent)) }
    ensures records { kept.new.records ≡ kept.old.records }
    ensures least { steps.old ≤ steps.new }
    ensures steps { steps.new ≤ steps.old + 16 * (bits (length (element_children doc.now at.now.parent) + 1) + 1) }
{
    match list_of(set, kept, at.parent) {
        None => Ok(()),
        Some((list, automaton)) => {
            let child = listed(doc, set, automaton, at);
            kept.lists.insert(list, automaton, child, steps)
        }
    }
}

/// Lists a child element under its name as it is now. It takes at most `16 * (bits(n + 1) + 1)` steps, where the parent has `n` child
/// elements.
pub fn relist_child<L: Ledger>(
    doc: &DocTree,
    set: &Compiled,
    kept: &mut KeptState,
    at: &ChildPlace,
    steps: &mut Steps<L>,
)
    requires place { IsPlaceOf doc.now at.now }
    requires midway { (was : KeptChildrenData) × (waiting : List ℕ) × IsMidway set.now doc.now kept.old at.now.parent was waiting }
    requires listed { (symbol : ℕ) × IsListedBy set.now kept.old at.now.parent (slice_set (family.symbols_of set.now doc.now kept.old at.now.parent) at.now.place symbol) }
    ensures midway { (was : KeptChildrenData) (waiting : List ℕ) → IsMidway set.now doc.now kept.old at.now.parent was waiting → IsMidway set.now doc.now kept.new at.now.parent was waiting }
    ensures listed { IsListedBy set.now kept.new at.now.parent (family.symbols_of set.now doc.now kept.new at.now.parent) }
    ensures records { kept.new.records ≡ kept.old.records }
    ensures least { steps.old ≤ steps.new }
    ensures steps { steps.new ≤ steps.old + 16 * (bits (length (element_children doc.now at.now.parent) + 1) + 1) }
{
    if let Some((list, automaton)) = list_of(set, kept, at.parent) {
        let child = listed(doc, set, automaton, at);
        kept.lists.set(list, automaton, child, steps);
    }
}

/// Takes a child element out of the list of its parent. It takes at most `16 * (bits(n + 1) + 1)` steps, where the list had `n` child
/// elements.
pub fn unlist_child<L: Ledger>(
    set: &Compiled,
    kept: &mut KeptState,
    at: &ChildPlace,
    steps: &mut Steps<L>,
)
    requires made { IsMade kept.old.records.slots at.now.parent }
    requires own { HaveOwnLists kept.old.lists kept.old.records.slots }
    requires listed { (symbols : List ℕ) × IsListedBy set.now kept.old at.now.parent symbols × (at.now.place < length symbols) }
    ensures midway { (ns : Nodes) (was : KeptChildrenData) (waiting : List ℕ) → IsMidway set.now ns kept.old at.now.parent was waiting → IsMidway set.now ns kept.new at.now.parent was waiting }
    ensures listed { (symbols : List ℕ) → IsListedBy set.now kept.old at.now.parent symbols → IsListedBy set.now kept.new at.now.parent (remove symbols at.now.place) }
    ensures records { kept.new.records ≡ kept.old.records }
    ensures least { steps.old ≤ steps.new }
    ensures steps { (symbols : List ℕ) → IsListedBy set.now kept.old at.now.parent symbols → steps.new ≤ steps.old + 16 * (bits (length symbols + 1) + 1) }
{
    if let Some((list, _)) = list_of(set, kept, at.parent) {
        kept.lists.remove(list, at.place, steps);
    }
}

// The number of an element's child elements.
fn child_elements(doc: &DocTree, node: u32) -> u32
    ensures { result ≡ length (element_children doc.now node) }
{
    doc.elements_upto(node, doc.child_count(node))
}

// The place where the child elements of an element get stuck. It takes at most `8 * (bits(n + 1) + 1) + 1` steps, where there are `n`.
fn stuck_place<L: Ledger>(
    doc: &DocTree,
    set: &Compiled,
    kept: &KeptState,
    parent: u32,
    steps: &mut Steps<L>,
) -> Option<u32>
    requires made { IsMade kept.now.records.slots parent }
    requires listed { IsListedBy set.now kept.now parent (family.symbols_of set.now doc.now kept.now parent) }
    ensures stuck { result ≡ stuck_in (family.model_of set.now kept.now parent) (family.symbols_of set.now doc.now kept.now parent) }
    ensures least { steps.old ≤ steps.new }
    ensures steps { steps.new ≤ steps.old + (8 * (bits (length (element_children doc.now parent) + 1) + 1) + 1) }
{
    match list_of(set, kept, parent) {
        None => None,
        Some((list, automaton)) => kept
            .lists
            .stuck(list, automaton, child_elements(doc, parent), steps),
    }
}

/// Writes where the child elements of an element get stuck. It takes at most `8 * (bits(n + 1) + 1) + 1` steps, where there are `n`.
pub fn note_stuck<L: Ledger>(
    doc: &DocTree,
    set: &Compiled,
    kept: &mut KeptState,
    parent: u32,
    steps: &mut Steps<L>,
)
    requires midway { (was : KeptChildrenData) × (waiting : List ℕ) × IsMidway set.now doc.now kept.old parent was waiting }
    requires listed { IsListedBy set.now kept.old parent (family.symbols_of set.now doc.now kept.old parent) }
    ensures midway { (was : KeptChildrenData) (waiting : List ℕ) → IsMidway set.now doc.now kept.old parent was waiting → IsMidway set.now doc.now kept.new parent was waiting }
    ensures attributed { IsAttributed set.now doc.now kept.new parent }
    ensures given { (places : List ℕ) → AreGivenBut set.now doc.now kept.old parent places → AreGivenBut set.now doc.now kept.new parent places }
    ensures pair { pair_at kept.new.records.slots parent ≡ pair_at kept.old.records.slots parent }
    ensures counted { (children : List ℕ) → AreCounted kept.old parent children → AreCounted kept.new parent children }
    ensures rest { (n : ℕ) → n ≢ parent → slot_at kept.new.records.slots n ≡ slot_at kept.old.records.slots n }
    ensures identity { (n : ℕ) → (kept_at kept.new.records.slots n).identity ≡ (kept_at kept.old.records.slots n).identity }
    ensures least { steps.old ≤ steps.new }
    ensures steps { steps.new ≤ steps.old + (8 * (bits (length (element_children doc.now parent) + 1) + 1) + 1) }
{
    let mut children = kept.children(parent);
    children.stuck = stuck_place(doc, set, kept, parent, steps);
    kept.set_children(parent, children);
}

// The term that a child element is attributed to. It takes at most `8 * (bits(n + 1) + 1)` steps, where its parent has `n` child
// elements, and none where its name is not ambivalent.
fn term_of<L: Ledger>(
    doc: &DocTree,
    set: &Compiled,
    kept: &KeptState,
    at: &ChildPlace,
    steps: &mut Steps<L>,
) -> Option<TermId>
    requires place { IsPlaceOf doc.now at.now }
    requires made { IsMade kept.now.records.slots at.now.parent }
    requires beside { IsBeside set.now doc.now kept.now }
    requires attributed { IsAttributed set.now doc.now kept.now at.now.parent }
    ensures term { result ≡ term_in (family.model_of set.now kept.now at.now.parent) (family.symbols_of set.now doc.now kept.now at.now.parent) at.now.place }
    ensures least { steps.old ≤ steps.new }
    ensures steps { steps.new ≤ steps.old + 8 * (bits (length (element_children doc.now at.now.parent) + 1) + 1) }
    ensures none { Lacks at.now.place (marked_places (family.model_of set.now kept.now at.now.parent) (family.symbols_of set.now doc.now kept.now at.now.parent)) → steps.new ≡ steps.old }
{
    match list_of(set, kept, at.parent) {
        None => None,
        Some((list, automaton)) => {
            let child = listed(doc, set, automaton, at);
            let stuck = kept.children(at.parent).stuck;
            kept.lists.term(list, automaton, child, stuck, steps)
        }
    }
}

/// A child element with what governs it. Steps are as those of its term.
///
/// # Errors
///
/// `AllocError` is want of memory.
pub fn govern_at<L: Ledger>(
    doc: &DocTree,
    set: &Compiled,
    kept: &KeptState,
    at: &ChildPlace,
    steps: &mut Steps<L>,
) -> Result<Governed, AllocError>
    requires place { IsPlaceOf doc.now at.now }
    requires made { IsMade kept.now.records.slots at.now.parent }
    requires beside { IsBeside set.now doc.now kept.now }
    requires attributed { IsAttributed set.now doc.now kept.now at.now.parent }
    ensures node { IfOk result (λ child. child.node ≡ at.now.node) }
    ensures pair { IfOk result (λ child. child.pair ≡ pair_by set.now doc.now (pair_at kept.now.records.slots at.now.parent) at.now.parent at.now.place at.now.node) }
    ensures governed { IfOk result (λ child. CanGovern set.now.parts child.pair) }
    ensures least { steps.old ≤ steps.new }
    ensures steps { steps.new ≤ steps.old + 8 * (bits (length (element_children doc.now at.now.parent) + 1) + 1) }
    ensures none { Lacks at.now.place (marked_places (family.model_of set.now kept.now at.now.parent) (family.symbols_of set.now doc.now kept.now at.now.parent)) → steps.new ≡ steps.old }
{
    let term = term_of(doc, set, kept, at, steps);
    let pair = kept.pair(at.parent);
    pair_below(kept.alloc, doc, set, pair, (at.node, term))
}
