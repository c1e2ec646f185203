//! Lists by automata over states.

ghost use Rattle.std.specs.Prelude.{◌≡◌, ◌+◌, ◌-◌, ◌*◌, ◌^◌, ◌<◌, ◌≤◌, ℕ, true, List, [], ◌∷◌, ◌++◌, Some, length, map, insert, take, drop, slice_get, slice_set, slice_index, IfOk, OnOk, OnErr};
ghost use Rattle.child_trees.specs.Bits.{bits};
ghost use Rattle.child_trees.specs.Lists.{IsLive};
ghost use Rattle.content_automaton.specs.Modelled.{ModelAutomaton};
ghost use Rattle.content_models.specs.declared.automaton.ContentAutomaton.{ContentAutomaton as ContentAutomatonData};
ghost use Rattle.content_models.specs.declared.automaton.ContentAutomaton.TheVariants.{States};
ghost use Rattle.model_summaries.specs.Maps.{width_of};
ghost use Rattle.model_terms.specs.Symbols.{AreSymbolsBy};
ghost use Rattle.model_terms.specs.Terms.{begins, is_ambivalent_symbol, stuck_in, term_after};
ghost use Rattle.model_lists.specs.Lists.{IsRowList};
ghost use Rattle.model_lists.specs.Inside.{KeepsOthers, KeepsLive, AreShaped, GrowTo, leaf_for};
ghost use Rattle.model_lists.specs.Around.{LeadTo};

use crate::around::{ChildState, Reached};
use crate::automata::states_of;
use crate::handle::ListedChild;
use crate::leaves::{leaf_with, set_at};
use child_trees::{Leaf, SeqId, Seqs};
use content_models::ContentAutomaton;
use model_summaries::RowSummary;
use model_terms::{is_ambivalent_symbol, state_term};
use std::alloc::{AllocError, Global};
use xs_components::TermId;
use xsv_steps::{Ledger, Steps};

/// Makes sure of lists for automata with this dead state.
pub(crate) fn grow(
    alloc: Global,
    rows: &mut Vec<Seqs<RowSummary>>,
    dead: u16,
) -> Result<(), AllocError>
    requires dead { dead < 2 ^ 16 - 1 }
    requires shaped { AreShaped rows.old.items }
    ensures shaped { AreShaped rows.new.items }
    ensures there { OnOk result (dead < length rows.new.items) }
    ensures grown { GrowTo rows.old.items rows.new.items }
{
    'more: while rows.len() <= dead as usize {
        let width = rows.len() as u16 + 1;
        let summary = RowSummary::new(alloc, width)?;
        rows.push(Seqs::new(alloc, summary))?;
    }
    Ok(())
}

/// A new list of child elements with these symbols.
pub(crate) fn build_row<L: Ledger>(
    alloc: Global,
    lists: &mut Seqs<RowSummary>,
    automaton: &ContentAutomaton,
    symbols: &[u32],
    steps: &mut Steps<L>,
) -> Result<SeqId, AllocError>
    requires shape { (a : ModelAutomaton) × (automaton.now ≡ States a) × (lists.old.shape ≡ width_of a) }
    requires symbols { AreSymbolsBy automaton.now symbols.now }
    ensures fresh { IfOk result (λ q. ¬ IsLive lists.old q) }
    ensures list { IfOk result (λ q. IsRowList lists.new q automaton.now symbols.now) }
    ensures others { KeepsLive lists.old lists.new }
    ensures least { steps.old ≤ steps.new }
    ensures steps { steps.new ≤ steps.old + 2 * length symbols.now }
{
    let leaves = row_leaves(alloc, automaton, symbols)?;
    lists.build(leaves, states_of(automaton), steps)
}

/// The leaves of child elements with these symbols.
fn row_leaves(
    alloc: Global,
    automaton: &ContentAutomaton,
    symbols: &[u32],
) -> Result<Vec<Leaf<u32>>, AllocError>
    requires { AreSymbolsBy automaton.now symbols.now }
    ensures { IfOk result (λ leaves. leaves.items ≡ map (leaf_for (λ n. n) (is_ambivalent_symbol automaton.now)) symbols.now) }
{
    let mut leaves = Vec::with_capacity(alloc, symbols.len())?;
    for symbol in symbols {
        leaves.push(leaf_with(*symbol, is_ambivalent_symbol(automaton, *symbol)))?;
    }
    Ok(leaves)
}

/// Puts a child element before a place of a list, or at its end.
pub(crate) fn insert_row<L: Ledger>(
    lists: &mut Seqs<RowSummary>,
    list: SeqId,
    automaton: &ContentAutomaton,
    child: ListedChild,
    steps: &mut Steps<L>,
) -> Result<(), AllocError>
    requires list { (symbols : List ℕ) × IsRowList lists.old list automaton.now symbols × (child.place ≤ length symbols) }
    requires symbol { AreSymbolsBy automaton.now (child.symbol ∷ []) }
    ensures list { OnOk result ((symbols : List ℕ) → IsRowList lists.old list automaton.now symbols → IsRowList lists.new list automaton.now (insert symbols child.place child.symbol)) }
    ensures err { OnErr result (lists.new ≡ lists.old) }
    ensures others { KeepsOthers lists.old lists.new list }
    ensures least { steps.old ≤ steps.new }
    ensures steps { (symbols : List ℕ) → IsRowList lists.old list automaton.now symbols → steps.new ≤ steps.old + 16 * (bits (length symbols + 2) + 1) }
{
    let leaf = leaf_with(child.symbol, is_ambivalent_symbol(automaton, child.symbol));
    lists.insert(list, child.place, leaf, states_of(automaton), steps)?;
    Ok(())
}

/// Writes another symbol in the place of a child element.
pub(crate) fn set_row<L: Ledger>(
    lists: &mut Seqs<RowSummary>,
    list: SeqId,
    automaton: &ContentAutomaton,
    child: ListedChild,
    steps: &mut Steps<L>,
)
    requires list { (symbols : List ℕ) × IsRowList lists.old list automaton.now symbols × (child.place < length symbols) }
    requires symbol { AreSymbolsBy automaton.now (child.symbol ∷ []) }
    ensures list { (symbols : List ℕ) → IsRowList lists.old list automaton.now symbols → IsRowList lists.new list automaton.now (slice_set symbols child.place child.symbol) }
    ensures others { KeepsOthers lists.old lists.new list }
    ensures least { steps.old ≤ steps.new }
    ensures steps { (symbols : List ℕ) → IsRowList lists.old list automaton.now symbols → steps.new ≤ steps.old + 16 * (bits (length symbols + 1) + 1) }
{
    let leaf = leaf_with(child.symbol, is_ambivalent_symbol(automaton, child.symbol));
    set_at(lists, list, child.place, leaf, states_of(automaton), steps);
}

/// The place where the child elements of a list get stuck, where it has so many.
pub(crate) fn stuck_row<L: Ledger>(
    lists: &Seqs<RowSummary>,
    list: SeqId,
    automaton: &ContentAutomaton,
    count: u32,
    steps: &mut Steps<L>,
) -> Option<u32>
    requires { (symbols : List ℕ) × IsRowList lists.now list automaton.now symbols × (count ≡ length symbols) }
    ensures stuck { (symbols : List ℕ) → IsRowList lists.now list automaton.now symbols → result ≡ stuck_in (Some automaton.now) symbols }
    ensures least { steps.old ≤ steps.new }
    ensures steps { (symbols : List ℕ) → IsRowList lists.now list automaton.now symbols → steps.new ≤ steps.old + (8 * (bits (length symbols + 1) + 1) + 1) }
{
    let states = states_of(automaton);
    let start = states.start();
    if let Some(place) = lists.descend(list, start, steps) {
        return Some(place);
    }
    let end = lists.whole(list, start, steps);
    if states.accepting(end) {
        None
    } else {
        Some(count)
    }
}

/// The term at the place that ends every marked prefix, of a child with which those before it begin a word.
pub(crate) fn term_row<L: Ledger>(
    lists: &Seqs<RowSummary>,
    list: SeqId,
    automaton: &ContentAutomaton,
    child: ListedChild,
    steps: &mut Steps<L>,
) -> Option<TermId>
    requires { (symbols : List ℕ) × IsRowList lists.now list automaton.now symbols × (child.place < length symbols) × (slice_index symbols child.place ≡ child.symbol) × AreSymbolsBy automaton.now symbols }
    ensures term { (symbols : List ℕ) → IsRowList lists.now list automaton.now symbols → AreSymbolsBy automaton.now (take child.place symbols ++ child.symbol ∷ []) →
        begins automaton.now (take child.place symbols ++ child.symbol ∷ []) ≡ true → result ≡ term_after automaton.now (take child.place symbols) child.symbol }
    ensures least { steps.old ≤ steps.new }
    ensures steps { (symbols : List ℕ) → IsRowList lists.now list automaton.now symbols → steps.new ≤ steps.old + 8 * (bits (length symbols + 1) + 1) }
{
    let states = states_of(automaton);
    let before = lists.upto(list, child.place, states.start(), steps);
    state_term(states, before, child.symbol)
}

/// Where the child elements before a place lead to.
pub(crate) fn row_upto<L: Ledger>(
    lists: &Seqs<RowSummary>,
    list: SeqId,
    automaton: &ContentAutomaton,
    place: u32,
    steps: &mut Steps<L>,
) -> ChildState
    requires { (symbols : List ℕ) × IsRowList lists.now list automaton.now symbols × (place ≤ length symbols) }
    ensures state { (symbols : List ℕ) → IsRowList lists.now list automaton.now symbols → LeadTo automaton.now (take place symbols) result }
    ensures least { steps.old ≤ steps.new }
    ensures steps { (symbols : List ℕ) → IsRowList lists.now list automaton.now symbols → steps.new ≤ steps.old + 8 * (bits (length symbols + 1) + 1) }
{
    let state = lists.upto(list, place, states_of(automaton).start(), steps);
    ChildState {
        reached: Reached::Row(state),
    }
}

/// Where the child elements from a place on lead to, after others that lead to a state.
pub(crate) fn row_from<L: Ledger>(
    lists: &Seqs<RowSummary>,
    list: SeqId,
    place: u32,
    state: ChildState,
    steps: &mut Steps<L>,
) -> ChildState
    requires { (a : ContentAutomatonData) × (before : List ℕ) × (symbols : List ℕ) × LeadTo a before state × IsRowList lists.now list a symbols × (place ≤ length symbols) }
    ensures state { (a : ContentAutomatonData) (before symbols : List ℕ) → LeadTo a before state → IsRowList lists.now list a symbols → LeadTo a (before ++ drop place symbols) result }
    ensures least { steps.old ≤ steps.new }
    ensures steps { (a : ContentAutomatonData) (symbols : List ℕ) → IsRowList lists.now list a symbols → steps.new ≤ steps.old + 8 * (bits (length symbols + 1) + 1) }
{
    let after = lists.from(list, place, state.row(), steps);
    ChildState {
        reached: Reached::Row(after),
    }
}
