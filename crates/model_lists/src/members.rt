//! Lists by the automata of `all`s.

ghost use Rattle.std.specs.Prelude.{◌≡◌, ◌+◌, ◌-◌, ◌*◌, ◌^◌, ◌<◌, ◌≤◌, ℕ, true, List, [], ◌∷◌, ◌++◌, Some, length, map, insert, take, drop, slice_get, slice_set, slice_index, IfOk, OnOk, OnErr};
ghost use Rattle.child_trees.specs.Bits.{bits};
ghost use Rattle.child_trees.specs.Lists.{IsLive};
ghost use Rattle.content_models.specs.Modelled.{AllModel, letter_of};
ghost use Rattle.content_models.specs.declared.automaton.ContentAutomaton.{ContentAutomaton as ContentAutomatonData};
ghost use Rattle.content_models.specs.declared.automaton.ContentAutomaton.TheVariants.{All};
ghost use Rattle.model_terms.specs.Symbols.{AreSymbolsBy};
ghost use Rattle.model_terms.specs.Terms.{is_ambivalent_symbol, stuck_in};
ghost use Rattle.model_lists.specs.Lists.{IsMemberList};
ghost use Rattle.model_lists.specs.Inside.{KeepsOthers, KeepsLive, leaf_for};
ghost use Rattle.model_lists.specs.Around.{LeadTo};

use crate::around::{ChildState, Reached};
use crate::automata::members_of;
use crate::handle::ListedChild;
use crate::leaves::{leaf_with, set_at};
use child_trees::{Leaf, SeqId, Seqs};
use content_models::{AllAutomaton, ContentAutomaton};
use model_summaries::AllSummary;
use model_terms::is_ambivalent_symbol;
use std::alloc::{AllocError, Global};
use xsv_steps::{Ledger, Steps};

/// A new list of child elements with these symbols.
pub(crate) fn build_member<L: Ledger>(
    alloc: Global,
    lists: &mut Seqs<AllSummary>,
    automaton: &ContentAutomaton,
    symbols: &[u32],
    steps: &mut Steps<L>,
) -> Result<SeqId, AllocError>
    requires all { (a : AllModel) × (automaton.now ≡ All a) }
    requires symbols { AreSymbolsBy automaton.now symbols.now }
    ensures fresh { IfOk result (λ q. ¬ IsLive lists.old q) }
    ensures list { IfOk result (λ q. IsMemberList lists.new q automaton.now symbols.now) }
    ensures others { KeepsLive lists.old lists.new }
    ensures least { steps.old ≤ steps.new }
    ensures steps { steps.new ≤ steps.old + 2 * length symbols.now }
{
    let leaves = member_leaves(alloc, automaton, members_of(automaton), symbols)?;
    lists.build(leaves, &(), steps)
}

/// The leaves of child elements with these symbols.
fn member_leaves(
    alloc: Global,
    automaton: &ContentAutomaton,
    members: &AllAutomaton,
    symbols: &[u32],
) -> Result<Vec<Leaf<u16>>, AllocError>
    requires { AreSymbolsBy automaton.now symbols.now }
    ensures { IfOk result (λ leaves. leaves.items ≡ map (leaf_for (letter_of members.now) (is_ambivalent_symbol automaton.now)) symbols.now) }
{
    let mut leaves = Vec::with_capacity(alloc, symbols.len())?;
    for symbol in symbols {
        let marked = is_ambivalent_symbol(automaton, *symbol);
        leaves.push(leaf_with(members.letter(*symbol), marked))?;
    }
    Ok(leaves)
}

/// Puts a child element before a place of a list, or at its end.
pub(crate) fn insert_member<L: Ledger>(
    lists: &mut Seqs<AllSummary>,
    list: SeqId,
    automaton: &ContentAutomaton,
    child: ListedChild,
    steps: &mut Steps<L>,
) -> Result<(), AllocError>
    requires list { (symbols : List ℕ) × IsMemberList lists.old list automaton.now symbols × (child.place ≤ length symbols) }
    requires symbol { AreSymbolsBy automaton.now (child.symbol ∷ []) }
    ensures list { OnOk result ((symbols : List ℕ) → IsMemberList lists.old list automaton.now symbols → IsMemberList lists.new list automaton.now (insert symbols child.place child.symbol)) }
    ensures err { OnErr result (lists.new ≡ lists.old) }
    ensures others { KeepsOthers lists.old lists.new list }
    ensures least { steps.old ≤ steps.new }
    ensures steps { (symbols : List ℕ) → IsMemberList lists.old list automaton.now symbols → steps.new ≤ steps.old + 16 * (bits (length symbols + 2) + 1) }
{
    let marked = is_ambivalent_symbol(automaton, child.symbol);
    let leaf = leaf_with(members_of(automaton).letter(child.symbol), marked);
    lists.insert(list, child.place, leaf, &(), steps)?;
    Ok(())
}

/// Writes another symbol in the place of a child element.
pub(crate) fn set_member<L: Ledger>(
    lists: &mut Seqs<AllSummary>,
    list: SeqId,
    automaton: &ContentAutomaton,
    child: ListedChild,
    steps: &mut Steps<L>,
)
    requires list { (symbols : List ℕ) × IsMemberList lists.old list automaton.now symbols × (child.place < length symbols) }
    requires symbol { AreSymbolsBy automaton.now (child.symbol ∷ []) }
    ensures list { (symbols : List ℕ) → IsMemberList lists.old list automaton.now symbols → IsMemberList lists.new list automaton.now (slice_set symbols child.place child.symbol) }
    ensures others { KeepsOthers lists.old lists.new list }
    ensures least { steps.old ≤ steps.new }
    ensures steps { (symbols : List ℕ) → IsMemberList lists.old list automaton.now symbols → steps.new ≤ steps.old + 16 * (bits (length symbols + 1) + 1) }
{
    let marked = is_ambivalent_symbol(automaton, child.symbol);
    let leaf = leaf_with(members_of(automaton).letter(child.symbol), marked);
    set_at(lists, list, child.place, leaf, &(), steps);
}

/// The place where the child elements of a list get stuck, where it has so many.
pub(crate) fn stuck_member<L: Ledger>(
    lists: &Seqs<AllSummary>,
    list: SeqId,
    automaton: &ContentAutomaton,
    count: u32,
    steps: &mut Steps<L>,
) -> Option<u32>
    requires { (symbols : List ℕ) × IsMemberList lists.now list automaton.now symbols × (count ≡ length symbols) }
    ensures stuck { (symbols : List ℕ) → IsMemberList lists.now list automaton.now symbols → result ≡ stuck_in (Some automaton.now) symbols }
    ensures least { steps.old ≤ steps.new }
    ensures steps { (symbols : List ℕ) → IsMemberList lists.now list automaton.now symbols → steps.new ≤ steps.old + (8 * (bits (length symbols + 1) + 1) + 1) }
{
    let members = members_of(automaton);
    let start = members.all_start();
    if let Some(place) = lists.descend(list, start, steps) {
        return Some(place);
    }
    let end = lists.whole(list, start, steps);
    if members.all_accepting(end) {
        None
    } else {
        Some(count)
    }
}

/// Where the child elements before a place lead to.
pub(crate) fn member_upto<L: Ledger>(
    lists: &Seqs<AllSummary>,
    list: SeqId,
    automaton: &ContentAutomaton,
    place: u32,
    steps: &mut Steps<L>,
) -> ChildState
    requires { (symbols : List ℕ) × IsMemberList lists.now list automaton.now symbols × (place ≤ length symbols) }
    ensures state { (symbols : List ℕ) → IsMemberList lists.now list automaton.now symbols → LeadTo automaton.now (take place symbols) result }
    ensures least { steps.old ≤ steps.new }
    ensures steps { (symbols : List ℕ) → IsMemberList lists.now list automaton.now symbols → steps.new ≤ steps.old + 8 * (bits (length symbols + 1) + 1) }
{
    let state = lists.upto(list, place, members_of(automaton).all_start(), steps);
    ChildState {
        reached: Reached::Seen(state),
    }
}

/// Where the child elements from a place on lead to, after others that lead to a state.
pub(crate) fn member_from<L: Ledger>(
    lists: &Seqs<AllSummary>,
    list: SeqId,
    place: u32,
    state: ChildState,
    steps: &mut Steps<L>,
) -> ChildState
    requires { (a : ContentAutomatonData) × (before : List ℕ) × (symbols : List ℕ) × LeadTo a before state × IsMemberList lists.now list a symbols × (place ≤ length symbols) }
    ensures state { (a : ContentAutomatonData) (before symbols : List ℕ) → LeadTo a before state → IsMemberList lists.now list a symbols → LeadTo a (before ++ drop place symbols) result }
    ensures least { steps.old ≤ steps.new }
    ensures steps { (a : ContentAutomatonData) (symbols : List ℕ) → IsMemberList lists.now list a symbols → steps.new ≤ steps.old + 8 * (bits (length symbols + 1) + 1) }
{
    let after = lists.from(list, place, state.seen(), steps);
    ChildState {
        reached: Reached::Seen(after),
    }
}
