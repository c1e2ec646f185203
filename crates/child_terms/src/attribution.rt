//! What a content model says of child elements, one after another.

ghost use Rattle.std.specs.Prelude.{◌≡◌, ◌+◌, ◌^◌, ◌<◌, ◌≤◌, ℕ, suc, List, [], ◌∷◌, Some, None, length, take, slice_index, IfOk, if◌then◌else◌};
ghost use Rattle.std.specs.Option.{option_or};
ghost use Rattle.model_terms.specs.Symbols.{AreSymbolsBy};
ghost use Rattle.model_terms.specs.Terms.{begins, stuck_in, term_in, terms_in};
ghost use Rattle.model_lists.specs.Around.{LeadTo};

use content_models::ContentAutomaton;
use model_lists::ChildState;
use model_terms::{first_term, is_ambivalent_symbol};
use std::alloc::{AllocError, Global};
use xs_components::TermId;
use xsv_steps::{Ledger, Steps};

/// What a content model says of child elements (Structures 3.4.4).
#[derive(Drop)]
pub struct Attribution {
    /// The place where they get stuck.
    pub stuck: Option<u32>,
    /// The term that each of them is attributed to, if there is one.
    pub terms: Vec<Option<TermId>>,
}

// The place where children get stuck: where they did before, or else here, unless they go on.
fn stuck_by(stuck: Option<u32>, place: u32, goes_on: bool) -> Option<u32>
    ensures { result ≡ option_or stuck (if goes_on then None else Some place) }
{
    match stuck {
        None if !goes_on => Some(place),
        _ => stuck,
    }
}

// The term of a child, before which the children lead to a state, and with which they begin a word, or not.
fn next_term(
    automaton: &ContentAutomaton,
    before: ChildState,
    symbol: u32,
    goes_on: bool,
) -> Option<TermId>
    requires state { (symbols : List ℕ) × LeadTo automaton.now symbols before }
    requires symbol { AreSymbolsBy automaton.now (symbol ∷ []) }
    ensures { (symbols : List ℕ) (place : ℕ) → AreSymbolsBy automaton.now symbols → place < length symbols → slice_index symbols place ≡ symbol → LeadTo automaton.now (take place symbols) before →
        goes_on ≡ begins automaton.now (take (suc place) symbols) → result ≡ term_in (Some automaton.now) symbols place }
{
    if goes_on && is_ambivalent_symbol(automaton, symbol) {
        before.term(automaton, symbol)
    } else {
        first_term(automaton, symbol)
    }
}

/// The terms of child elements with these symbols, and the place where they get stuck (Structures 3.4.4). It takes a step for each.
///
/// # Errors
///
/// `AllocError` is want of memory.
pub fn attribute<L: Ledger>(
    alloc: Global,
    automaton: &ContentAutomaton,
    symbols: &[u32],
    steps: &mut Steps<L>,
) -> Result<Attribution, AllocError>
    requires symbols { AreSymbolsBy automaton.now symbols.now }
    requires few { length symbols.now < 2 ^ 32 }
    ensures stuck { IfOk result (λ found. found.stuck ≡ stuck_in (Some automaton.now) symbols.now) }
    ensures terms { IfOk result (λ found. found.terms.items ≡ terms_in (Some automaton.now) symbols.now) }
    ensures least { steps.old ≤ steps.new }
    ensures steps { steps.new ≤ steps.old + length symbols.now }
{
    let mut terms = Vec::with_capacity(alloc, symbols.len())?;
    let mut stuck = None;
    let mut state = ChildState::start(automaton);
    for (place, symbol) in symbols.iter().enumerate() {
        let next = state.with(automaton, *symbol, steps);
        let begins = next.begins(automaton);
        let term = next_term(automaton, state, *symbol, begins);
        terms.push(term)?;
        stuck = stuck_by(stuck, place as u32, begins);
        state = next;
    }
    let is_word = state.is_word(automaton);
    let place = stuck_by(stuck, symbols.len() as u32, is_word);
    Ok(Attribution {
        stuck: place,
        terms,
    })
}

/// So many child elements of an element whose type has no content model: none of them has a term, and none gets stuck.
///
/// # Errors
///
/// `AllocError` is want of memory.
pub fn attribute_none(alloc: Global, count: usize) -> Result<Attribution, AllocError>
    ensures stuck { IfOk result (λ found. (symbols : List ℕ) → found.stuck ≡ stuck_in None symbols) }
    ensures terms { IfOk result (λ found. (symbols : List ℕ) → length symbols ≡ count → found.terms.items ≡ terms_in None symbols) }
{
    let mut terms = Vec::with_capacity(alloc, count)?;
    for _ in 0..count {
        terms.push(None)?;
    }
    Ok(Attribution { stuck: None, terms })
}
