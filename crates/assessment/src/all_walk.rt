//! The terms of child elements by the members of an `all`.

ghost use Rattle.std.specs.Prelude.{◌≡◌, ◌↔◌, ◌<◌, ◌+◌, ◌^◌, ℕ, IsTrue, List, [], ◌∷◌, ◌++◌, map, length, IfOk, OnOk};
ghost use Rattle.content_automaton.specs.Terms.{ExpandedName, name_at};
ghost use Rattle.content_automaton.specs.Symbols.{AreNamesOf, symbol_of};
ghost use Rattle.content_models.specs.States.{next_of};
ghost use Rattle.content_models.specs.Modelled.{letter_of};
ghost use Rattle.content_models.specs.declared.automaton.ContentAutomaton.TheVariants.{All as AllModel};
ghost use Rattle.assessment.specs.Attribution.{SchemaSet, AreTermsBy};
ghost use Rattle.assessment.specs.inside.Found.{all_state_in, IsKept, BeginsBy, IsNextTerm, AreFound};

use crate::ChildTerms;
use content_models::{AllAutomaton, AllState};
use std::alloc::{AllocError, Global};
use xs_components::TermId;
use xs_names::{NameId, Names};
use xsv_steps::{Silent, Steps};

/// The terms of child elements with these names, by the automaton of a content model that is an `all`.
pub(crate) fn terms_by_all(
    alloc: Global,
    names: &Names,
    automaton: &AllAutomaton,
    children: &[NameId],
) -> Result<ChildTerms, AllocError>
    requires names { AreNamesOf names.now children.now }
    requires within { AreNamesOf names.now automaton.now.symbols.names }
    requires few { length children.now < 2 ^ 32 }
    ensures { IfOk result (λ found. (s : SchemaSet) (p : ℕ) → s.names ≡ names.now → IsKept s p (AllModel automaton.now) → AreTermsBy s p children.now found.stuck found.terms.items) }
{
    let mut found = ChildTerms::new(alloc);
    let mut state = automaton.all_start();
    for name in children {
        state = take_child(automaton, names, state, *name, &mut found)?;
    }
    found.note(automaton.all_accepting(state));
    Ok(found)
}

// The state after the next child, whose term is added.
fn take_child(
    automaton: &AllAutomaton,
    names: &Names,
    state: AllState,
    name: NameId,
    found: &mut ChildTerms,
) -> Result<AllState, AllocError>
    requires name { name < length names.now.names }
    requires within { AreNamesOf names.now automaton.now.symbols.names }
    requires few { length found.old.terms.items < 2 ^ 32 }
    ensures state { IfOk result (λ next. next ≡ next_of state (letter_of automaton.now (symbol_of names.now automaton.now.symbols (name_at names.now name)))) }
    ensures count { OnOk result (length found.new.terms.items ≡ length found.old.terms.items + 1) }
    ensures found { OnOk result ((s : SchemaSet) (p : ℕ) (children : List ℕ) → s.names ≡ names.now → IsKept s p (AllModel automaton.now) →
        state ≡ all_state_in names.now automaton.now children →
        AreFound s p children found.old.stuck found.old.terms.items → AreFound s p (children ++ name ∷ []) found.new.stuck found.new.terms.items) }
{
    let symbol = automaton.symbol(names, name);
    let next = step(automaton, state, symbol);
    let begins = !next.dead;
    found.add(begins, next_term(automaton, symbol, begins))?;
    Ok(next)
}

// The state after this one by a symbol.
fn step(automaton: &AllAutomaton, state: AllState, symbol: u32) -> AllState
    ensures { result ≡ next_of state (letter_of automaton.now symbol) }
{
    let mut steps = Steps::new(Silent);
    automaton.all_step(state, symbol, &mut steps)
}

// The term of the next child, with whose name those before it begin a word, or not.
fn next_term(automaton: &AllAutomaton, symbol: u32, begins: bool) -> Option<TermId>
    ensures { (s : SchemaSet) (p : ℕ) (before : List ExpandedName) (name : ExpandedName) → IsKept s p (AllModel automaton.now) →
        symbol ≡ symbol_of s.names automaton.now.symbols name → IsTrue begins ↔ BeginsBy s p (before ++ name ∷ []) → IsNextTerm s p before name result }
{
    if begins && automaton.ambivalent(symbol) {
        automaton.term_at(symbol)
    } else {
        automaton.first_term(symbol)
    }
}
