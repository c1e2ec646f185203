//! The terms of child elements by states.

ghost use Rattle.std.specs.Prelude.{◌≡◌, ◌↔◌, ◌<◌, ◌≤◌, ◌+◌, ◌^◌, ℕ, IsTrue, List, [], ◌∷◌, ◌++◌, map, length, IfOk, OnOk};
ghost use Rattle.content_automaton.specs.Terms.{ExpandedName, name_at};
ghost use Rattle.content_automaton.specs.Symbols.{AreNamesOf, symbol_of, count_of};
ghost use Rattle.content_automaton.specs.Automaton.{state_of, step_of, dead_of};
ghost use Rattle.content_models.specs.declared.automaton.ContentAutomaton.TheVariants.{States};
ghost use Rattle.assessment.specs.Attribution.{SchemaSet, AreTermsBy};
ghost use Rattle.assessment.specs.inside.Found.{symbols_in, IsKept, BeginsBy, IsNextTerm, AreFound};

use crate::ChildTerms;
use content_automaton::Automaton;
use std::alloc::{AllocError, Global};
use xs_components::TermId;
use xs_names::{NameId, Names};
use xsv_steps::{Silent, Steps};

/// The terms of child elements with these names, by the automaton of a content model without an `all`.
pub(crate) fn terms_by_states(
    alloc: Global,
    names: &Names,
    automaton: &Automaton,
    children: &[NameId],
) -> Result<ChildTerms, AllocError>
    requires names { AreNamesOf names.now children.now }
    requires within { AreNamesOf names.now automaton.now.symbols.names }
    requires few { length children.now < 2 ^ 32 }
    ensures { IfOk result (λ found. (s : SchemaSet) (p : ℕ) → s.names ≡ names.now → IsKept s p (States automaton.now) → AreTermsBy s p children.now found.stuck found.terms.items) }
{
    let mut found = ChildTerms::new(alloc);
    let mut state = automaton.start();
    for name in children {
        state = take_child(automaton, names, state, *name, &mut found)?;
    }
    found.note(automaton.accepting(state));
    Ok(found)
}

// The state after the next child, whose term is added.
fn take_child(
    automaton: &Automaton,
    names: &Names,
    state: u16,
    name: NameId,
    found: &mut ChildTerms,
) -> Result<u16, AllocError>
    requires name { name < length names.now.names }
    requires within { AreNamesOf names.now automaton.now.symbols.names }
    requires few { length found.old.terms.items < 2 ^ 32 }
    ensures state { IfOk result (λ next. next ≡ step_of automaton.now.machine state (symbol_of names.now automaton.now.symbols (name_at names.now name))) }
    ensures count { OnOk result (length found.new.terms.items ≡ length found.old.terms.items + 1) }
    ensures found { OnOk result ((s : SchemaSet) (p : ℕ) (children : List ℕ) → s.names ≡ names.now → IsKept s p (States automaton.now) →
        state ≡ state_of automaton.now.machine (symbols_in names.now automaton.now.symbols children) →
        AreFound s p children found.old.stuck found.old.terms.items → AreFound s p (children ++ name ∷ []) found.new.stuck found.new.terms.items) }
{
    let symbol = automaton.symbol(names, name);
    let next = step(automaton, state, symbol);
    let width = automaton.width();
    let begins = next + 1 < width;
    found.add(begins, next_term(automaton, state, symbol, begins))?;
    Ok(next)
}

// The state after this one by a symbol.
fn step(automaton: &Automaton, state: u16, symbol: u32) -> u16
    requires { symbol < count_of automaton.now.symbols }
    ensures state { result ≡ step_of automaton.now.machine state symbol }
    ensures below { result ≤ dead_of automaton.now.machine }
{
    let mut steps = Steps::new(Silent);
    automaton.step(state, symbol, &mut steps)
}

// The term of the next child, with whose name those before it begin a word, or not.
fn next_term(automaton: &Automaton, state: u16, symbol: u32, begins: bool) -> Option<TermId>
    requires { symbol < count_of automaton.now.symbols }
    ensures { (s : SchemaSet) (p : ℕ) (before : List ExpandedName) (name : ExpandedName) → IsKept s p (States automaton.now) →
        state ≡ state_of automaton.now.machine (map (symbol_of s.names automaton.now.symbols) before) → symbol ≡ symbol_of s.names automaton.now.symbols name →
        IsTrue begins ↔ BeginsBy s p (before ++ name ∷ []) → IsNextTerm s p before name result }
{
    if begins && automaton.ambivalent(symbol) {
        automaton.term_at(state, symbol)
    } else {
        automaton.first_term(symbol)
    }
}
