//! States that child elements lead to, for children that may come to a place of a list.

ghost use Rattle.std.specs.Prelude.{◌≡◌, ◌+◌, ℕ, true, List, [], ◌∷◌, ◌++◌};
ghost use Rattle.model_terms.specs.Symbols.{AreSymbolsBy};
ghost use Rattle.model_terms.specs.Terms.{begins, is_word, term_after};
ghost use Rattle.content_models.specs.declared.state.AllState.{AllState as AllStateData};
ghost use Rattle.model_lists.specs.Around.{LeadTo};
ghost use Rattle.model_lists.specs.declared.around.Reached.TheVariants.{Row, Seen};

use crate::automata::{members_of, states_of};
use content_models::{AllState, ContentAutomaton};
use model_terms::{member_term, state_term};
use xs_components::TermId;
use xsv_steps::{Ledger, Steps};

/// Where child elements lead to by the automaton of a content model (Structures 3.8.4).
#[derive(Clone, Copy)]
pub struct ChildState {
    pub(crate) reached: Reached,
}

/// A state of an automaton.
#[derive(Clone, Copy)]
pub(crate) enum Reached {
    /// Of one over states.
    Row(u16),
    /// Of that of an `all`.
    Seen(AllState),
}

impl ChildState {
    /// The state before any children.
    pub fn start(automaton: &ContentAutomaton) -> ChildState
        ensures { LeadTo automaton.now [] result }
    {
        let reached = match automaton {
            ContentAutomaton::States(states) => Reached::Row(states.start()),
            ContentAutomaton::All(members) => Reached::Seen(members.all_start()),
        };
        ChildState { reached }
    }

    /// The term at the place that ends every marked prefix (Structures 3.4.4), of a child with this symbol with which the children
    /// begin a word.
    pub fn term(self, automaton: &ContentAutomaton, symbol: u32) -> Option<TermId>
        requires state { (before : List ℕ) × LeadTo automaton.now before self }
        requires symbol { AreSymbolsBy automaton.now (symbol ∷ []) }
        ensures { (before : List ℕ) → LeadTo automaton.now before self → AreSymbolsBy automaton.now (before ++ symbol ∷ []) →
            begins automaton.now (before ++ symbol ∷ []) ≡ true → result ≡ term_after automaton.now before symbol }
    {
        match automaton {
            ContentAutomaton::States(states) => state_term(states, self.row(), symbol),
            ContentAutomaton::All(members) => member_term(members, symbol),
        }
    }

    /// The state after one more child, with this symbol. It takes one step.
    pub fn with<L: Ledger>(
        self,
        automaton: &ContentAutomaton,
        symbol: u32,
        steps: &mut Steps<L>,
    ) -> ChildState
        requires state { (before : List ℕ) × LeadTo automaton.now before self }
        requires symbol { AreSymbolsBy automaton.now (symbol ∷ []) }
        ensures state { (before : List ℕ) → LeadTo automaton.now before self → LeadTo automaton.now (before ++ symbol ∷ []) result }
        ensures steps { steps.new ≡ steps.old + 1 }
    {
        let reached = match self.reached {
            Reached::Row(state) => Reached::Row(states_of(automaton).step(state, symbol, steps)),
            Reached::Seen(state) => {
                Reached::Seen(members_of(automaton).all_step(state, symbol, steps))
            }
        };
        ChildState { reached }
    }

    /// Whether the children begin a word of the content model.
    pub fn begins(self, automaton: &ContentAutomaton) -> bool
        requires { (symbols : List ℕ) × LeadTo automaton.now symbols self }
        ensures { (symbols : List ℕ) → LeadTo automaton.now symbols self → result ≡ begins automaton.now symbols }
    {
        match self.reached {
            Reached::Row(state) => state < states_of(automaton).width() - 1,
            Reached::Seen(state) => !state.dead,
        }
    }

    /// Whether they are a word of it.
    pub fn is_word(self, automaton: &ContentAutomaton) -> bool
        requires { (symbols : List ℕ) × LeadTo automaton.now symbols self }
        ensures { (symbols : List ℕ) → LeadTo automaton.now symbols self → result ≡ is_word automaton.now symbols }
    {
        match self.reached {
            Reached::Row(state) => states_of(automaton).accepting(state),
            Reached::Seen(state) => members_of(automaton).all_accepting(state),
        }
    }

    /// The state of an automaton over states.
    pub(crate) fn row(self) -> u16
        requires { (state : ℕ) × (self.reached ≡ Row state) }
        ensures { self.reached ≡ Row result }
    {
        match self.reached {
            Reached::Row(state) => state,
            Reached::Seen(_) => unreachable!(),
        }
    }

    /// The state of the automaton of an `all`.
    pub(crate) fn seen(self) -> AllState
        requires { (state : AllStateData) × (self.reached ≡ Seen state) }
        ensures { self.reached ≡ Seen result }
    {
        match self.reached {
            Reached::Row(_) => unreachable!(),
            Reached::Seen(state) => state,
        }
    }
}
