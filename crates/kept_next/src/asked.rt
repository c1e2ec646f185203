//! What a place is asked.

ghost use Rattle.std.specs.Prelude.{◌≡◌, ◌+◌, ◌*◌, ℕ, List, ◌++◌, ◌∷◌, [], take, drop, length};
ghost use Rattle.kept_next.specs.Words.{fit_by};
ghost use Rattle.content_models.specs.declared.automaton.ContentAutomaton.{ContentAutomaton as ContentAutomatonData};
ghost use Rattle.model_lists.specs.Around.{LeadTo};

use crate::{Around, AroundAt, Fit, SymbolName};
use content_models::ContentAutomaton;
use model_lists::ChildState;
use xsv_steps::{Ledger, Steps};

impl Around for AroundAt<'_> {
    ghost use Rattle.std.specs.Prelude.{length};
    ghost use Rattle.kept_next.specs.Place.{AreAround, LeadBefore, LeadWith, LeadAfter, name_at, number_at, list_most};
    ghost use Rattle.kept_next.specs.Words.{IsWordIn};

    type State = ChildState;

    ghost count = { λ v. length v.symbols };

    ghost name_of = { name_at };

    ghost is_word = { λ v. IsWordIn v.automaton };

    ghost in_words = { number_at };

    ghost are_around = { AreAround };

    ghost is_before = { LeadBefore };

    ghost is_with = { LeadWith };

    ghost is_after = { LeadAfter };

    ghost before_most = { list_most };

    ghost with_most = { λ v. 1 };

    ghost after_most = { list_most };

    fn symbols(&self) -> u32 {
        self.symbols.len() as u32
    }

    fn symbol_name(&self, symbol: u32) -> SymbolName {
        self.symbols[symbol as usize].name
    }

    fn before<L: Ledger>(&self, steps: &mut Steps<L>) -> ChildState {
        self.lists
            .upto(self.list, self.automaton, self.place, steps)
    }

    fn with<L: Ledger>(&self, state: ChildState, symbol: u32, steps: &mut Steps<L>) -> ChildState {
        let number = self.symbols[symbol as usize].number;
        state.with(self.automaton, number, steps)
    }

    fn after<L: Ledger>(&self, state: ChildState, steps: &mut Steps<L>) -> ChildState {
        self.lists.from(self.list, self.place, state, steps)
    }

    fn verdict(&self, state: ChildState) -> Fit {
        fit_of(self.automaton, state)
    }
}

// How child elements that lead to a state fit.
fn fit_of(automaton: &ContentAutomaton, state: ChildState) -> Fit
    requires { (symbols : List ℕ) × LeadTo automaton.now symbols state }
    ensures { (symbols : List ℕ) → LeadTo automaton.now symbols state → result ≡ fit_by automaton.now symbols }
{
    if state.is_word(automaton) {
        Fit::Word
    } else if state.begins(automaton) {
        Fit::Prefix
    } else {
        Fit::No
    }
}
