//! What automata give for symbols.

ghost use Rattle.std.specs.Prelude.{◌≡◌, ◌<◌, ℕ, true, List, [], ◌∷◌, ◌++◌};
ghost use Rattle.content_automaton.specs.Symbols.{count_of};
ghost use Rattle.content_automaton.specs.Automaton.{state_of};
ghost use Rattle.content_models.specs.declared.automaton.ContentAutomaton.TheVariants.{States, All};
ghost use Rattle.model_terms.specs.Symbols.{AreSymbolsBy};
ghost use Rattle.model_terms.specs.Terms.{begins, is_ambivalent_symbol, first_term, term_after};

use content_automaton::Automaton;
use content_models::{AllAutomaton, ContentAutomaton};
use xs_components::TermId;

/// Whether terms of different classes accept the names with a symbol (Structures 3.4.4).
pub fn is_ambivalent_symbol(automaton: &ContentAutomaton, symbol: u32) -> bool
    ensures { AreSymbolsBy automaton.now (symbol ∷ []) → result ≡ is_ambivalent_symbol automaton.now symbol }
{
    automaton.ambivalent(symbol)
}

/// The first term that accepts the names with a symbol, in the order of the schema. `None` where none does.
pub fn first_term(automaton: &ContentAutomaton, symbol: u32) -> Option<TermId>
    ensures { AreSymbolsBy automaton.now (symbol ∷ []) → result ≡ first_term automaton.now symbol }
{
    automaton.first_term(symbol)
}

/// By an automaton over states, the term at the place that ends every marked prefix (Structures 3.4.4), where children that lead to
/// the state, and then one with the symbol, begin a word.
pub fn state_term(automaton: &Automaton, state: u16, symbol: u32) -> Option<TermId>
    requires { symbol < count_of automaton.now.symbols }
    ensures { (before : List ℕ) → AreSymbolsBy (States automaton.now) (before ++ symbol ∷ []) → state ≡ state_of automaton.now.machine before →
        begins (States automaton.now) (before ++ symbol ∷ []) ≡ true → result ≡ term_after (States automaton.now) before symbol }
{
    automaton.term_at(state, symbol)
}

/// By the automaton of an `all`, the term at the place that ends every marked prefix (Structures 3.4.4), where some children, and
/// then one with the symbol, begin a word.
pub fn member_term(automaton: &AllAutomaton, symbol: u32) -> Option<TermId>
    ensures { (before : List ℕ) → AreSymbolsBy (All automaton.now) (before ++ symbol ∷ []) →
        begins (All automaton.now) (before ++ symbol ∷ []) ≡ true → result ≡ term_after (All automaton.now) before symbol }
{
    automaton.term_at(symbol)
}
