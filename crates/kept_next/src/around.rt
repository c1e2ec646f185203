ghost use Rattle.std.specs.Prelude.{◌≡◌, ℕ, ◌+◌, ◌<◌, ◌≤◌, List};
ghost use Rattle.kept_next.specs.Next.{FitsAs};
ghost use Rattle.kept_next.specs.declared.symbol.SymbolName.{SymbolName as SymbolNameData};

use crate::{Fit, SymbolName};
use xsv_steps::{Ledger, Steps};

/// The child elements around a place, by the automaton of the content model: from the state that those before the place lead to,
/// over one more child element, through those from the place on.
pub trait Around {
    /// A state of the automaton.
    type State: Copy;

    /// How many symbols the content model has. They are numbered in the order in which they are printed.
    ghost count: { Self → ℕ };

    /// What a symbol stands for.
    ghost name_of: { Self → ℕ → SymbolNameData };

    /// The words of the content model. They may have other numbers for the symbols.
    ghost is_word: { Self → List ℕ → Type 0 };

    /// The number that words have for a symbol.
    ghost in_words: { Self → ℕ → ℕ };

    /// The child elements before the place, and those from it on, have these symbols, by the numbers that words have for them.
    ghost are_around: { Self → List ℕ → List ℕ → Type 0 };

    /// The child elements before the place lead to the state.
    ghost is_before: { Self → Self.State → Type 0 };

    /// Those, and one with the symbol, lead to it.
    ghost is_with: { Self → ℕ → Self.State → Type 0 };

    /// Those, and the child elements from the place on, lead to it.
    ghost is_after: { Self → ℕ → Self.State → Type 0 };

    /// How many steps `before`, `with` and `after` take at most.
    ghost before_most: { Self → ℕ };

    ghost with_most: { Self → ℕ };

    ghost after_most: { Self → ℕ };

    /// How many symbols there are.
    fn symbols(&self) -> u32
        ensures number { result ≡ count self.now }
        ensures around { (before : List ℕ) × (behind : List ℕ) × are_around self.now before behind };

    /// What a symbol stands for.
    fn symbol_name(&self, symbol: u32) -> SymbolName
        requires { symbol < count self.now }
        ensures { result ≡ name_of self.now symbol };

    /// The state before the place.
    fn before<L: Ledger>(&self, steps: &mut Steps<L>) -> Self::State
        ensures state { is_before self.now result }
        ensures least { steps.old ≤ steps.new }
        ensures most { steps.new ≤ steps.old + before_most self.now };

    /// The state behind one more child element.
    fn with<L: Ledger>(&self, state: Self::State, symbol: u32, steps: &mut Steps<L>) -> Self::State
        requires symbol { symbol < count self.now }
        requires state { is_before self.now state }
        ensures state { is_with self.now symbol result }
        ensures least { steps.old ≤ steps.new }
        ensures most { steps.new ≤ steps.old + with_most self.now };

    /// The state behind all child elements.
    fn after<L: Ledger>(&self, state: Self::State, steps: &mut Steps<L>) -> Self::State
        requires { (symbol : ℕ) × (symbol < count self.now) × is_with self.now symbol state }
        ensures state { (symbol : ℕ) → symbol < count self.now → is_with self.now symbol state → is_after self.now symbol result }
        ensures least { steps.old ≤ steps.new }
        ensures most { steps.new ≤ steps.old + after_most self.now };

    /// How the one more child element fits at the place, by the state behind all.
    fn verdict(&self, state: Self::State) -> Fit
        requires { (symbol : ℕ) × (symbol < count self.now) × is_after self.now symbol state }
        ensures { (symbol : ℕ) → symbol < count self.now → is_after self.now symbol state →
            (before behind : List ℕ) → are_around self.now before behind → FitsAs (is_word self.now) before behind (in_words self.now symbol) result };
}
