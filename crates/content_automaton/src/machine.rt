//! An automaton over symbols.

ghost use Rattle.std.specs.Prelude.{◌≡◌, ℕ, ◌<◌, ◌≤◌, List, Some, All, IfOk, IfErr, MatchOption};
ghost use Rattle.std.specs.List.Sorted.{IsStrictlyIncreasing};
ghost use Rattle.xs_positions.specs.Tree.{Tree};
ghost use Rattle.xs_positions.specs.PositionWords.{IsWord};
ghost use Rattle.xs_positions.specs.Positions.{ArePositionsOf};
ghost use Rattle.particle_models.specs.Reach.{Reach};
ghost use Rattle.content_automaton.specs.Moves.{symbol_at};
ghost use Rattle.content_automaton.specs.Automaton.{dead_of, start_of, step_of, run, accepts_at, term_of, Accepts, Speaks};
ghost use Rattle.content_automaton.specs.Ambiguity.{AreReachedApart, AreReachedTogether};
ghost use Rattle.content_automaton.specs.Count.{IsStateCount};
ghost use Rattle.content_automaton.specs.Outcome.{WhereTooMany};

use crate::ends::{ends_of, has_word};
use crate::states::find_states;
use crate::stop::Stop;
use crate::terms::{terms_of, two_terms_of_one};
use particle_models::Unrolled;
use std::alloc::Global;
use std::marker::Model;
use xs_lists::Listed;

/// The states of a model, the steps between them by symbols, and the terms that names end in.
#[derive(Drop)]
pub struct Machine {
    cells: Vec<u16>,
    symbols: u32,
    ends: Vec<bool>,
    lives: bool,
    terms: Vec<Option<u32>>,
    pair: Option<(u32, u32)>,
}

impl Model for Machine {
    ghost use Rattle.content_automaton.specs.Automaton.{Automaton};

    ghost Value = { Automaton };

    ghost use Rattle.std.specs.Prelude.{◌≡◌, ◌≤◌, ◌*◌, length};

    ghost view = { λ m. record { count = length m.ends.items; cells = m.cells.items; symbols = m.symbols; ends = m.ends.items; lives = m.lives; terms = m.terms.items; pair = m.pair } };

    ghost invariant = { λ m. (length m.ends.items ≤ 2048) × (length m.terms.items ≡ length m.ends.items) × (length m.cells.items ≡ length m.ends.items * m.symbols) };
}

impl Machine {
    /// The automaton of a model, of whose terms `accepted` lists the symbols that they accept.
    ///
    /// # Errors
    /// `TooManyStates` where there are more than 2,048 states, `Memory` when memory runs out.
    pub fn build(
        alloc: Global,
        form: &Unrolled,
        accepted: &[Listed<u32>],
        symbols: u32,
    ) -> Result<Machine, Stop>
        requires positions { (tree : Tree) × ArePositionsOf tree form.now.table }
        requires rises { All IsStrictlyIncreasing accepted.now }
        requires below { All (All (λ n. n < symbols)) accepted.now }
        ensures symbols { IfOk result (λ a. a.symbols ≡ symbols) }
        ensures language { IfOk result (λ a. (tree : Tree) → ArePositionsOf tree form.now.table → Speaks tree form.now.table accepted.now a) }
        ensures count { IfOk result (λ a. (tree : Tree) → ArePositionsOf tree form.now.table → IsStateCount tree form.now.table accepted.now symbols a.count) }
        ensures few { IfOk result (λ a. a.count ≤ 2048) }
        ensures too_many { IfErr result (λ stop. WhereTooMany stop ((tree : Tree) → ArePositionsOf tree form.now.table → (count : ℕ) → IsStateCount tree form.now.table accepted.now symbols count → 2048 < count)) }
        ensures terms { IfOk result (λ a. (tree : Tree) → ArePositionsOf tree form.now.table → AreReachedApart tree form.now.table accepted.now symbols →
            (names : List ℕ) → All (λ n. n < symbols) names → (p : ℕ) → Reach (Accepts form.now.table accepted.now) (IsWord tree 0) names p →
            term_of a (run a 0 names) ≡ Some (symbol_at form.now.table p)) }
        ensures pair { IfOk result (λ a. (tree : Tree) → ArePositionsOf tree form.now.table → MatchOption a.pair
            (AreReachedApart tree form.now.table accepted.now symbols)
            (λ pair. AreReachedTogether tree form.now.table accepted.now symbols pair.0 pair.1)) }
    {
        let found = match find_states(alloc, form, accepted, symbols) {
            Ok(found) => found,
            Err(stop) => return Err(stop),
        };
        let states = found.states.sets.as_slice();
        let ends = ends_of(alloc, form, states)?;
        let terms = terms_of(alloc, form, states)?;
        let pair = two_terms_of_one(form, states);
        Ok(Machine {
            cells: found.cells,
            symbols,
            ends,
            lives: has_word(form),
            terms,
            pair,
        })
    }

    /// How many symbols there are.
    pub fn symbols(&self) -> u32
        ensures { result ≡ self.now.symbols }
    {
        self.symbols
    }

    /// The dead state, whose number is that of the other states.
    pub fn dead(&self) -> u16
        ensures number { result ≡ dead_of self.now }
        ensures few { self.now.count ≤ 2048 }
    {
        self.ends.len() as u16
    }

    /// The state before the first name.
    pub fn start(&self) -> u16
        ensures { result ≡ start_of self.now }
    {
        if self.lives { 0 } else { self.dead() }
    }

    /// The state after this one by a symbol.
    pub fn step(&self, state: u16, symbol: u32) -> u16
        requires { symbol < self.now.symbols }
        ensures { result ≡ step_of self.now state symbol }
    {
        let dead = self.dead();
        if state >= dead {
            return dead;
        }
        self.cells[state as usize * self.symbols as usize + symbol as usize].min(dead)
    }

    /// Whether the names that lead to the state are a word.
    pub fn accepting(&self, state: u16) -> bool
        ensures { result ≡ accepts_at self.now state }
    {
        match self.ends.get(state as usize) {
            Some(ends) => *ends,
            None => false,
        }
    }

    /// The number of the term that the names of the state end in; `None` at the start, and where no word goes on.
    pub fn term(&self, state: u16) -> Option<u32>
        ensures { result ≡ term_of self.now state }
    {
        match self.terms.get(state as usize) {
            Some(term) => *term,
            None => None,
        }
    }

    /// Two terms that the same names lead to, where there are such.
    pub fn ambiguous(&self) -> Option<(u32, u32)>
        ensures { result ≡ self.now.pair }
    {
        self.pair
    }
}
