//! The automaton of a model.

ghost use Rattle.std.specs.Prelude.{◌≡◌, ◌↔◌, ◌≤◌, ◌<◌, ◌+◌, ◌*◌, suc, ℕ, Bool, IsTrue, List, map, length, slice_get, IfOk, IfErr, Option};
ghost use Rattle.xs_names.specs.Names.{NameTable, Grown};
ghost use Rattle.xs_names.specs.Numbering.{HasNoRepeats};
ghost use Rattle.xs_positions.specs.Tree.{Tree};
ghost use Rattle.xs_positions.specs.Positions.{ArePositionsOf};
ghost use Rattle.particle_models.specs.Particles.{Particle};
ghost use Rattle.content_automaton.specs.declared.symbol_terms.Accepts.{Accepts as AcceptsData};
ghost use Rattle.content_automaton.specs.Terms.{ExpandedName, name_at};
ghost use Rattle.content_automaton.specs.Symbols.{IsNamed, AreNamesOf, AreSymbolsOf, count_of, symbol_of};
ghost use Rattle.content_automaton.specs.Attribution.{IsAmbivalent};
ghost use Rattle.content_automaton.specs.Automaton.{start_of, step_of, accepts_at, state_of, dead_of};
ghost use Rattle.content_automaton.specs.Recognized.{IsUnambiguous};
ghost use Rattle.content_automaton.specs.Modelled.{IsModelOf, IsAutomatonOf, WhereRefused, HasTooManyStates, HasTooLargeTable, HasRoom, IsTermAt, IsFirstTermOf, IsAmbiguousBy, first_of, is_ambivalent};

use crate::refused::BuildError;
use crate::{Accepts, Attribution, Machine, Stop, Symbols, list_terms};
use particle_models::Unrolled;
use std::alloc::{AllocError, Global};
use std::marker::Model;
use xs_components::TermId;
use xs_names::{NameId, Names};
use xsv_steps::{Ledger, Steps};

/// The automaton of a content model without an `all`, over the names of child elements.
pub struct Automaton {
    machine: Machine,
    symbols: Symbols,
    terms: Vec<TermId>,
    attributions: Vec<Attribution>,
}

impl Model for Automaton {
    ghost use Rattle.content_automaton.specs.Modelled.{ModelAutomaton};

    ghost Value = { ModelAutomaton };

    ghost use Rattle.std.specs.Prelude.{◌≡◌};
    ghost use Rattle.content_automaton.specs.Symbols.{count_of};

    ghost view = { λ a. record { machine = a.machine; symbols = a.symbols; terms = a.terms.items; attributions = a.attributions.items } };

    ghost invariant = { λ a. a.machine.symbols ≡ count_of a.symbols };
}

impl Automaton {
    /// The automaton of an unrolled model. `ids` are its terms, and `terms` what each of them accepts. States times symbols may
    /// be at most `cells_left`.
    ///
    /// # Errors
    /// `TooManyStates` where there are more than 2,048 states; else `TableTooLarge`.
    pub fn build(
        alloc: Global,
        names: &Names,
        form: &Unrolled,
        ids: &[TermId],
        terms: &[Accepts],
        cells_left: u32,
    ) -> Result<Result<Automaton, BuildError>, AllocError>
        requires positions { (tree : Tree) × ArePositionsOf tree form.now.table }
        requires ids { ids.now ≡ form.now.terms }
        requires count { length terms.now ≡ length form.now.terms }
        requires within { (n : ℕ) → IsNamed terms.now n → n < length names.now.names }
        ensures automaton { IfOk result (λ answer. IfOk answer (λ a. HasNoRepeats names.now.names →
            (accepts : ℕ → ExpandedName → Bool) (inhabited : ℕ → Bool) (model : Particle) → IsModelOf names.now terms.now form.now accepts inhabited model →
            IsAutomatonOf names.now terms.now accepts model a)) }
        ensures symbols { IfOk result (λ answer. IfOk answer (λ a. AreSymbolsOf terms.now a.symbols)) }
        ensures room { IfOk result (λ answer. IfOk answer (λ a. HasNoRepeats names.now.names →
            (accepts : ℕ → ExpandedName → Bool) (inhabited : ℕ → Bool) (model : Particle) → IsModelOf names.now terms.now form.now accepts inhabited model →
            HasRoom a.symbols cells_left accepts inhabited model form.now.table a.machine.count)) }
        ensures refused { IfOk result (λ answer. IfErr answer (λ error. HasNoRepeats names.now.names →
            (accepts : ℕ → ExpandedName → Bool) (inhabited : ℕ → Bool) (model : Particle) → IsModelOf names.now terms.now form.now accepts inhabited model →
            WhereRefused error (HasTooManyStates accepts inhabited model form.now.table) (HasTooLargeTable terms.now cells_left accepts inhabited model form.now.table))) }
    {
        let symbols = Symbols::of(alloc, terms)?;
        let listing = list_terms(alloc, &symbols, names, terms)?;
        let count = symbols.count();
        let machine = match Machine::build(alloc, form, listing.accepted.as_slice(), count) {
            Ok(machine) => machine,
            Err(Stop::TooManyStates) => return Ok(Err(BuildError::TooManyStates)),
            Err(Stop::Memory) => return Err(AllocError),
        };
        if is_too_large(machine.dead(), count, cells_left) {
            return Ok(Err(BuildError::TableTooLarge));
        }
        let kept = Vec::from_slice(alloc, ids)?;
        Ok(Ok(Automaton {
            machine,
            symbols,
            terms: kept,
            attributions: listing.attributions,
        }))
    }

    /// How many states there are, the dead one included, whose number is the last.
    pub fn width(&self) -> u16
        ensures { result ≡ suc (dead_of self.now.machine) }
    {
        self.machine.dead() + 1
    }

    /// The symbols, with the names and namespaces that they stand for.
    pub fn symbols(&self) -> &Symbols
        ensures { result.now ≡ self.now.symbols }
    {
        &self.symbols
    }

    /// How many symbols there are.
    pub fn symbol_count(&self) -> u32
        ensures { result ≡ count_of self.now.symbols }
    {
        self.symbols.count()
    }

    /// The symbol of a name. Names that the automaton was built over, or that have grown from those, are meant.
    pub fn symbol(&self, names: &Names, name: NameId) -> u32
        requires name { name < length names.now.names }
        requires within { AreNamesOf names.now self.now.symbols.names }
        ensures symbol { result ≡ symbol_of names.now self.now.symbols (name_at names.now name) }
        ensures below { result < count_of self.now.symbols }
        ensures grown { (old : NameTable) → Grown old names.now → AreNamesOf old self.now.symbols.names → (x : ExpandedName) → symbol_of names.now self.now.symbols x ≡ symbol_of old self.now.symbols x }
    {
        self.symbols.symbol(names, name)
    }

    /// The state before the first child.
    pub fn start(&self) -> u16
        ensures state { result ≡ start_of self.now.machine }
        ensures below { result ≤ dead_of self.now.machine }
    {
        self.machine.start()
    }

    /// The state after this one by a symbol. It takes one step.
    pub fn step<L: Ledger>(&self, state: u16, symbol: u32, steps: &mut Steps<L>) -> u16
        requires { symbol < count_of self.now.symbols }
        ensures state { result ≡ step_of self.now.machine state symbol }
        ensures below { result ≤ dead_of self.now.machine }
        ensures steps { steps.new ≡ steps.old + 1 }
    {
        steps.tick();
        self.machine.step(state, symbol)
    }

    /// Whether the names that lead to the state are a word of the model.
    pub fn accepting(&self, state: u16) -> bool
        ensures { result ≡ accepts_at self.now.machine state }
    {
        self.machine.accepting(state)
    }

    /// On a model that is not ambiguous, the term at the place that ends every marked prefix (Structures 3.4.4), where the names
    /// that lead to the state are followed by a name with the symbol. `None` where they begin no word.
    pub fn term_at(&self, state: u16, symbol: u32) -> Option<TermId>
        requires { symbol < count_of self.now.symbols }
        ensures { (t : NameTable) (terms : List AcceptsData) (accepts : ℕ → ExpandedName → Bool) (model : Particle) → IsAutomatonOf t terms accepts model self.now → IsUnambiguous accepts model →
            (names : List ExpandedName) (name : ExpandedName) → state ≡ state_of self.now.machine (map (symbol_of t self.now.symbols) names) → symbol ≡ symbol_of t self.now.symbols name →
            IsTermAt accepts model names name result }
    {
        let next = self.machine.step(state, symbol);
        if next == self.machine.dead() {
            return None;
        }
        let Some(number) = self.machine.term(next) else {
            return None;
        };
        self.nth_term(number as usize)
    }

    /// The first term of the model that accepts the names with the symbol, in the order of the schema. `None` where none does.
    pub fn first_term(&self, symbol: u32) -> Option<TermId>
        ensures { (t : NameTable) (terms : List AcceptsData) (accepts : ℕ → ExpandedName → Bool) (model : Particle) → IsAutomatonOf t terms accepts model self.now →
            (name : ExpandedName) → symbol ≡ symbol_of t self.now.symbols name → IsFirstTermOf t terms model name result }
    {
        let Some(attribution) = self.attribution(symbol as usize) else {
            return None;
        };
        let Some(number) = first_of(&attribution) else {
            return None;
        };
        self.nth_term(number)
    }

    /// Whether the names with the symbol are ambivalent: terms of different classes accept them (Structures 3.4.4).
    pub fn ambivalent(&self, symbol: u32) -> bool
        ensures { (t : NameTable) (terms : List AcceptsData) (accepts : ℕ → ExpandedName → Bool) (model : Particle) → IsAutomatonOf t terms accepts model self.now →
            (name : ExpandedName) → symbol ≡ symbol_of t self.now.symbols name → IsTrue result ↔ IsAmbivalent t terms name }
    {
        match self.attribution(symbol as usize) {
            Some(attribution) => is_ambivalent(&attribution),
            None => false,
        }
    }

    /// Two terms of different places in which prefixes with the same names end (Structures 3.8.6); `None` where there are none.
    pub fn ambiguous(&self) -> Option<(TermId, TermId)>
        ensures { (t : NameTable) (terms : List AcceptsData) (accepts : ℕ → ExpandedName → Bool) (model : Particle) → IsAutomatonOf t terms accepts model self.now → IsAmbiguousBy accepts model result }
    {
        let Some(pair) = self.machine.ambiguous() else {
            return None;
        };
        let Some(one) = self.nth_term(pair.0 as usize) else {
            return None;
        };
        let Some(other) = self.nth_term(pair.1 as usize) else {
            return None;
        };
        Some((one, other))
    }

    /// The term of a number.
    fn nth_term(&self, number: usize) -> Option<TermId>
        ensures { result ≡ slice_get self.now.terms number }
    {
        self.terms.get(number).copied()
    }

    /// What is attributed to the names with a symbol.
    fn attribution(&self, symbol: usize) -> Option<Attribution>
        ensures { result ≡ slice_get self.now.attributions symbol }
    {
        self.attributions.get(symbol).copied()
    }
}

/// The first term.
fn first_of(attribution: &Attribution) -> Option<usize>
    ensures { result ≡ first_of attribution.now }
{
    match attribution {
        Attribution::Nothing => None,
        Attribution::OneClass(first, _) | Attribution::Ambivalent(first) => Some(*first),
    }
}

/// Whether terms of different classes accept it.
fn is_ambivalent(attribution: &Attribution) -> bool
    ensures { result ≡ is_ambivalent attribution.now }
{
    match attribution {
        Attribution::Nothing | Attribution::OneClass(_, _) => false,
        Attribution::Ambivalent(_) => true,
    }
}

/// Whether states times symbols are more than the cells.
fn is_too_large(states: u16, symbols: u32, cells: u32) -> bool
    ensures { IsTrue result ↔ (cells < states * symbols) }
{
    u64::from(states) * u64::from(symbols) > u64::from(cells)
}

impl Drop for Automaton {
    fn drop(self) {
        let Automaton {
            machine,
            symbols,
            terms,
            attributions,
        } = self;
        drop(machine);
        drop(symbols);
        drop(terms);
        drop(attributions);
    }
}
