//! The automaton of an `all`.

ghost use Rattle.std.specs.Prelude.{◌≡◌, ◌↔◌, ◌≤◌, ◌<◌, ◌+◌, ℕ, Bool, IsTrue, List, map, length, slice_get, IfOk};
ghost use Rattle.xs_names.specs.Names.{NameTable, Grown};
ghost use Rattle.xs_names.specs.Numbering.{HasNoRepeats};
ghost use Rattle.particle_models.specs.Particles.{Particle};
ghost use Rattle.content_automaton.specs.declared.symbol_terms.Accepts.{Accepts as AcceptsData};
ghost use Rattle.content_automaton.specs.Terms.{ExpandedName, name_at};
ghost use Rattle.content_automaton.specs.Symbols.{IsNamed, AreNamesOf, AreSymbolsOf, count_of, symbol_of};
ghost use Rattle.content_automaton.specs.Attribution.{IsAmbivalent};
ghost use Rattle.content_models.specs.Ambiguity.{IsUnambiguous, IsAmbiguousBy};
ghost use Rattle.content_models.specs.declared.member.AllMember.{AllMember as AllMemberData};
ghost use Rattle.content_models.specs.States.{start_of, next_of, accepts_at};
ghost use Rattle.content_models.specs.Modelled.{IsAllModel, IsAllAutomatonOf, IsMemberFor, IsFirstMember, letter_of, pair_of, first_of, is_ambivalent};

use crate::letters::{STRANGER, find_inhabited, find_letters};
use crate::{AllMachine, AllMember, AllState};
use content_automaton::{Accepts, Attribution, Symbols, list_terms};
use std::alloc::{AllocError, Global};
use std::marker::Model;
use xs_components::TermId;
use xs_names::{NameId, Names};
use xsv_steps::{Ledger, Steps};

/// The automaton of a content model that is an `all`, over the names of child elements. Beside the dead state it counts as one
/// state: where the children are is told by an `AllState`.
#[derive(Drop)]
pub struct AllAutomaton {
    machine: AllMachine,
    symbols: Symbols,
    letters: Vec<u16>,
    terms: Vec<TermId>,
    attributions: Vec<Attribution>,
    pair: Option<(u16, u16)>,
}

impl Model for AllAutomaton {
    ghost use Rattle.content_models.specs.Modelled.{AllModel};

    ghost Value = { AllModel };

    ghost view = { λ a. record { machine = a.machine; symbols = a.symbols; letters = a.letters.items; terms = a.terms.items; attributions = a.attributions.items; pair = a.pair } };
}

impl AllAutomaton {
    /// The automaton of an `all` of these members, at most 64, each of which comes at most once. `ids` are the particles of the
    /// members, and `terms` what each of them accepts. An optional `all` may be left out.
    pub fn build(
        alloc: Global,
        names: &Names,
        members: &[AllMember],
        optional: bool,
        ids: &[TermId],
        terms: &[Accepts],
    ) -> Result<AllAutomaton, AllocError>
        requires few { length members.now ≤ 64 }
        requires ids { ids.now ≡ map (λ (m : AllMemberData). m.term) members.now }
        requires count { length terms.now ≡ length members.now }
        requires within { (n : ℕ) → IsNamed terms.now n → n < length names.now.names }
        ensures automaton { IfOk result (λ a. HasNoRepeats names.now.names →
            (accepts : ℕ → ExpandedName → Bool) (model : Particle) → IsAllModel names.now terms.now members.now optional accepts model →
            IsAllAutomatonOf names.now terms.now accepts members.now model a) }
        ensures symbols { IfOk result (λ a. AreSymbolsOf terms.now a.symbols) }
    {
        let symbols = Symbols::of(alloc, terms)?;
        let listing = list_terms(alloc, &symbols, names, terms)?;
        let found = find_letters(alloc, listing.accepted.as_slice(), symbols.count())?;
        let inhabited = find_inhabited(alloc, listing.accepted.as_slice())?;
        let machine = AllMachine::of(members, optional, &inhabited);
        let kept = Vec::from_slice(alloc, ids)?;
        Ok(AllAutomaton {
            machine,
            symbols,
            letters: found.letters,
            terms: kept,
            attributions: listing.attributions,
            pair: found.pair,
        })
    }

    /// The symbols, with the names and namespaces that they stand for.
    pub fn symbols(&self) -> &Symbols
        ensures { result.now ≡ self.now.symbols }
    {
        &self.symbols
    }

    /// How many symbols there are.
    pub fn symbol_count(&self) -> u32
        ensures { result ≡ count_of self.now.symbols }
    {
        self.symbols.count()
    }

    /// The symbol of a name. Names that the automaton was built over, or that have grown from those, are meant.
    pub fn symbol(&self, names: &Names, name: NameId) -> u32
        requires name { name < length names.now.names }
        requires within { AreNamesOf names.now self.now.symbols.names }
        ensures symbol { result ≡ symbol_of names.now self.now.symbols (name_at names.now name) }
        ensures below { result < count_of self.now.symbols }
        ensures grown { (old : NameTable) → Grown old names.now → AreNamesOf old self.now.symbols.names → (x : ExpandedName) → symbol_of names.now self.now.symbols x ≡ symbol_of old self.now.symbols x }
    {
        self.symbols.symbol(names, name)
    }

    /// The number of the member that accepts the names with a symbol, counted from 0; 64 where no member does, or no word has
    /// any name.
    pub fn letter(&self, symbol: u32) -> u16
        ensures { result ≡ letter_of self.now symbol }
    {
        if !self.machine.has_words() {
            return STRANGER;
        }
        match self.letters.get(symbol as usize) {
            Some(letter) => *letter,
            None => STRANGER,
        }
    }

    /// The state before the first child.
    pub fn all_start(&self) -> AllState
        ensures { result ≡ start_of self.now.machine }
    {
        self.machine.start()
    }

    /// The state after this one by a symbol. It takes one step.
    pub fn all_step<L: Ledger>(
        &self,
        state: AllState,
        symbol: u32,
        steps: &mut Steps<L>,
    ) -> AllState
        ensures state { result ≡ next_of state (letter_of self.now symbol) }
        ensures steps { steps.new ≡ steps.old + 1 }
    {
        steps.tick();
        state.after(self.letter(symbol))
    }

    /// Whether the names that lead to the state are a word of the model.
    pub fn all_accepting(&self, state: AllState) -> bool
        ensures { result ≡ accepts_at self.now.machine state }
    {
        self.machine.accepting(state)
    }

    /// On a model that is not ambiguous, the member that accepts the names with the symbol (Structures 3.4.4): that at the place
    /// that ends every marked prefix. `None` where no word has such a name.
    pub fn term_at(&self, symbol: u32) -> Option<TermId>
        ensures { (t : NameTable) (terms : List AcceptsData) (accepts : ℕ → ExpandedName → Bool) (members : List AllMemberData) (model : Particle) → IsAllAutomatonOf t terms accepts members model self.now → IsUnambiguous accepts model →
            (name : ExpandedName) → symbol ≡ symbol_of t self.now.symbols name → IsMemberFor accepts model name result }
    {
        self.nth_term(self.letter(symbol) as usize)
    }

    /// The first member that accepts the names with the symbol, in the order of the schema. `None` where none does.
    pub fn first_term(&self, symbol: u32) -> Option<TermId>
        ensures { (t : NameTable) (terms : List AcceptsData) (accepts : ℕ → ExpandedName → Bool) (members : List AllMemberData) (model : Particle) → IsAllAutomatonOf t terms accepts members model self.now →
            (name : ExpandedName) → symbol ≡ symbol_of t self.now.symbols name → IsFirstMember t terms members name result }
    {
        let Some(attribution) = self.attribution(symbol as usize) else {
            return None;
        };
        let Some(number) = first_of(&attribution) else {
            return None;
        };
        self.nth_term(number)
    }

    /// Whether the names with the symbol are ambivalent: members of different classes accept them (Structures 3.4.4).
    pub fn ambivalent(&self, symbol: u32) -> bool
        ensures { (t : NameTable) (terms : List AcceptsData) (accepts : ℕ → ExpandedName → Bool) (members : List AllMemberData) (model : Particle) → IsAllAutomatonOf t terms accepts members model self.now →
            (name : ExpandedName) → symbol ≡ symbol_of t self.now.symbols name → IsTrue result ↔ IsAmbivalent t terms name }
    {
        match self.attribution(symbol as usize) {
            Some(attribution) => is_ambivalent(&attribution),
            None => false,
        }
    }

    /// Two members at different places in which prefixes with the same names end (Structures 3.8.6): two that accept one name.
    /// `None` where there are none.
    pub fn ambiguous(&self) -> Option<(TermId, TermId)>
        ensures { (t : NameTable) (terms : List AcceptsData) (accepts : ℕ → ExpandedName → Bool) (members : List AllMemberData) (model : Particle) → IsAllAutomatonOf t terms accepts members model self.now → IsAmbiguousBy accepts model result }
    {
        let Some(pair) = self.met_members() else {
            return None;
        };
        let Some(one) = self.nth_term(pair.0 as usize) else {
            return None;
        };
        let Some(other) = self.nth_term(pair.1 as usize) else {
            return None;
        };
        Some((one, other))
    }

    /// Two members that accept one name, where words have names.
    fn met_members(&self) -> Option<(u16, u16)>
        ensures { result ≡ pair_of self.now }
    {
        if self.machine.has_words() {
            self.pair
        } else {
            None
        }
    }

    /// The particle of the member of a number.
    fn nth_term(&self, number: usize) -> Option<TermId>
        ensures { result ≡ slice_get self.now.terms number }
    {
        self.terms.get(number).copied()
    }

    /// What is attributed to the names with a symbol.
    fn attribution(&self, symbol: usize) -> Option<Attribution>
        ensures { result ≡ slice_get self.now.attributions symbol }
    {
        self.attributions.get(symbol).copied()
    }
}

/// The first term.
fn first_of(attribution: &Attribution) -> Option<usize>
    ensures { result ≡ first_of attribution.now }
{
    match attribution {
        Attribution::Nothing => None,
        Attribution::OneClass(first, _) | Attribution::Ambivalent(first) => Some(*first),
    }
}

/// Whether terms of different classes accept it.
fn is_ambivalent(attribution: &Attribution) -> bool
    ensures { result ≡ is_ambivalent attribution.now }
{
    match attribution {
        Attribution::Nothing | Attribution::OneClass(_, _) => false,
        Attribution::Ambivalent(_) => true,
    }
}
