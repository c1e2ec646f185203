//! The automaton of a content model.

ghost use Rattle.std.specs.Prelude.{◌≡◌, ◌↔◌, ◌<◌, ◌^◌, ℕ, List, IsTrue, length, IfOk, IfErr};
ghost use Rattle.xs_names.specs.Names.{NameTable, Grown};
ghost use Rattle.xs_components.specs.Tables.{Tables};
ghost use Rattle.content_automaton.specs.Symbols.{AreNamesOf, symbol_of, count_of};
ghost use Rattle.content_automaton.specs.Terms.{ExpandedName, name_at};
ghost use Rattle.content_automaton.specs.Attribution.{IsAmbivalent};
ghost use Rattle.particle_models.specs.Unrolled.{HasNoAll};
ghost use Rattle.particle_forms.specs.Models.{model_of};
ghost use Rattle.particle_forms.specs.Accepted.{accepts};
ghost use Rattle.content_automaton.specs.Modelled.{IsAmbiguousBy};
ghost use Rattle.content_models.specs.Terms.{model_terms};
ghost use Rattle.content_models.specs.Ways.{IsAllFound};
ghost use Rattle.content_models.specs.Built.{IsSource, IsLimited, IsBuilt, HasRoom, IsRefused, IsFirstIn, is_all, symbols_of, cells_of};

use crate::AllAutomaton;
use crate::all_content::{AllFound, find_all, read_members};
use crate::reading::{read_terms, term_ids};
use crate::refused::ModelError;
use crate::source::ModelSource;
use content_automaton::{Automaton, BuildError, Symbols};
use particle_forms::unroll_by;
use std::alloc::{AllocError, Global};
use xs_components::{ParticleId, TermId};
use xs_names::{NameId, Names};

/// The automaton of a content model, over the names of child elements.
pub enum ContentAutomaton {
    /// Of a model without an `all`.
    States(Automaton),
    /// Of a model that is an `all`.
    All(AllAutomaton),
}

impl ContentAutomaton {
    /// The automaton of the content model of a particle (Structures 3.8.4). Its states times its symbols may be at most
    /// `cells_left`. Where an `all` stands in the model, the model is that `all`, with at most 64 members that come at most
    /// once each.
    ///
    /// # Errors
    /// `TooManyPositions` where there are more than 2,048 positions; else `TooManyStates` where there are more than 2,048
    /// states, of which an `all` counts one; else `TableTooLarge`.
    pub fn build(
        alloc: Global,
        source: ModelSource,
        p: ParticleId,
        cells_left: u32,
    ) -> Result<Result<ContentAutomaton, ModelError>, AllocError>
        requires source { IsSource source.names.now source.parts.now source.members.now source.declarations.now source.inhabited.now }
        requires there { p < length source.parts.now.particles.parts }
        requires limited { IsLimited (model_of source.parts.now p) }
        ensures automaton { IfOk result (λ answer. IfOk answer (IsBuilt source.entry.names.now source.entry.parts.now source.entry.members.now source.entry.classes.now p)) }
        ensures room { IfOk result (λ answer. IfOk answer (HasRoom source.entry.names.now source.entry.parts.now source.entry.members.now p cells_left)) }
        ensures refused { IfOk result (λ answer. IfErr answer (IsRefused source.entry.names.now source.entry.parts.now source.entry.members.now source.entry.classes.now p cells_left)) }
    {
        match find_all(source.parts, p) {
            Some(found) => build_all(alloc, source, found, p, cells_left),
            None => build_states(alloc, source, p, cells_left),
        }
    }

    /// Whether the model is an `all`.
    pub fn is_all(&self) -> bool
        ensures { result ≡ is_all self.now }
    {
        match self {
            ContentAutomaton::States(_) => false,
            ContentAutomaton::All(_) => true,
        }
    }

    /// The cells of its table: states times symbols, where an `all` counts one state.
    pub fn cells(&self) -> u32
        requires { cells_of self.now < 2 ^ 32 }
        ensures cells { result ≡ cells_of self.now }
    {
        match self {
            ContentAutomaton::States(automaton) => {
                u32::from(automaton.width() - 1) * automaton.symbol_count()
            },
            ContentAutomaton::All(automaton) => automaton.symbol_count(),
        }
    }

    /// The symbols of the model, with the names and namespaces that they stand for.
    pub fn symbols(&self) -> &Symbols
        ensures { result.now ≡ symbols_of self.now }
    {
        match self {
            ContentAutomaton::States(automaton) => automaton.symbols(),
            ContentAutomaton::All(automaton) => automaton.symbols(),
        }
    }

    /// The symbol of a name. Names that the automaton was built over, or that have grown from those, are meant.
    pub fn symbol(&self, names: &Names, name: NameId) -> u32
        requires name { name < length names.now.names }
        requires within { AreNamesOf names.now (symbols_of self.now).names }
        ensures symbol { result ≡ symbol_of names.now (symbols_of self.now) (name_at names.now name) }
        ensures below { result < count_of (symbols_of self.now) }
        ensures grown { (old : NameTable) → Grown old names.now → AreNamesOf old (symbols_of self.now).names → (x : ExpandedName) → symbol_of names.now (symbols_of self.now) x ≡ symbol_of old (symbols_of self.now) x }
    {
        match self {
            ContentAutomaton::States(automaton) => automaton.symbol(names, name),
            ContentAutomaton::All(automaton) => automaton.symbol(names, name),
        }
    }

    /// The first term of the model that accepts the names with the symbol, in the order of the schema. `None` where none
    /// does.
    pub fn first_term(&self, symbol: u32) -> Option<TermId>
        ensures { (names : NameTable) (t : Tables) (members : List (List ℕ)) (classes : List ℕ) (p : ℕ) → IsBuilt names t members classes p self.now →
            (name : ExpandedName) → symbol ≡ symbol_of names (symbols_of self.now) name → IsFirstIn names t members classes p name result }
    {
        match self {
            ContentAutomaton::States(automaton) => automaton.first_term(symbol),
            ContentAutomaton::All(automaton) => automaton.first_term(symbol),
        }
    }

    /// Whether the names with the symbol are ambivalent: terms of different classes accept them (Structures 3.4.4).
    pub fn ambivalent(&self, symbol: u32) -> bool
        ensures { (names : NameTable) (t : Tables) (members : List (List ℕ)) (classes : List ℕ) (p : ℕ) → IsBuilt names t members classes p self.now →
            (name : ExpandedName) → symbol ≡ symbol_of names (symbols_of self.now) name → IsTrue result ↔ IsAmbivalent names (model_terms members t classes p) name }
    {
        match self {
            ContentAutomaton::States(automaton) => automaton.ambivalent(symbol),
            ContentAutomaton::All(automaton) => automaton.ambivalent(symbol),
        }
    }

    /// Two terms at different places in which prefixes of words with the same names end (cos-nonambig, Structures 3.8.6).
    /// `None` where there are none.
    pub fn ambiguous(&self) -> Option<(TermId, TermId)>
        ensures { (names : NameTable) (t : Tables) (members : List (List ℕ)) (classes : List ℕ) (p : ℕ) → IsBuilt names t members classes p self.now →
            IsAmbiguousBy (accepts names members t) (model_of t p) result }
    {
        match self {
            ContentAutomaton::States(automaton) => automaton.ambiguous(),
            ContentAutomaton::All(automaton) => automaton.ambiguous(),
        }
    }
}

// The automaton of a model without an `all`.
fn build_states(
    alloc: Global,
    source: ModelSource,
    p: ParticleId,
    cells_left: u32,
) -> Result<Result<ContentAutomaton, ModelError>, AllocError>
    requires source { IsSource source.names.now source.parts.now source.members.now source.declarations.now source.inhabited.now }
    requires there { p < length source.parts.now.particles.parts }
    requires no_all { HasNoAll (model_of source.parts.now p) }
    ensures automaton { IfOk result (λ answer. IfOk answer (IsBuilt source.entry.names.now source.entry.parts.now source.entry.members.now source.entry.classes.now p)) }
    ensures room { IfOk result (λ answer. IfOk answer (HasRoom source.entry.names.now source.entry.parts.now source.entry.members.now p cells_left)) }
    ensures refused { IfOk result (λ answer. IfErr answer (IsRefused source.entry.names.now source.entry.parts.now source.entry.members.now source.entry.classes.now p cells_left)) }
{
    let form = match unroll_by(alloc, source.parts, source.inhabited, p)? {
        Ok(form) => form,
        Err(_) => return Ok(Err(ModelError::TooManyPositions)),
    };
    let ids = term_ids(alloc, source.parts, form.terms())?;
    let terms = read_terms(alloc, source, &ids)?;
    match Automaton::build(alloc, source.names, &form, &ids, &terms, cells_left)? {
        Ok(automaton) => Ok(Ok(ContentAutomaton::States(automaton))),
        Err(BuildError::TooManyStates) => Ok(Err(ModelError::TooManyStates)),
        Err(BuildError::TableTooLarge) => Ok(Err(ModelError::TableTooLarge)),
    }
}

// The automaton of a model that is an `all`.
fn build_all(
    alloc: Global,
    source: ModelSource,
    found: AllFound<'_>,
    p: ParticleId,
    cells_left: u32,
) -> Result<Result<ContentAutomaton, ModelError>, AllocError>
    requires source { IsSource source.names.now source.parts.now source.members.now source.declarations.now source.inhabited.now }
    requires found { IsAllFound source.parts.now p found.members.now found.optional }
    requires limited { IsLimited (model_of source.parts.now p) }
    ensures automaton { IfOk result (λ answer. IfOk answer (IsBuilt source.entry.names.now source.entry.parts.now source.entry.members.now source.entry.classes.now p)) }
    ensures room { IfOk result (λ answer. IfOk answer (HasRoom source.entry.names.now source.entry.parts.now source.entry.members.now p cells_left)) }
    ensures refused { IfOk result (λ answer. IfErr answer (IsRefused source.entry.names.now source.entry.parts.now source.entry.members.now source.entry.classes.now p cells_left)) }
{
    let read = read_members(alloc, source.parts, found.members)?;
    let terms = read_terms(alloc, source, &read.ids)?;
    let automaton = AllAutomaton::build(
        alloc,
        source.names,
        &read.members,
        found.optional,
        &read.ids,
        &terms,
    )?;
    if automaton.symbol_count() > cells_left {
        return Ok(Err(ModelError::TableTooLarge));
    }
    Ok(Ok(ContentAutomaton::All(automaton)))
}

impl Drop for ContentAutomaton {
    fn drop(self) {
        match self {
            ContentAutomaton::States(states) => drop(states),
            ContentAutomaton::All(all) => drop(all),
        }
    }
}
