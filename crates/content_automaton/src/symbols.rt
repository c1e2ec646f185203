//! The symbols of a model.

ghost use Rattle.std.specs.Prelude.{◌≡◌, ℕ, ◌<◌, ◌==◌, ◌^◌, [], ◌∷◌, ◌++◌, map, length, All, OnOk, IfOk};
ghost use Rattle.xs_names.specs.Names.{NameTable, Grown};
ghost use Rattle.xs_names.specs.Numbering.{with_item, HasNoRepeats};
ghost use Rattle.content_automaton.specs.declared.symbol_terms.Given.{Given as GivenData};
ghost use Rattle.content_automaton.specs.Terms.{ExpandedName, name_at, names_of, spaces_of, spaces_in};
ghost use Rattle.content_automaton.specs.Symbols.{AreSymbolsOf, AreNamesOf, count_of, symbol_of};
ghost use Rattle.content_automaton.specs.Rows.{with_all, admits_symbol, is_open, AreListed};

use crate::spaces::admits;
use crate::symbol_terms::{Accepts, Given};
use key_sets::KeySet;
use std::alloc::{AllocError, Global};
use std::collections::HashSet;
use std::marker::Model;
use xs_components::NsConstraint;
use xs_names::{NameId, Names, NsId};

/// How many names, and how many namespaces, may have symbols of their own. Memory is wanting before.
const MOST: usize = 1 << 30;

/// The symbols of a model: one for each name that an element term accepts, one for each namespace that a wildcard names, and
/// one more. They are numbered in this order.
#[derive(Drop)]
pub struct Symbols {
    pub(crate) names: KeySet<NameId>,
    pub(crate) spaces: KeySet<NsId>,
}

impl Model for Symbols {
    ghost use Rattle.std.specs.Prelude.{◌≤◌, ◌^◌, length};
    ghost use Rattle.xs_names.specs.Numbering.{HasNoRepeats};
    ghost use Rattle.content_automaton.specs.Symbols.{SymbolTable};

    ghost Value = { SymbolTable };

    ghost view = { λ s. record { names = s.names; spaces = s.spaces } };

    ghost invariant = { λ s. (length s.names ≤ 2 ^ 30) × (length s.spaces ≤ 2 ^ 30) × HasNoRepeats s.names × HasNoRepeats s.spaces };
}

impl Symbols {
    /// The symbols of a model with these terms.
    pub fn of(alloc: Global, terms: &[Accepts]) -> Result<Symbols, AllocError>
        ensures { IfOk result (AreSymbolsOf terms.now) }
    {
        let mut symbols = Symbols {
            names: KeySet::new(alloc),
            spaces: KeySet::new(alloc),
        };
        for term in terms {
            symbols.add_term(term)?;
        }
        let _ = &symbols.names;
        Ok(symbols)
    }

    fn add_term(&mut self, term: &Accepts) -> Result<(), AllocError>
        ensures names { OnOk result (self.new.names ≡ with_all self.old.names (names_of term.now)) }
        ensures spaces { OnOk result (self.new.spaces ≡ with_all self.old.spaces (spaces_of term.now)) }
    {
        match term {
            Accepts::Element(given) => self.add_names(given.as_slice()),
            Accepts::Wildcard(namespaces, _) => self.add_wildcard(namespaces),
        }
    }

    fn add_wildcard(&mut self, namespaces: &NsConstraint) -> Result<(), AllocError>
        ensures names { OnOk result (self.new.names ≡ self.old.names) }
        ensures spaces { OnOk result (self.new.spaces ≡ with_all self.old.spaces (spaces_in namespaces.now)) }
    {
        match namespaces {
            NsConstraint::Any => Ok(()),
            NsConstraint::Not(excluded) => self.add_spaces(&[*excluded, NsId::ABSENT]),
            NsConstraint::In(listed) => self.add_spaces(listed.as_slice()),
        }
    }

    fn add_names(&mut self, given: &[Given]) -> Result<(), AllocError>
        ensures names { OnOk result (self.new.names ≡ with_all self.old.names (map (λ (g : GivenData). g.name) given.now)) }
        ensures spaces { OnOk result (self.new.spaces ≡ self.old.spaces) }
    {
        for one in given {
            self.add_name(&one.name)?;
        }
        Ok(())
    }

    fn add_spaces(&mut self, spaces: &[NsId]) -> Result<(), AllocError>
        ensures names { OnOk result (self.new.names ≡ self.old.names) }
        ensures spaces { OnOk result (self.new.spaces ≡ with_all self.old.spaces spaces.now) }
    {
        for space in spaces {
            self.add_space(*space)?;
        }
        Ok(())
    }

    fn add_name(&mut self, name: &NameId) -> Result<(), AllocError>
        ensures names { OnOk result (self.new.names ≡ with_item (λ a b. a == b) self.old.names name.now) }
        ensures spaces { OnOk result (self.new.spaces ≡ self.old.spaces) }
    {
        if self.names.get_index_of(name).is_some() {
            return Ok(());
        }
        if self.names.len() >= MOST {
            return Err(AllocError);
        }
        self.names.insert(*name)?;
        Ok(())
    }

    fn add_space(&mut self, space: NsId) -> Result<(), AllocError>
        ensures names { OnOk result (self.new.names ≡ self.old.names) }
        ensures spaces { OnOk result (self.new.spaces ≡ with_item (λ a b. a == b) self.old.spaces space) }
    {
        if self.spaces.get_index_of(&space).is_some() {
            return Ok(());
        }
        if self.spaces.len() >= MOST {
            return Err(AllocError);
        }
        self.spaces.insert(space)?;
        Ok(())
    }

    /// The names with symbols of their own, in the order of these, which are the first.
    pub fn names(&self) -> &[NameId]
        ensures { result.now ≡ self.now.names }
    {
        self.names.as_slice()
    }

    /// The namespaces with symbols of their own, in the order of these, which come behind those of names.
    pub fn spaces(&self) -> &[NsId]
        ensures { result.now ≡ self.now.spaces }
    {
        self.spaces.as_slice()
    }

    /// How many symbols there are.
    pub fn count(&self) -> u32
        ensures count { result ≡ count_of self.now }
        ensures named { (t : NameTable) → AreNamesOf t self.now.names → HasNoRepeats t.names → (n : ℕ) → n < count_of self.now → (name : ExpandedName) × (symbol_of t self.now name ≡ n) }
    {
        (self.names.len() + self.spaces.len() + 1) as u32
    }

    /// The symbol of a name.
    pub fn symbol(&self, names: &Names, name: NameId) -> u32
        requires name { name < length names.now.names }
        requires within { AreNamesOf names.now self.now.names }
        ensures symbol { result ≡ symbol_of names.now self.now (name_at names.now name) }
        ensures below { result < count_of self.now }
        ensures grown { (old : NameTable) → Grown old names.now → AreNamesOf old self.now.names → (x : ExpandedName) → symbol_of names.now self.now x ≡ symbol_of old self.now x }
    {
        let space = names.ns(name);
        if let Some(own) = self.names.get_index_of(&name) {
            return own as u32;
        }
        if let Some(found) = self.spaces.get_index_of(&space) {
            return (self.names.len() + found) as u32;
        }
        (self.names.len() + self.spaces.len()) as u32
    }

    /// Whether a wildcard with this constraint, whose namespaces are these, accepts the names that have the symbol.
    pub(crate) fn is_admitted(
        &self,
        names: &Names,
        namespaces: &NsConstraint,
        listed: &HashSet<NsId>,
        symbol: u32,
    ) -> bool
        requires names { AreNamesOf names.now self.now.names }
        requires listed { AreListed namespaces.now listed.now }
        ensures { result ≡ admits_symbol names.now self.now namespaces.now symbol }
    {
        let place = symbol as usize;
        let own = self.names.as_slice();
        if place < own.len() {
            return admits(namespaces, listed, names.ns(own[place]));
        }
        let spaces = self.spaces.as_slice();
        if place < own.len() + spaces.len() {
            return admits(namespaces, listed, spaces[place - own.len()]);
        }
        is_open(namespaces)
    }
}

/// Whether namespaces are admitted that the constraint does not name.
fn is_open(namespaces: &NsConstraint) -> bool
    ensures { result ≡ is_open namespaces.now }
{
    match namespaces {
        NsConstraint::Any | NsConstraint::Not(_) => true,
        NsConstraint::In(_) => false,
    }
}
