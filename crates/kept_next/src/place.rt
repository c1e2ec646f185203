ghost use Rattle.std.specs.Prelude.{◌≡◌, ◌<◌, ◌^◌, ℕ, ◌≤◌, List, length, IfOk};
ghost use Rattle.content_automaton.specs.Terms.{ExpandedName};
ghost use Rattle.assessment.specs.Attribution.{SchemaSet};
ghost use Rattle.content_automaton.specs.Symbols.{AreNamesOf};
ghost use Rattle.content_models.specs.Built.{symbols_of};
ghost use Rattle.kept_next.specs.Order.{IsOrderOf};
ghost use Rattle.kept_next.specs.Place.{IsListBy, IsPlaceBy};
ghost use Rattle.kept_next.specs.Spaces.{AreSpacesOf};

use crate::{Symbol, symbol_order};
use content_models::ContentAutomaton;
use model_lists::{ModelList, ModelLists};
use std::alloc::{AllocError, Global};
use std::marker::Model;
use xs_names::Names;

/// The child elements of an element as a list, with the automaton of the content model of its type.
#[derive(Clone, Copy)]
pub struct ChildList<'a> {
    pub lists: &'a ModelLists,
    pub list: ModelList,
    pub automaton: &'a ContentAutomaton,
}

/// A place of a list of child elements: which names may stand there is asked of it by `Around`.
#[derive(Drop)]
pub struct AroundAt<'a> {
    pub(crate) lists: &'a ModelLists,
    pub(crate) list: ModelList,
    pub(crate) automaton: &'a ContentAutomaton,
    /// The symbols of the automaton in the order in which they are printed.
    pub(crate) symbols: Vec<Symbol>,
    pub(crate) place: u32,
}

impl<'a> Model for AroundAt<'a> {
    ghost use Rattle.kept_next.specs.Place.{ListPlace};

    ghost Value = { ListPlace };

    ghost use Rattle.kept_next.specs.Held.{place_of, IsHeld};

    ghost view = { place_of };

    ghost invariant = { IsHeld };
}

impl<'a> AroundAt<'a> {
    /// A place of a list of child elements, by the names of their schema set.
    ///
    /// # Errors
    ///
    /// `AllocError` is want of memory.
    pub fn new(
        alloc: Global,
        names: &Names,
        children: ChildList<'a>,
        place: u32,
    ) -> Result<AroundAt<'a>, AllocError>
        requires { (s : SchemaSet) × (p : ℕ) × (given : List ExpandedName) × IsListBy children.lists.now children.list children.automaton.now s p given × (s.names ≡ names.now) × (place ≤ length given) }
        ensures lists { IfOk result (λ v. v.lists ≡ children.entry.lists.now) }
        ensures list { IfOk result (λ v. v.list ≡ children.entry.list) }
        ensures automaton { IfOk result (λ v. v.automaton ≡ children.entry.automaton.now) }
        ensures place { IfOk result (λ v. v.place ≡ place) }
        ensures is { IfOk result (λ v. (s : SchemaSet) (p : ℕ) (given : List ExpandedName) → IsListBy children.entry.lists.now children.entry.list children.entry.automaton.now s p given → s.names ≡ names.now → place ≤ length given →
            IsPlaceBy v s p given) }
    {
        let symbols = ordered(alloc, names, children.automaton)?;
        Ok(AroundAt {
            lists: children.lists,
            list: children.list,
            automaton: children.automaton,
            symbols,
            place,
        })
    }
}

// The symbols of an automaton in the order in which they are printed.
fn ordered(
    alloc: Global,
    names: &Names,
    automaton: &ContentAutomaton,
) -> Result<Vec<Symbol>, AllocError>
    requires names { AreNamesOf names.now (symbols_of automaton.now).names }
    requires spaces { AreSpacesOf names.now (symbols_of automaton.now).spaces }
    ensures ordered { IfOk result (λ symbols. IsOrderOf names.now (symbols_of automaton.now).names (symbols_of automaton.now).spaces symbols.items) }
    ensures few { IfOk result (λ symbols. length symbols.items < 2 ^ 32) }
{
    let symbols = automaton.symbols();
    let _count = symbols.count();
    match symbol_order(alloc, names, symbols.names(), symbols.spaces()) {
        Ok(ordered) => Ok(ordered.into_vec()),
        Err(error) => Err(error),
    }
}
