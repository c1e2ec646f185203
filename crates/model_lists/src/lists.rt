//! The lists.

ghost use Rattle.std.specs.Prelude.{◌≡◌, ◌+◌, ◌*◌, ◌<◌, ◌≤◌, ◌↔◌, ℕ, true, false, IsTrue, List, [], ◌∷◌, ◌++◌, Some, length, insert, remove, take, drop, slice_get, slice_set, slice_index, IfOk, OnOk, OnErr};
ghost use Rattle.child_trees.specs.Bits.{bits};
ghost use Rattle.content_models.specs.declared.automaton.ContentAutomaton.{ContentAutomaton as ContentAutomatonData};
ghost use Rattle.model_terms.specs.Symbols.{AreSymbolsBy};
ghost use Rattle.model_terms.specs.Terms.{is_ambivalent_symbol, stuck_in, term_in};
ghost use Rattle.model_terms.specs.Places.{IsBefore};
ghost use Rattle.model_lists.specs.declared.handle.ModelList.{ModelList as ModelListData};
ghost use Rattle.model_lists.specs.Lists.{IsListOf, IsLive, KeepLists, ambivalent_places};
ghost use Rattle.model_lists.specs.Around.{LeadTo};

use crate::around::ChildState;
use crate::automata::members_of;
use crate::handle::{ListedChild, ModelList};
use crate::leaves::{marked_place, remove_at};
use crate::members::{
    build_member, insert_member, member_from, member_upto, set_member, stuck_member,
};
use crate::rows::{build_row, grow, insert_row, row_from, row_upto, set_row, stuck_row, term_row};
use child_trees::Seqs;
use content_models::ContentAutomaton;
use model_summaries::{AllSummary, RowSummary};
use model_terms::{first_term, is_ambivalent_symbol, member_term};
use std::alloc::{AllocError, Global};
use std::marker::Model;
use xs_components::TermId;
use xsv_steps::{Ledger, Steps};

/// Lists of child elements, each by the automaton of its parent's content model (Structures 3.8.4). Contracts see a list as the
/// symbols of its child elements.
///
/// A call changes one list at most; where memory runs out, none. Steps are bounded by `bits`, the number of binary digits.
pub struct ModelLists {
    alloc: Global,
    /// Those of automata over states, by the number of the dead state.
    rows: Vec<Seqs<RowSummary>>,
    /// Those of `all`s.
    alls: Seqs<AllSummary>,
}

impl Model for ModelLists {
    ghost use Rattle.model_lists.specs.Lists.{ListsView};
    ghost use Rattle.model_lists.specs.Inside.{AreShaped};

    ghost Value = { ListsView };

    ghost view = { λ s. record { rows = s.rows.items; alls = s.alls } };

    ghost invariant = { λ s. AreShaped s.rows.items };
}

impl ModelLists {
    /// No lists yet.
    pub fn new(alloc: Global) -> ModelLists
        ensures { (h : ModelListData) → ¬ IsLive result h }
    {
        ModelLists {
            alloc,
            rows: Vec::new(alloc),
            alls: Seqs::new(alloc, AllSummary::new(alloc)),
        }
    }

    /// A new list of child elements with these symbols. It takes at most two steps for each.
    ///
    /// # Errors
    /// When memory runs out.
    pub fn make<L: Ledger>(
        &mut self,
        automaton: &ContentAutomaton,
        symbols: &[u32],
        steps: &mut Steps<L>,
    ) -> Result<ModelList, AllocError>
        requires { AreSymbolsBy automaton.now symbols.now }
        ensures fresh { IfOk result (λ h. ¬ IsLive self.old h) }
        ensures list { IfOk result (λ h. IsListOf self.new h automaton.now symbols.now) }
        ensures others { KeepLists self.old self.new (λ _. ⊥) }
        ensures least { steps.old ≤ steps.new }
        ensures steps { steps.new ≤ steps.old + 2 * length symbols.now }
    {
        match automaton {
            ContentAutomaton::States(states) => {
                let dead = states.width() - 1;
                grow(self.alloc, &mut self.rows, dead)?;
                let lists = &mut self.rows[dead as usize];
                let list = build_row(self.alloc, lists, automaton, symbols, steps)?;
                Ok(ModelList {
                    dead: Some(dead),
                    list,
                })
            }
            ContentAutomaton::All(_) => {
                let list = build_member(self.alloc, &mut self.alls, automaton, symbols, steps)?;
                Ok(ModelList { dead: None, list })
            }
        }
    }

    /// Puts a child element before a place of a list, or at its end. It takes at most `16 * (bits(n + 1) + 1)` steps, where the list
    /// then has `n` children.
    ///
    /// # Errors
    /// When memory runs out.
    pub fn insert<L: Ledger>(
        &mut self,
        list: ModelList,
        automaton: &ContentAutomaton,
        child: ListedChild,
        steps: &mut Steps<L>,
    ) -> Result<(), AllocError>
        requires list { (symbols : List ℕ) × IsListOf self.old list automaton.now symbols × (child.place ≤ length symbols) }
        requires symbol { AreSymbolsBy automaton.now (child.symbol ∷ []) }
        ensures list { OnOk result ((symbols : List ℕ) → IsListOf self.old list automaton.now symbols → IsListOf self.new list automaton.now (insert symbols child.place child.symbol)) }
        ensures err { OnErr result (self.new ≡ self.old) }
        ensures others { KeepLists self.old self.new (λ g. g ≡ list) }
        ensures least { steps.old ≤ steps.new }
        ensures steps { (symbols : List ℕ) → IsListOf self.old list automaton.now symbols → steps.new ≤ steps.old + 16 * (bits (length symbols + 2) + 1) }
    {
        match list.dead {
            Some(dead) => {
                insert_row(
                    &mut self.rows[dead as usize],
                    list.list,
                    automaton,
                    child,
                    steps,
                )
            }
            None => insert_member(&mut self.alls, list.list, automaton, child, steps),
        }
    }

    /// Takes the child element at a place out of a list. It takes at most `16 * (bits(n + 1) + 1)` steps, where the list had `n`
    /// children.
    pub fn remove<L: Ledger>(&mut self, list: ModelList, place: u32, steps: &mut Steps<L>)
        requires { (a : ContentAutomatonData) × (symbols : List ℕ) × IsListOf self.old list a symbols × (place < length symbols) }
        ensures list { (a : ContentAutomatonData) (symbols : List ℕ) → IsListOf self.old list a symbols → IsListOf self.new list a (remove symbols place) }
        ensures others { KeepLists self.old self.new (λ g. g ≡ list) }
        ensures least { steps.old ≤ steps.new }
        ensures steps { (a : ContentAutomatonData) (symbols : List ℕ) → IsListOf self.old list a symbols → steps.new ≤ steps.old + 16 * (bits (length symbols + 1) + 1) }
    {
        match list.dead {
            Some(dead) => {
                remove_at(&mut self.rows[dead as usize], list.list, place, steps);
            }
            None => remove_at(&mut self.alls, list.list, place, steps),
        }
    }

    /// Writes another symbol in the place of a child element. It takes at most `16 * (bits(n + 1) + 1)` steps, where the list has `n`
    /// children.
    pub fn set<L: Ledger>(
        &mut self,
        list: ModelList,
        automaton: &ContentAutomaton,
        child: ListedChild,
        steps: &mut Steps<L>,
    )
        requires list { (symbols : List ℕ) × IsListOf self.old list automaton.now symbols × (child.place < length symbols) }
        requires symbol { AreSymbolsBy automaton.now (child.symbol ∷ []) }
        ensures list { (symbols : List ℕ) → IsListOf self.old list automaton.now symbols → IsListOf self.new list automaton.now (slice_set symbols child.place child.symbol) }
        ensures others { KeepLists self.old self.new (λ g. g ≡ list) }
        ensures least { steps.old ≤ steps.new }
        ensures steps { (symbols : List ℕ) → IsListOf self.old list automaton.now symbols → steps.new ≤ steps.old + 16 * (bits (length symbols + 1) + 1) }
    {
        match list.dead {
            Some(dead) => {
                set_row(
                    &mut self.rows[dead as usize],
                    list.list,
                    automaton,
                    child,
                    steps,
                );
            }
            None => set_member(&mut self.alls, list.list, automaton, child, steps),
        }
    }

    /// The place where the `count` child elements of a list get stuck (Structures 3.4.4): `count` where all of them begin a word but
    /// are none, `None` where they are a word. It takes at most `8 * (bits(n + 1) + 1) + 1` steps, where the list has `n` children.
    pub fn stuck<L: Ledger>(
        &self,
        list: ModelList,
        automaton: &ContentAutomaton,
        count: u32,
        steps: &mut Steps<L>,
    ) -> Option<u32>
        requires { (symbols : List ℕ) × IsListOf self.now list automaton.now symbols × (count ≡ length symbols) }
        ensures stuck { (symbols : List ℕ) → IsListOf self.now list automaton.now symbols → result ≡ stuck_in (Some automaton.now) symbols }
        ensures least { steps.old ≤ steps.new }
        ensures steps { (symbols : List ℕ) → IsListOf self.now list automaton.now symbols → steps.new ≤ steps.old + (8 * (bits (length symbols + 1) + 1) + 1) }
    {
        match list.dead {
            Some(dead) => {
                stuck_row(
                    &self.rows[dead as usize],
                    list.list,
                    automaton,
                    count,
                    steps,
                )
            }
            None => stuck_member(&self.alls, list.list, automaton, count, steps),
        }
    }

    /// The place of a child element whose symbol is ambivalent, by its number among these, from 0, or none past the last.
    pub fn marked(&self, list: ModelList, number: u32) -> Option<u32>
        requires { IsLive self.now list }
        ensures { (a : ContentAutomatonData) (symbols : List ℕ) → IsListOf self.now list a symbols → result ≡ slice_get (ambivalent_places a symbols) number }
    {
        match list.dead {
            Some(dead) => marked_place(&self.rows[dead as usize], list.list, number),
            None => marked_place(&self.alls, list.list, number),
        }
    }

    /// The term of a child element of a list that gets stuck at this place (Structures 3.4.4). It takes at most `8 * (bits(n + 1) + 1)`
    /// steps, where the list has `n` children, and none where the child's symbol is not ambivalent.
    pub fn term<L: Ledger>(
        &self,
        list: ModelList,
        automaton: &ContentAutomaton,
        child: ListedChild,
        stuck: Option<u32>,
        steps: &mut Steps<L>,
    ) -> Option<TermId>
        requires { (symbols : List ℕ) × IsListOf self.now list automaton.now symbols × (child.place < length symbols) × (slice_index symbols child.place ≡ child.symbol) × AreSymbolsBy automaton.now symbols }
        ensures term { (symbols : List ℕ) → IsListOf self.now list automaton.now symbols → slice_index symbols child.place ≡ child.symbol → AreSymbolsBy automaton.now symbols →
            stuck ≡ stuck_in (Some automaton.now) symbols → result ≡ term_in (Some automaton.now) symbols child.place }
        ensures least { steps.old ≤ steps.new }
        ensures steps { (symbols : List ℕ) → IsListOf self.now list automaton.now symbols → steps.new ≤ steps.old + 8 * (bits (length symbols + 1) + 1) }
        ensures none { is_ambivalent_symbol automaton.now child.symbol ≡ false → steps.new ≡ steps.old }
    {
        if !goes_by_place(automaton, child, stuck) {
            return first_term(automaton, child.symbol);
        }
        match list.dead {
            Some(dead) => {
                term_row(
                    &self.rows[dead as usize],
                    list.list,
                    automaton,
                    child,
                    steps,
                )
            }
            None => member_term(members_of(automaton), child.symbol),
        }
    }

    /// Where the child elements of a list before a place lead to, by its automaton (Structures 3.8.4). It takes at most
    /// `8 * (bits(n + 1) + 1)` steps, where the list has `n` children.
    pub fn upto<L: Ledger>(
        &self,
        list: ModelList,
        automaton: &ContentAutomaton,
        place: u32,
        steps: &mut Steps<L>,
    ) -> ChildState
        requires { (symbols : List ℕ) × IsListOf self.now list automaton.now symbols × (place ≤ length symbols) }
        ensures state { (symbols : List ℕ) → IsListOf self.now list automaton.now symbols → LeadTo automaton.now (take place symbols) result }
        ensures least { steps.old ≤ steps.new }
        ensures steps { (symbols : List ℕ) → IsListOf self.now list automaton.now symbols → steps.new ≤ steps.old + 8 * (bits (length symbols + 1) + 1) }
    {
        match list.dead {
            Some(dead) => {
                row_upto(
                    &self.rows[dead as usize],
                    list.list,
                    automaton,
                    place,
                    steps,
                )
            }
            None => member_upto(&self.alls, list.list, automaton, place, steps),
        }
    }

    /// Where the child elements of a list from a place on lead to, after others that lead to a state (Structures 3.8.4). It takes at
    /// most `8 * (bits(n + 1) + 1)` steps, where the list has `n` children.
    pub fn from<L: Ledger>(
        &self,
        list: ModelList,
        place: u32,
        state: ChildState,
        steps: &mut Steps<L>,
    ) -> ChildState
        requires { (a : ContentAutomatonData) × (before : List ℕ) × (symbols : List ℕ) × LeadTo a before state × IsListOf self.now list a symbols × (place ≤ length symbols) }
        ensures state { (a : ContentAutomatonData) (before symbols : List ℕ) → LeadTo a before state → IsListOf self.now list a symbols → LeadTo a (before ++ drop place symbols) result }
        ensures least { steps.old ≤ steps.new }
        ensures steps { (a : ContentAutomatonData) (symbols : List ℕ) → IsListOf self.now list a symbols → steps.new ≤ steps.old + 8 * (bits (length symbols + 1) + 1) }
    {
        match list.dead {
            Some(dead) => { row_from(&self.rows[dead as usize], list.list, place, state, steps) }
            None => member_from(&self.alls, list.list, place, state, steps),
        }
    }

    /// Gives a list back. Its handle may be given out again.
    pub fn give(&mut self, list: ModelList)
        requires { IsLive self.old list }
        ensures gone { ¬ IsLive self.new list }
        ensures others { KeepLists self.old self.new (λ g. g ≡ list) }
    {
        match list.dead {
            Some(dead) => self.rows[dead as usize].drop_seq(list.list),
            None => self.alls.drop_seq(list.list),
        }
    }
}

// Whether the term of a child is the one at its place, and not the first that accepts its name: its symbol is ambivalent, and it is
// before the place where the child elements get stuck.
fn goes_by_place(automaton: &ContentAutomaton, child: ListedChild, stuck: Option<u32>) -> bool
    requires { AreSymbolsBy automaton.now (child.symbol ∷ []) }
    ensures { IsTrue result ↔ ((is_ambivalent_symbol automaton.now child.symbol ≡ true) × IsBefore stuck child.place) }
{
    if !is_ambivalent_symbol(automaton, child.symbol) {
        return false;
    }
    match stuck {
        Some(stuck) => child.place < stuck,
        None => true,
    }
}

impl Drop for ModelLists {
    fn drop(self) {
        let ModelLists {
            alloc: _,
            rows,
            alls,
        } = self;
        drop(rows);
        drop(alls);
    }
}
