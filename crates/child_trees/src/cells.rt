//! A cell for each slot of an arena.

ghost use Rattle.std.specs.Prelude.{◌≡◌, ◌≢◌, ℕ, ◌+◌, ◌<◌, ◌≤◌, [], length, OnOk, OnErr};
ghost use Rattle.std.specs.Option.{ForSome};
ghost use Rattle.child_trees.specs.Lists.{map_by};

use crate::summary::Summary;
use std::alloc::{AllocError, Global};
use std::marker::Model;
use xsv_steps::{Ledger, Steps};

/// A summary with a live cell for each slot. Contracts see the map of each.
#[derive(Drop)]
pub struct Cells<M: Summary> {
    summary: M,
    cells: Vec<M::Cell>,
}

impl<M: Summary> Model for Cells<M> {
    ghost use Rattle.std.specs.Prelude.{map};
    ghost use Rattle.child_trees.specs.Cells.{CellMaps, AreCells};

    ghost Value = { CellMaps M.Shape M.Map };

    ghost view = { λ s. record { shape = M.shape s.summary; maps = map (M.map_of s.summary) s.cells.items } };

    ghost invariant = { λ s. AreCells M.live s.summary s.cells.items };
}

impl<M: Summary> Cells<M> {
    ghost use Rattle.child_trees.specs.Cells.{map_at, AreMaps, SetsMap, AddsSlot};

    /// No slots yet.
    pub fn new(alloc: Global, summary: M) -> Cells<M>
        ensures { result ≡ record { shape = M.shape summary; maps = [] } }
    {
        Cells {
            summary,
            cells: Vec::new(alloc),
        }
    }

    /// The number of slots.
    pub fn len(&self) -> usize
        ensures { result ≡ length self.now.maps }
    {
        self.cells.len()
    }

    /// One more slot, with some map.
    pub fn add(&mut self) -> Result<(), AllocError>
        ensures ok { OnOk result (AddsSlot M.unit self.old self.new) }
        ensures err { OnErr result (self.new ≡ self.old) }
    {
        let cell = self.summary.new_cell()?;
        match self.cells.push(cell) {
            Ok(()) => Ok(()),
            Err(_) => {
                self.summary.free(cell);
                Err(AllocError)
            }
        }
    }

    /// Writes the source's map of a letter into a slot, or the unit where there is none.
    pub fn set<L: Ledger>(
        &mut self,
        slot: u32,
        letter: Option<M::Letter>,
        source: &M::Source,
        steps: &mut Steps<L>,
    )
        requires slot { slot < length self.old.maps }
        requires fits { ForSome letter (M.fits self.old.shape source.now) }
        ensures map { SetsMap M.unit self.old self.new slot (map_by (M.unit self.old.shape) (M.leaf source.now) letter) }
        ensures least { steps.old ≤ steps.new }
        ensures steps { steps.new ≤ steps.old + 1 }
    {
        let cell = self.cells[slot as usize];
        match letter {
            Some(letter) => self.summary.set_leaf(&cell, source, letter, steps),
            None => self.summary.set_unit(&cell),
        }
    }

    /// Writes the left slot's map and then the right one's into a third slot.
    pub fn join<L: Ledger>(&mut self, left: u32, right: u32, into: u32, steps: &mut Steps<L>)
        requires left { left < length self.old.maps }
        requires right { right < length self.old.maps }
        requires into { into < length self.old.maps }
        requires not_left { into ≢ left }
        requires not_right { into ≢ right }
        ensures map { SetsMap M.unit self.old self.new into (M.join (map_at M.unit self.old left) (map_at M.unit self.old right)) }
        ensures least { steps.old ≤ steps.new }
        ensures steps { steps.new ≤ steps.old + 1 }
    {
        let a = self.cells[left as usize];
        let b = self.cells[right as usize];
        let cell = self.cells[into as usize];
        self.summary.combine(&a, &b, &cell, steps);
    }

    /// The state after a slot's map.
    pub fn act<L: Ledger>(&self, slot: u32, state: M::State, steps: &mut Steps<L>) -> M::State
        requires slot { slot < length self.now.maps }
        requires state { M.is_state self.now.shape state }
        ensures value { result ≡ M.acts (map_at M.unit self.now slot) state }
        ensures state { M.is_state self.now.shape result }
        ensures maps { AreMaps M.is_map self.now }
        ensures least { steps.old ≤ steps.new }
        ensures steps { steps.new ≤ steps.old + 1 }
    {
        self.summary.act(&self.cells[slot as usize], state, steps)
    }

    /// Whether the state is dead.
    pub fn dead(&self, state: M::State) -> bool
        requires { M.is_state self.now.shape state }
        ensures { result ≡ M.is_dead self.now.shape state }
    {
        self.summary.dead(state)
    }
}
