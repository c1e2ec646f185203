//! The summary.

ghost use Rattle.std.specs.Prelude.{◌≡◌, ◌+◌, ◌-◌, ◌<◌, ◌≤◌, ◌==◌, ℕ, [], IfOk, slice_index};
ghost use Rattle.map_rows.specs.Rows.{identity, composed};
ghost use Rattle.content_automaton.specs.Symbols.{count_of};
ghost use Rattle.model_summaries.specs.Maps.{IsMap, IsMapRow, map_at, width_of, leaf_of};
ghost use Rattle.model_summaries.specs.Lawful.{maps_laws, row_maps, leaf_maps};

use crate::leaf::leaf_row;
use child_trees::Summary;
use content_automaton::Automaton;
use map_rows::{RowId, Rows};
use std::alloc::{AllocError, Global};
use std::marker::Model;
use xsv_steps::{Ledger, Steps};

/// For each state of an automaton the state that children lead to. No value of it is made: it is what proofs see of a row.
/// Contracts see the list of the states.
#[derive(Drop)]
pub struct StateMap {
    states: Vec<u16>,
}

impl Model for StateMap {
    ghost use Rattle.std.specs.Prelude.{ℕ, List};

    ghost Value = { List ℕ };

    ghost view = { λ m. m.states.items };
}

/// The summary of children by the automata of content models with one number of states, `width`, the dead one included, which is
/// the last. Contracts see its rows.
#[derive(Drop)]
pub struct RowSummary {
    width: u16,
    rows: Rows,
}

impl Model for RowSummary {
    ghost use Rattle.map_rows.specs.Rows.{RowMap};
    ghost use Rattle.std.specs.Prelude.{◌≡◌, ◌+◌};

    ghost Value = { RowMap };

    ghost view = { λ s. s.rows };

    ghost invariant = { λ s. (s.rows.width ≡ s.width) × (s.rows.cap + 1 ≡ s.width) };
}

impl RowSummary {
    /// No rows yet, for automata with so many states.
    pub fn new(alloc: Global, width: u16) -> Result<RowSummary, AllocError>
        requires { 1 ≤ width }
        ensures { IfOk result (λ s. s ≡ record { width = width; cap = width - 1; rows = [] }) }
    {
        let rows = Rows::new(alloc, width)?;
        Ok(RowSummary { width, rows })
    }
}

impl Summary for RowSummary {
    type Cell = RowId;

    type State = u16;

    type Source = Automaton;

    type Letter = u32;

    type Map = StateMap;

    type Shape = u16;

    ghost shape = { λ s. s.width };

    ghost live = { IsMapRow };

    ghost map_of = { map_at };

    ghost is_state = { λ width s. s < width };

    ghost is_map = { IsMap };

    ghost is_dead = { λ width s. s + 1 == width };

    ghost fits = { λ width a n. (width_of a ≡ width) × (n < count_of a.symbols) };

    ghost unit = { identity };

    ghost join = { composed };

    ghost leaf = { leaf_of };

    ghost acts = { slice_index };

    ghost maps = { row_maps };

    ghost leaves = { leaf_maps };

    ghost laws = { maps_laws };

    /// A new cell is the unit, since a live cell has a map, whose last state is dead.
    fn new_cell(&mut self) -> Result<RowId, AllocError> {
        let row = self.rows.take_row()?;
        self.rows.set_identity(row);
        Ok(row)
    }

    fn free(&mut self, cell: RowId) {
        self.rows.give_row(cell);
    }

    fn set_unit(&mut self, cell: &RowId) {
        self.rows.set_identity(*cell);
    }

    fn set_leaf<L: Ledger>(
        &mut self,
        cell: &RowId,
        source: &Automaton,
        letter: u32,
        steps: &mut Steps<L>,
    ) {
        leaf_row(source, &mut self.rows, *cell, letter, steps);
    }

    fn combine<L: Ledger>(
        &mut self,
        left: &RowId,
        right: &RowId,
        into: &RowId,
        steps: &mut Steps<L>,
    ) {
        self.rows.compose_into(*left, *right, *into, steps);
    }

    fn act<L: Ledger>(&self, cell: &RowId, state: u16, steps: &mut Steps<L>) -> u16 {
        self.rows.apply(*cell, state, steps)
    }

    fn dead(&self, state: u16) -> bool {
        u32::from(state) + 1 == u32::from(self.width)
    }
}
