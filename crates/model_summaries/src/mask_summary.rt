//! The summary.

ghost use Rattle.std.specs.Prelude.{◌<◌, Bool, length, slice_index_or};
ghost use Rattle.model_summaries.specs.Masks.{no_children, of_letter, joined, acts};
ghost use Rattle.model_summaries.specs.LawfulMasks.{masks_laws};
ghost use Rattle.model_summaries.specs.declared.map.AllMap.{AllMap as AllMapData};
ghost use Rattle.content_models.specs.declared.state.AllState.{AllState as AllStateData};

use crate::map::AllMap;
use child_trees::Summary;
use content_models::AllState;
use std::alloc::{AllocError, Global};
use xsv_steps::{Ledger, Steps};

/// The summary of children by the numbers of the members of an `all` that they are of; 64 stands for a child that is of none.
#[derive(Drop)]
pub struct AllSummary {
    cells: Vec<AllMap>,
}

impl AllSummary {
    /// No cells yet.
    pub fn new(alloc: Global) -> AllSummary {
        AllSummary {
            cells: Vec::new(alloc),
        }
    }
}

impl Summary for AllSummary {
    type Cell = u32;

    type State = AllState;

    type Source = ();

    type Letter = u16;

    type Map = AllMap;

    type Shape = ();

    ghost shape = { λ _. tt };

    ghost live = { λ s c. c < length s.cells.items };

    ghost map_of = { λ s c. slice_index_or s.cells.items c no_children };

    ghost is_state = { λ _ _. Unit {0} };

    ghost is_map = { λ _ _. Unit {0} };

    ghost is_dead = { λ _ (s : AllStateData). s.dead };

    ghost fits = { λ _ _ _. Unit {0} };

    ghost unit = { λ _. no_children };

    ghost join = { joined };

    ghost leaf = { λ _ letter. of_letter letter };

    ghost acts = { acts };

    ghost maps = { λ _ _ _. tt };

    ghost leaves = { λ _ _ _ _. tt };

    ghost laws = { masks_laws };

    fn new_cell(&mut self) -> Result<u32, AllocError> {
        if self.cells.len() >= u32::MAX as usize {
            return Err(AllocError);
        }
        let cell = self.cells.len() as u32;
        self.cells.push(AllMap::unit())?;
        Ok(cell)
    }

    /// The last cell is given back; any other is kept for as long as the summary is.
    fn free(&mut self, cell: u32) {
        if cell as usize + 1 == self.cells.len() {
            self.cells.pop();
        }
    }

    fn set_unit(&mut self, cell: &u32) {
        self.cells[*cell as usize] = AllMap::unit();
    }

    fn set_leaf<L: Ledger>(&mut self, cell: &u32, _source: &(), letter: u16, steps: &mut Steps<L>) {
        steps.tick();
        self.cells[*cell as usize] = AllMap::of(letter);
    }

    fn combine<L: Ledger>(&mut self, left: &u32, right: &u32, into: &u32, steps: &mut Steps<L>) {
        steps.tick();
        let map = self.cells[*left as usize].then(self.cells[*right as usize]);
        self.cells[*into as usize] = map;
    }

    fn act<L: Ledger>(&self, cell: &u32, state: AllState, steps: &mut Steps<L>) -> AllState {
        steps.tick();
        self.cells[*cell as usize].after(state)
    }

    fn dead(&self, state: AllState) -> bool {
        state.dead
    }
}
