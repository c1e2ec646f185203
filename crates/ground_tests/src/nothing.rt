//! A summary that keeps nothing of the leaves of a list.

ghost use Rattle.std.specs.Prelude.{◌<◌, false};
ghost use Rattle.ground_tests.specs.Nothing.{Nothing as NoThing, nothing_laws};

use child_trees::Summary;
use std::alloc::AllocError;
use xsv_steps::{Ledger, Steps};

/// How many cells were made.
#[derive(Drop)]
pub struct Nothing {
    pub cells: u32,
}

impl Summary for Nothing {
    type Cell = u32;

    type State = ();

    type Source = ();

    type Letter = ();

    type Map = ();

    type Shape = ();

    ghost shape = { λ _. tt };

    ghost live = { λ s c. c < s.cells };

    ghost map_of = { λ _ _. tt };

    ghost is_state = { λ _ _. NoThing };

    ghost is_map = { λ _ _. NoThing };

    ghost is_dead = { λ _ _. false };

    ghost fits = { λ _ _ _. NoThing };

    ghost unit = { λ _. tt };

    ghost join = { λ _ _. tt };

    ghost leaf = { λ _ _. tt };

    ghost acts = { λ _ _. tt };

    ghost maps = { λ _ _ _. tt };

    ghost leaves = { λ _ _ _ _. tt };

    ghost laws = { nothing_laws };

    fn new_cell(&mut self) -> Result<u32, AllocError> {
        let cell = self.cells;
        if cell == u32::MAX {
            return Err(AllocError);
        }
        self.cells = cell + 1;
        Ok(cell)
    }

    fn free(&mut self, _cell: u32) {}

    fn set_unit(&mut self, _cell: &u32) {}

    fn set_leaf<L: Ledger>(
        &mut self,
        _cell: &u32,
        _source: &(),
        _letter: (),
        _steps: &mut Steps<L>,
    ) {}

    fn combine<L: Ledger>(
        &mut self,
        _left: &u32,
        _right: &u32,
        _into: &u32,
        _steps: &mut Steps<L>,
    ) {}

    fn act<L: Ledger>(&self, _cell: &u32, _state: (), _steps: &mut Steps<L>) {}

    fn dead(&self, _state: ()) -> bool {
        false
    }
}
