//! What is kept of a list of children, so that the child at a place, and the first element from there on, are found.

ghost use Rattle.std.specs.Prelude.{◌≡◌, ◌<◌, ℕ, Option, Bool, false, length, slice_index_or};
ghost use Rattle.doc_nodes.specs.Firsts.{no_child, firsts_of, firsts_joined, first_found};
ghost use Rattle.doc_nodes.specs.FirstLaws.{first_laws};

use child_trees::Summary;
use std::alloc::{AllocError, Global};
use xsv_steps::{Ledger, Steps};

/// The first child of some, and the first element among them, by their numbers.
#[derive(Clone, Copy)]
pub struct First {
    pub child: Option<u32>,
    pub element: Option<u32>,
}

/// A child, and whether it is an element.
#[derive(Clone, Copy)]
pub struct Child {
    pub number: u32,
    pub is_element: bool,
}

/// Of no children.
pub(crate) const NO_CHILD: First = First {
    child: None,
    element: None,
};

/// The first of these, or of those where there is none.
pub(crate) fn joined(these: First, those: First) -> First
    ensures { result ≡ firsts_joined these those }
{
    First {
        child: these.child.or(those.child),
        element: these.element.or(those.element),
    }
}

/// Of one child.
pub(crate) fn first_of(child: Child) -> First
    ensures { result ≡ firsts_of child }
{
    First {
        child: Some(child.number),
        element: if child.is_element {
            Some(child.number)
        } else {
            None
        },
    }
}

/// The summary of lists of children.
#[derive(Drop)]
pub struct Firsts {
    cells: Vec<First>,
}

impl Firsts {
    pub fn new(alloc: Global) -> Firsts {
        Firsts {
            cells: Vec::new(alloc),
        }
    }
}

impl Summary for Firsts {
    type Cell = u32;

    type State = First;

    type Source = ();

    type Letter = Child;

    type Map = First;

    type Shape = ();

    ghost shape = { λ _. tt };

    ghost live = { λ s c. c < length s.cells.items };

    ghost map_of = { λ s c. slice_index_or s.cells.items c no_child };

    ghost is_state = { λ _ _. Unit {0} };

    ghost is_map = { λ _ _. Unit {0} };

    ghost is_dead = { λ _ _. false };

    ghost fits = { λ _ _ _. Unit {0} };

    ghost unit = { λ _. no_child };

    ghost join = { firsts_joined };

    ghost leaf = { λ _ child. firsts_of child };

    ghost acts = { first_found };

    ghost maps = { λ _ _ _. tt };

    ghost leaves = { λ _ _ _ _. tt };

    ghost laws = { first_laws };

    fn new_cell(&mut self) -> Result<u32, AllocError> {
        if self.cells.len() >= u32::MAX as usize {
            return Err(AllocError);
        }
        let cell = self.cells.len() as u32;
        self.cells.push(NO_CHILD)?;
        Ok(cell)
    }

    fn free(&mut self, _cell: u32) {}

    fn set_unit(&mut self, cell: &u32) {
        self.cells[*cell as usize] = NO_CHILD;
    }

    fn set_leaf<L: Ledger>(
        &mut self,
        cell: &u32,
        _source: &(),
        letter: Child,
        _steps: &mut Steps<L>,
    ) {
        self.cells[*cell as usize] = first_of(letter);
    }

    fn combine<L: Ledger>(&mut self, left: &u32, right: &u32, into: &u32, _steps: &mut Steps<L>) {
        let first = joined(self.cells[*left as usize], self.cells[*right as usize]);
        self.cells[*into as usize] = first;
    }

    fn act<L: Ledger>(&self, cell: &u32, state: First, _steps: &mut Steps<L>) -> First {
        joined(state, self.cells[*cell as usize])
    }

    fn dead(&self, _state: First) -> bool {
        false
    }
}
