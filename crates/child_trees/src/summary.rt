//! What folds the leaves of a list.

ghost use Rattle.std.specs.Prelude.{◌≡◌, ◌≢◌, ℕ, ◌+◌, ◌≤◌, Bool, IfOk};
ghost use Rattle.child_trees.specs.Laws.{SummaryLaws, KeepsCells};

use std::alloc::AllocError;
use xsv_steps::{Ledger, Steps};

/// Cells that hold maps of states, which are joined in order.
///
/// A cell is made, written, joined into another and given back. A live cell always has a map: that of a new one is some map.
/// Every call leaves all other live cells as they were.
pub trait Summary: Drop {
    /// The number of a map that is kept.
    type Cell: Copy;

    /// What the maps act on.
    type State: Copy;

    /// Where the maps of the letters come from.
    type Source;

    /// What a leaf may have.
    type Letter: Copy;

    /// What proofs see a cell as. No value of it is made.
    type Map;

    /// What proofs know of the summary that no call changes. No value of it is made.
    type Shape;

    /// The shape of the summary.
    ghost shape: { Self → Self.Shape };

    /// The cells that were made and not given back.
    ghost live: { Self → Self.Cell → Type 0 };

    /// The map that a cell has.
    ghost map_of: { Self → Self.Cell → Self.Map };

    /// The states of a summary of this shape.
    ghost is_state: { Self.Shape → Self.State → Type 0 };

    /// The maps of a summary of this shape.
    ghost is_map: { Self.Shape → Self.Map → Type 0 };

    /// The states that are dead.
    ghost is_dead: { Self.Shape → Self.State → Bool };

    /// Whether the source has a map for the letter.
    ghost fits: { Self.Shape → Self.Source → Self.Letter → Type 0 };

    /// The map of no leaves.
    ghost unit: { Self.Shape → Self.Map };

    /// The left map and then the right one.
    ghost join: { Self.Map → Self.Map → Self.Map };

    /// The source's map of a letter.
    ghost leaf: { Self.Source → Self.Letter → Self.Map };

    /// The state after a map.
    ghost acts: { Self.Map → Self.State → Self.State };

    /// Makes a cell that was not live.
    ///
    /// # Errors
    /// When memory runs out. No cell is made then.
    fn new_cell(&mut self) -> Result<Self::Cell, AllocError>
        ensures fresh { IfOk result (λ c. ¬ live self.old c) }
        ensures made { IfOk result (live self.new) }
        ensures shape { shape self.new ≡ shape self.old }
        ensures others { KeepsCells live map_of (λ _. ⊥) self.old self.new };

    /// Gives a cell back.
    fn free(&mut self, cell: Self::Cell)
        requires { live self.old cell }
        ensures shape { shape self.new ≡ shape self.old }
        ensures others { KeepsCells live map_of (λ c. c ≡ cell) self.old self.new };

    /// Makes the cell the unit.
    fn set_unit(&mut self, cell: &Self::Cell)
        requires { live self.old cell.now }
        ensures live { live self.new cell.now }
        ensures value { map_of self.new cell.now ≡ unit (shape self.old) }
        ensures shape { shape self.new ≡ shape self.old }
        ensures others { KeepsCells live map_of (λ c. c ≡ cell.now) self.old self.new };

    /// Makes the cell the source's map of the letter. It takes one step at most.
    fn set_leaf<L: Ledger>(
        &mut self,
        cell: &Self::Cell,
        source: &Self::Source,
        letter: Self::Letter,
        steps: &mut Steps<L>,
    )
        requires live { live self.old cell.now }
        requires fits { fits (shape self.old) source.now letter }
        ensures live { live self.new cell.now }
        ensures value { map_of self.new cell.now ≡ leaf source.now letter }
        ensures shape { shape self.new ≡ shape self.old }
        ensures others { KeepsCells live map_of (λ c. c ≡ cell.now) self.old self.new }
        ensures least { steps.old ≤ steps.new }
        ensures steps { steps.new ≤ steps.old + 1 };

    /// Makes a cell the left map and then the right one. It takes one step at most.
    fn combine<L: Ledger>(
        &mut self,
        left: &Self::Cell,
        right: &Self::Cell,
        into: &Self::Cell,
        steps: &mut Steps<L>,
    )
        requires left { live self.old left.now }
        requires right { live self.old right.now }
        requires into { live self.old into.now }
        requires not_left { into.now ≢ left.now }
        requires not_right { into.now ≢ right.now }
        ensures live { live self.new into.now }
        ensures value { map_of self.new into.now ≡ join (map_of self.old left.now) (map_of self.old right.now) }
        ensures shape { shape self.new ≡ shape self.old }
        ensures others { KeepsCells live map_of (λ c. c ≡ into.now) self.old self.new }
        ensures least { steps.old ≤ steps.new }
        ensures steps { steps.new ≤ steps.old + 1 };

    /// The state after the cell's map. It takes one step at most.
    fn act<L: Ledger>(
        &self,
        cell: &Self::Cell,
        state: Self::State,
        steps: &mut Steps<L>,
    ) -> Self::State
        requires live { live self.now cell.now }
        requires state { is_state (shape self.now) state }
        ensures value { result ≡ acts (map_of self.now cell.now) state }
        ensures least { steps.old ≤ steps.new }
        ensures steps { steps.new ≤ steps.old + 1 };

    /// Whether the state is dead. A dead state stays dead under every map.
    fn dead(&self, state: Self::State) -> bool
        requires { is_state (shape self.now) state }
        ensures { result ≡ is_dead (shape self.now) state };

    /// A live cell has a map of the summary's.
    ghost maps: { (s : Self) (c : Self.Cell) → live s c → is_map (shape s) (map_of s c) };

    /// So has a letter that the source has a map for.
    ghost leaves: { (h : Self.Shape) (source : Self.Source) (letter : Self.Letter) → fits h source letter → is_map h (leaf source letter) };

    /// Joining is associative and has the unit, acts go in order, and a dead state stays dead.
    ghost laws: { SummaryLaws is_state is_map unit join acts is_dead };
}
