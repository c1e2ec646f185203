ghost use Rattle.std.specs.Prelude.{◌≡◌, ◌≤◌, [], ◌∷◌, ◌++◌, IfOk, OnOk};
ghost use Rattle.edit_history.specs.Logged.{AreNoLater};
ghost use Rattle.edit_history.specs.Turns.{stale};

use crate::so_far::SoFar;
use crate::{Touched, Turn, Turns};
use std::alloc::{AllocError, Global};
use std::marker::Model;

/// The turns of the authors of a document. Contracts see all of them in order, and how many more things can be touched without taking
/// memory; what is kept of them are two revisions for each thing that was touched.
#[derive(Drop)]
pub struct TurnLog {
    turns: Turns,
    so_far: SoFar,
}

impl Model for TurnLog {
    ghost use Rattle.edit_history.specs.Logged.{Logged};
    ghost use Rattle.edit_history.specs.Table.{StandFor};

    ghost Value = { Logged };

    ghost view = { λ log. record { turns = log.so_far.turns; spare = log.turns.spare } };

    ghost invariant = { λ log. StandFor log.turns.touches log.so_far.turns };
}

impl TurnLog {
    /// No turns.
    ///
    /// # Errors
    ///
    /// `AllocError` is want of memory.
    pub fn new(alloc: Global) -> Result<Self, AllocError>
        ensures { IfOk result (λ log. log.turns ≡ []) }
    {
        match Turns::new(alloc) {
            Ok(turns) => Ok(TurnLog {
                turns,
                so_far: SoFar::new(),
            }),
            Err(error) => Err(error),
        }
    }

    /// The revision of the latest turn after `seen` by another author that touched one of the keys. `None` where there is none, so
    /// that what the author saw of them at `seen` is what is there now, but for turns of its own.
    pub fn stale(&self, author: u32, seen: u64, keys: &Touched) -> Option<u64>
        ensures { result ≡ stale self.now.turns author seen keys.now }
    {
        self.turns.stale(author, seen, keys)
    }

    /// Makes room for what one turn can touch.
    ///
    /// # Errors
    ///
    /// `AllocError` is want of memory.
    pub fn reserve(&mut self) -> Result<(), AllocError>
        ensures kept { self.new.turns ≡ self.old.turns }
        ensures room { OnOk result (2 ≤ self.new.spare) }
    {
        self.turns.reserve()
    }

    /// Notes a turn, after all that were noted. It takes no memory.
    pub fn note(&mut self, turn: Turn)
        requires room { 2 ≤ self.old.spare }
        requires later { AreNoLater self.old.turns turn.revision }
        ensures { self.new.turns ≡ self.old.turns ++ turn ∷ [] }
    {
        self.turns.note(turn.author, turn.revision, &turn.keys);
        self.so_far = self.so_far.then(&turn);
    }
}
