// The turns so far, in order. They exist only in proofs.
ghost use Rattle.std.specs.Prelude.{◌≡◌, List, [], ◌∷◌, ◌++◌};
ghost use base.Fml.{ftrue};
ghost use Rattle.edit_history.specs.Turns.{Turn as NotedTurn};

use crate::Turn;
use std::marker::Model;

#[derive(Drop)]
pub(crate) struct SoFar {
    ghost turns: { List NotedTurn },
}

impl Model for SoFar {
    ghost also_owns = { λ _. ftrue };
}

impl SoFar {
    pub(crate) fn new() -> SoFar
        ensures { result.turns ≡ [] }
    {
        SoFar {}
    }

    #[inline(always)]
    pub(crate) fn then(&self, _turn: &Turn) -> SoFar
        ensures { result.turns ≡ self.now.turns ++ _turn.now ∷ [] }
    {
        SoFar {}
    }
}
