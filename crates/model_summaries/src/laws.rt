//! What rows say of the words of content models.

ghost use Rattle.std.specs.Prelude.{◌≡◌, ◌≤◌, ℕ, List, map, slice_index};
ghost use Rattle.child_trees.specs.Lists.{Entry, acts_along};
ghost use Rattle.content_automaton.specs.Automaton.{dead_of, run};
ghost use Rattle.content_automaton.specs.Modelled.{ModelAutomaton};
ghost use Rattle.model_summaries.specs.Maps.{leaf_of};

/// Law of the definitions (Structures 3.8.4): leaves with the rows of symbols lead from each state of an automaton to that after
/// children with these symbols.
pub fn rows_are_runs()
    ensures { (a : ModelAutomaton) (symbols : List ℕ) (s : ℕ) (xs : List (Entry (List ℕ))) → s ≤ dead_of a.machine → map (λ e. e.act) xs ≡ map (leaf_of a) symbols → acts_along slice_index s xs ≡ run a.machine s symbols }
{}
