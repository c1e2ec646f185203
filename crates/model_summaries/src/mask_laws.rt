//! What the summary says of the words of an `all`.

ghost use Rattle.std.specs.Prelude.{◌≡◌, ℕ, List, map};
ghost use Rattle.child_trees.specs.Lists.{Entry, acts_along};
ghost use Rattle.content_models.specs.States.{next_of, run};
ghost use Rattle.content_models.specs.declared.state.AllState.{AllState as AllStateData};
ghost use Rattle.model_summaries.specs.Masks.{of_letter, acts};
ghost use Rattle.model_summaries.specs.declared.map.AllMap.{AllMap as AllMapData};

/// Laws of the definitions (Structures 3.8.4): the map of a letter acts as a child of that member does, whatever the state; so
/// leaves with the maps of letters lead from each state to that after children of these members.
pub fn summaries_are_runs()
    ensures letter { (letter : ℕ) (s : AllStateData) → acts (of_letter letter) s ≡ next_of s letter }
    ensures letters { (letters : List ℕ) (s : AllStateData) (xs : List (Entry AllMapData)) → map (λ e. e.act) xs ≡ map of_letter letters → acts_along acts s xs ≡ run s letters }
{}
