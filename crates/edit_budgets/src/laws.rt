//! What the budget of a list has room for.

ghost use Rattle.std.specs.Prelude.{ℕ, ◌+◌, ◌*◌, ◌≤◌};
ghost use Rattle.child_trees.specs.Bits.{bits};
ghost use Rattle.edit_budgets.specs.Budget.{list_budget};

/// The budget of a list has room for the steps of one change of it, for the search of the place where the children get stuck, and for
/// one walk to each child whose name is ambivalent; and it does not fall as the list grows.
pub fn lists_keep_their_budget()
    ensures room { (n a : ℕ) → 16 * (bits (n + 1) + 1) + (8 * (bits (n + 1) + 1) + 1 + 8 * (bits (n + 1) + 1) * a) ≤ list_budget n a }
    ensures more { (n m a : ℕ) → n ≤ m → list_budget n a ≤ list_budget m a }
{}
