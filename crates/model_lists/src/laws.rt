//! The bounds of steps.

ghost use Rattle.std.specs.Prelude.{ℕ, ◌≤◌};
ghost use Rattle.child_trees.specs.Bits.{bits};

/// Law of the definitions: the greater of two numbers has no fewer binary digits, so bounds that hold of fewer child elements hold
/// of more.
pub fn more_children_take_no_fewer_digits()
    ensures { (m n : ℕ) → m ≤ n → bits m ≤ bits n }
{}
