//! Sums over what is kept of each number.

ghost use Rattle.std.specs.Prelude.{◌≡◌, ℕ, List, slice_index, sum};
ghost use Rattle.tree_rows.specs.Forest.{Document};
ghost use Rattle.tree_rows.specs.Whole.{IsTree};
ghost use Rattle.kept_slots.specs.Elements.{element_sum, WeighElements};

/// The sum of the weights of all numbers is the sum of those of a document's elements, where a number that no element has weighs
/// nothing: no two elements have one number. A number past the end of the table weighs nothing.
pub fn slots_are_summed_as_elements()
    ensures sums { (weights : List ℕ) (d : Document) → IsTree d → WeighElements weights d.forest → sum weights ≡ element_sum (slice_index weights) d.forest }
{}
