//! That symbols fit in one way, and that they are printed in one order.

ghost use Rattle.std.specs.Prelude.{◌≡◌, ℕ, List};
ghost use Rattle.std.specs.Cmp.{IsTotalOrder};
ghost use Rattle.xs_names.specs.Names.{NameTable};
ghost use Rattle.kept_next.specs.Next.{FitsAs};
ghost use Rattle.kept_next.specs.Order.{print_order};
ghost use Rattle.kept_next.specs.declared.symbol.Fit.{Fit as FitData};

use crate::Around;

/// Law of the definitions: by the words of a content model a symbol fits at a place in one way alone.
pub fn symbols_fit_in_one_way<A: Around>(around: &A)
    ensures { (before behind : List ℕ) (symbol : ℕ) (fit other : FitData) → FitsAs (A.is_word around.now) before behind symbol fit →
        FitsAs (A.is_word around.now) before behind symbol other → fit ≡ other }
{
    let _ = around;
}

/// Law of the definitions: symbols are printed in a total order, by the texts of what they stand for.
pub fn symbols_are_in_a_total_order()
    ensures { (names : NameTable) → IsTotalOrder (print_order names) }
{}
