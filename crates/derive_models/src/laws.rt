//! What is determined of the restriction of content models.

ghost use Rattle.std.specs.Prelude.{◌≡◌, ℕ, List, Option, length};
ghost use Rattle.xs_codes.specs.declared.fault.Fault.{Fault};
ghost use Rattle.xs_names.specs.Names.{NameTable};
ghost use Rattle.xs_components.specs.Tables.{Tables};
ghost use Rattle.redefine_names.specs.declared.pairs.RedefinedPair.{RedefinedPair};
ghost use Rattle.derive_models.specs.ModelFaults.{IsFirstModelFault};

/// The first fault of the restriction of content models and of redefining groups is one, whatever numbers stand for fixed values
/// (Structures 3.4.6, 3.9.6), where each element has a group of members.
pub fn the_first_model_fault_is_the_only_one()
    ensures only { (t : Tables) (names : NameTable) (members : List (List ℕ)) (pairs : List RedefinedPair) (a b : Option Fault)
        → length members ≡ length t.elements.parts → IsFirstModelFault t names members pairs a → IsFirstModelFault t names members pairs b → a ≡ b }
{}
