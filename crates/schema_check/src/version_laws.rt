ghost use Rattle.std.specs.Prelude.{ℕ, List, Option};
ghost use Rattle.xs_names.specs.Names.{NameTable};
ghost use Rattle.representations.specs.declared.parts.Representation.{Representation};
ghost use Rattle.redefine_names.specs.Renamed.{renamed};
ghost use Rattle.schema_check.specs.Shaped.{AreShaped};

use redefine_names::names_alone_change;

/// Representations that stand as schema documents of the right shape have them do so also where the versions of redefined components
/// are told apart by names.
pub fn versions_are_shaped()
    ensures shaped { (t : NameTable) (reps : List Representation) (originals : List (Option ℕ)) → AreShaped reps → AreShaped (renamed t reps originals) }
{
    names_alone_change();
}
