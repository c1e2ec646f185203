ghost use Rattle.std.specs.Prelude.{◌≡◌, ℕ, List, None, All};
ghost use Rattle.xs_codes.specs.Least.{IsLeast};
ghost use Rattle.xs_names.specs.Names.{NameTable};
ghost use Rattle.xs_components.specs.Tables.{Tables};
ghost use Rattle.component_references.specs.Circles.{Ranks, with_all_ranks};
ghost use Rattle.type_derivation.specs.Cycles.{IsGrown};
ghost use Rattle.schema_set.specs.declared.documents.Available.{Available};
ghost use Rattle.schema_set.specs.declared.documents.SetDocument.{SetDocument};
ghost use Rattle.schema_set.specs.EffectiveSet.{IsEffectiveSet};
ghost use Rattle.representations.specs.declared.source.Source.{Source};
ghost use Rattle.representations.specs.Names.{spaces_of};
ghost use Rattle.set_representations.specs.Documents.{representations};
ghost use Rattle.representations.specs.declared.origins.Origin.{Origin};
ghost use Rattle.reference_faults.specs.Faults.{IsBroken};
ghost use Rattle.build_components.specs.Built.{built};
ghost use Rattle.schema_check.specs.OfTree.{IsDeclared, IsOfTree};
ghost use Rattle.schema_check.specs.SimpleParts.{HasSimpleTypes};

use crate::resolved::{components_are_simple, names_resolve};
use crate::shaped::representations_are_shaped;

/// Where no constraint on the shape of the documents of a schema set is broken, and none on names and references, what a simple
/// type is made of is simple, and so are the types of attributes and those that stand in simple content. It stays so when ranks
/// are given and contents are set.
pub fn set_types_are_simple()
    ensures documents { (available : List Available) (start : ℕ) (ds : List SetDocument) → All (λ a. IsDeclared a.shaped) available → IsEffectiveSet available start ds → All IsOfTree ds }
    ensures built { (t : NameTable) (origins : List Origin) (ds : List SetDocument) (source : Source) (parts : Tables) → All IsOfTree ds
        → IsLeast (IsBroken t origins (representations t ds)) None → source.reps.now ≡ representations t ds → source.spaces.now ≡ spaces_of (representations t ds)
        → parts ≡ built source → HasSimpleTypes parts }
    ensures grown { (old new : Tables) (ranks : Ranks) → HasSimpleTypes old → IsGrown (with_all_ranks old ranks) new → HasSimpleTypes new }
{
    names_resolve();
    components_are_simple();
    representations_are_shaped();
}
