ghost use Rattle.std.specs.Prelude.{◌≡◌, List, None};
ghost use Rattle.xs_codes.specs.Least.{IsLeast};
ghost use Rattle.xs_names.specs.Names.{NameTable};
ghost use Rattle.xs_components.specs.Tables.{Tables};
ghost use Rattle.type_derivation.specs.Within.{AreSimple};
ghost use Rattle.representations.specs.declared.parts.Representation.{Representation};
ghost use Rattle.representations.specs.declared.source.Source.{Source};
ghost use Rattle.representations.specs.Names.{spaces_of};
ghost use Rattle.representations.specs.declared.origins.Origin.{Origin};
ghost use Rattle.reference_faults.specs.Faults.{IsBroken};
ghost use Rattle.build_components.specs.Built.{built};
ghost use Rattle.schema_check.specs.Resolved.{AreResolved};
ghost use Rattle.schema_check.specs.Shaped.{AreShaped};
ghost use Rattle.schema_check.specs.Simple.{AreTypesSimple};

/// Where names and references have no fault, no name stands twice in a symbol space, and each reference is to a component of the
/// kind that it needs.
pub fn names_resolve()
    ensures resolved { (names : NameTable) (origins : List Origin) (reps : List Representation) → IsLeast (IsBroken names origins reps) None → AreResolved reps }
{}

/// Where representations resolve and stand as schema documents have them: what a simple type is made of is simple, and so are the
/// types of attributes and those that stand in simple content. Of tables this is known by their simple types alone, whatever else
/// is changed or added.
pub fn components_are_simple()
    ensures simple { (source : Source) (t : Tables) → source.spaces.now ≡ spaces_of source.reps.now → AreResolved source.reps.now → AreShaped source.reps.now
        → t ≡ built source → AreSimple t }
    ensures types { (source : Source) (t : Tables) → source.spaces.now ≡ spaces_of source.reps.now → AreResolved source.reps.now → AreShaped source.reps.now
        → t ≡ built source → AreTypesSimple t }
    ensures alike { (t other : Tables) → other.simples.parts ≡ t.simples.parts → AreSimple t → AreSimple other }
{}
