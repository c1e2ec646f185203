//! Numbers by the places of representations.

ghost use Rattle.std.specs.Prelude.{◌≡◌, List};
ghost use Rattle.representations.specs.declared.parts.Representation.{Representation};
ghost use Rattle.set_representations.specs.Numbers.{numbers_of};
ghost use Rattle.build_types.specs.Groups.{empty_groups};
ghost use Rattle.build_components.specs.Groups.{bare_groups};
ghost use Rattle.redefine_names.specs.declared.declared.VersionKind.TheVariants as kinds;
ghost use Rattle.redefine_names.specs.Numbers.{kind_numbers};

/// The numbers by which redefining groups and attribute groups are told are those that the tables of components give to them
/// (Structures 4.2.2), whatever the representations.
pub fn kind_numbers_are_those_of_tables()
    ensures groups { (reps : List Representation) → kind_numbers kinds.Group reps ≡ numbers_of bare_groups 0 reps }
    ensures attr_groups { (reps : List Representation) → kind_numbers kinds.AttributeGroup reps ≡ numbers_of empty_groups 0 reps }
{}
