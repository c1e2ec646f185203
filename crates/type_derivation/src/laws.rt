ghost use Rattle.std.specs.Prelude.{◌≡◌};
ghost use Rattle.xs_components.specs.Tables.{Tables};
ghost use Rattle.xs_components.specs.declared.common.TypeId.{TypeId};
ghost use Rattle.component_references.specs.Heights.{IsType};
ghost use Rattle.component_references.specs.Ranked.{IsRanked};
ghost use Rattle.component_tables.specs.ContentTypes.{content_of};
ghost use Rattle.component_tables.specs.declared.content_types.ContentType.{ContentType};
ghost use Rattle.type_derivation.specs.Contents.{HasContent};

/// A law: a type has one content type (Structures 3.4.2); where references go to lower ranks each type has one, which is found along them.
pub fn content_types_are_one()
    ensures only { (t : Tables) (of : TypeId) (a b : ContentType) → HasContent t of a → HasContent t of b → a ≡ b }
    ensures found { (t : Tables) (of : TypeId) → IsRanked t → IsType t of → HasContent t of (content_of t of) }
{}
