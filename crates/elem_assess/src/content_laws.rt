//! When the literals of simple contents are known.

ghost use Rattle.std.specs.Prelude.{◌≡◌, true};
ghost use Rattle.xs_codes.specs.declared.fault.Fault.{Fault};
ghost use Rattle.xs_components.specs.Tables.{Tables};
ghost use Rattle.xs_components.specs.declared.common.TypeId.{TypeId};
ghost use Rattle.component_references.specs.Heights.{IsType};
ghost use Rattle.component_references.specs.Ranked.{IsRanked};
ghost use Rattle.type_derivation.specs.Within.{AreSimple};
ghost use Rattle.type_derivation.specs.Bases.{IsWrongBase};
ghost use Rattle.type_derivation.specs.Derives.{is_simple};
ghost use Rattle.simple_types.specs.Trees.{type_tree};
ghost use Rattle.simple_types.specs.SimpleTypes.{AreWhole, IsWhole, IsSimpleTree};
ghost use Rattle.simple_types.specs.declared.types.SimpleTypes.{SimpleTypes};
ghost use Rattle.component_tables.specs.ContentTypes.{content_of};
ghost use Rattle.elem_assess.specs.Texts.{is_simple_content};
ghost use Rattle.elem_assess.specs.Own.{AreOwnSimple};

/// Where references go to lower ranks, what simple types are made of is simple, and no base is of the wrong kind, the
/// literals of each type with simple content are known, if those of all simple types are.
pub fn simple_contents_are_read()
    ensures read { (t : Tables) (types : SimpleTypes) → IsRanked t → AreSimple t → AreOwnSimple t → ((fault : Fault) → IsWrongBase t fault → ⊥) → AreWhole t types
        → (of : TypeId) → IsType t of → is_simple_content (content_of t of) ≡ true → IsWhole types of }
{}

/// Where references go to lower ranks and what simple types are made of is simple, a simple type is made of simple ones alone.
pub fn simple_types_are_simple_trees()
    ensures simple { (t : Tables) → IsRanked t → AreSimple t → (of : TypeId) → IsType t of → is_simple of ≡ true → IsSimpleTree (type_tree t of) }
{}
