//! What holds of the records of an element's attributes.

ghost use Rattle.std.specs.Prelude.{◌<◌, List, Option, All, length};
ghost use Rattle.xs_names.specs.Names.{NameTable};
ghost use Rattle.xs_components.specs.Tables.{Tables};
ghost use Rattle.xs_components.specs.declared.common.TypeId.{TypeId};
ghost use Rattle.facets.specs.Trying.{Scope};
ghost use Rattle.simple_types.specs.declared.types.SimpleTypes.{SimpleTypes};
ghost use Rattle.assess_records.specs.declared.shape.NamedText.{NamedText};
ghost use Rattle.attr_assess.specs.Added.{AreNamed};
ghost use Rattle.attr_assess.specs.Assessed.{AreAttrsAssessed};
ghost use Rattle.attr_assess.specs.Types.{IsTypeSet};
ghost use Rattle.attr_assess.specs.declared.assessed.AssessedAttrs.{AssessedAttrs};
ghost use Rattle.assessment_laws.specs.Few.{AreFew};
ghost use Rattle.assessment_laws.specs.There.{IsThere};

/// The records of an element's attributes, those that are added too, have names of the table of names, and types of the schema
/// set.
pub fn attribute_records_are_there()
    ensures there { (names : NameTable) (t : Tables) (types : SimpleTypes) (of : Option TypeId) (scope : Scope) (attrs : List NamedText) (assessed : AssessedAttrs) → AreNamed names t → IsTypeSet t types → All (λ (a : NamedText). a.name < length names.names) attrs → AreAttrsAssessed names t of scope attrs assessed → All (IsThere names t) assessed.records }
{}

/// An element has few records and codes for its attributes.
pub fn attributes_have_few_codes()
    ensures few { (names : NameTable) (t : Tables) (of : Option TypeId) (scope : Scope) (attrs : List NamedText) (assessed : AssessedAttrs) → AreAttrsAssessed names t of scope attrs assessed → AreFew attrs assessed }
{}
