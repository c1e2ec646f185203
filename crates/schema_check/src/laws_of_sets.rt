//! The laws.

ghost use Rattle.std.specs.Prelude.{◌≡◌, ℕ, List, Option, Result};
ghost use Rattle.std.specs.List.{AllZip};
ghost use Rattle.redefine_originals.specs.Originals.{AreOriginals};
ghost use Rattle.schema_check.specs.Compilation.{composition_phase, by_set, shape_phase, IsCompilation};
ghost use Rattle.schema_check.specs.SetPhases.{AreParts, base_phase, by_components, name_phase, names, type_phase};
ghost use Rattle.schema_check.specs.declared.documents.CompiledSet.{CompiledSet};
ghost use Rattle.schema_set.specs.Documents.{available, IsSet};
ghost use Rattle.schema_set.specs.declared.documents.SetDocument.{SetDocument};
ghost use Rattle.schema_set.specs.declared.inputs.SchemaInput.{SchemaInput};
ghost use Rattle.schema_check.specs.Same.{IsSameDocument, IsSameCompilation};
ghost use Rattle.xs_codes.specs.declared.fault.Fault.{Fault};
ghost use Rattle.xs_components.specs.Tables.{Tables};

/// The documents of the set that one of them leads to are one list (Structures 4.2).
pub fn the_effective_set_is_one()
    ensures only { (inputs : List SchemaInput) (start : ℕ) (a b : List SetDocument) → IsSet inputs start a → IsSet inputs start b → AllZip IsSameDocument a b }
{}

/// The originals of what documents redefine are one, by places (Structures 4.2.2).
pub fn originals_are_one()
    ensures only { (inputs : List SchemaInput) (start : ℕ) (a b : List SetDocument) (xs ys : List (Option ℕ)) → IsSet inputs start a → IsSet inputs start b
        → AreOriginals (available inputs) a xs → AreOriginals (available inputs) b ys → xs ≡ ys }
{}

/// What the documents of a set represent has one table of names and one list of components of each kind, to the number (Structures 3.15.1).
pub fn components_are_one()
    ensures names { (inputs : List SchemaInput) (start : ℕ) (a b : List SetDocument) (xs ys : List (Option ℕ)) → IsSet inputs start a → IsSet inputs start b
        → AreOriginals (available inputs) a xs → AreOriginals (available inputs) b ys → names a xs ≡ names b ys }
    ensures parts { (inputs : List SchemaInput) (start : ℕ) (a b : List SetDocument) (xs ys : List (Option ℕ)) (p q : Tables) → IsSet inputs start a → IsSet inputs start b
        → AreOriginals (available inputs) a xs → AreOriginals (available inputs) b ys → AreParts a xs p → AreParts b ys q → p ≡ q }
{}

/// Each phase up to simple types has at most one answer: shapes, composition, names, circles and bases, simple types and facets.
pub fn early_faults_are_one()
    ensures shapes { (inputs : List SchemaInput) (start : ℕ) (a b : Option Fault) → shape_phase inputs start a → shape_phase inputs start b → a ≡ b }
    ensures composition { (inputs : List SchemaInput) (start : ℕ) (a b : Option Fault) → composition_phase inputs start a → composition_phase inputs start b → a ≡ b }
    ensures names { (inputs : List SchemaInput) (start : ℕ) (a b : Option Fault) → by_set inputs start name_phase a → by_set inputs start name_phase b → a ≡ b }
    ensures bases { (inputs : List SchemaInput) (start : ℕ) (a b : Option Fault) → by_set inputs start (λ set originals. by_components set originals base_phase) a
        → by_set inputs start (λ set originals. by_components set originals base_phase) b → a ≡ b }
    ensures types { (inputs : List SchemaInput) (start : ℕ) (a b : Option Fault) → by_set inputs start (λ set originals. by_components set originals type_phase) a
        → by_set inputs start (λ set originals. by_components set originals type_phase) b → a ≡ b }
{}

/// Documents are compiled to one set, up to the order of the pairs of redefining components, or to one fault.
pub fn documents_are_compiled_to_one()
    ensures only { (inputs : List SchemaInput) (start : ℕ) (x y : Result CompiledSet Fault) → IsCompilation inputs start x → IsCompilation inputs start y → IsSameCompilation x y }
{}
