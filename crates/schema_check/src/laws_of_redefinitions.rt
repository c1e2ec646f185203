ghost use Rattle.std.specs.Prelude.{◌≡◌, ◌↔◌, ℕ, List, Option, Some};
ghost use Rattle.xs_names.specs.Names.{NameTable};
ghost use Rattle.schema_set.specs.declared.documents.SetDocument.{SetDocument};
ghost use Rattle.schema_set.specs.declared.inputs.SchemaInput.{SchemaInput};
ghost use Rattle.redefine_names.specs.Redefined.{IsSelfReference, RedefinesWhole};
ghost use Rattle.redefine_names.specs.VersionNames.{original_at};
ghost use Rattle.schema_check.specs.SelfReferences.{AreComposed, AreTexts, RefersToItself, set_names, set_reps, set_versions};

/// The references of redefining components to themselves are the same elements by the names in their documents and by the originals of
/// representations (Structures 4.2.2): `places`. So they are where originals have names of their own: `hidden`. A component is said to
/// redefine another whole exactly where no element of its document is a reference to itself: `whole`.
pub fn self_references_are_one()
    ensures places { (t : NameTable) (inputs : List SchemaInput) (set : List SetDocument) (originals : List (Option ℕ)) (version place : ℕ)
        → AreComposed inputs set originals → IsSelfReference (set_reps t set) originals version place ↔ RefersToItself set version place }
    ensures hidden { (t : NameTable) (inputs : List SchemaInput) (set : List SetDocument) (originals : List (Option ℕ)) (version place : ℕ)
        → AreComposed inputs set originals → AreTexts (set_names t set)
        → IsSelfReference (set_versions t set originals) originals version place ↔ RefersToItself set version place }
    ensures whole { (t : NameTable) (inputs : List SchemaInput) (set : List SetDocument) (originals : List (Option ℕ)) (version original : ℕ)
        → AreComposed inputs set originals → AreTexts (set_names t set)
        → RedefinesWhole (set_versions t set originals) originals version original
        ↔ (original_at originals version ≡ Some original) × ((place : ℕ) → RefersToItself set version place → ⊥) }
{}
