//! The law of outcomes.

ghost use Rattle.std.specs.Prelude.{ℕ, List};
ghost use Rattle.told.specs.Same.{IsSameOutcome};
ghost use Rattle.schema_compile.specs.Outcomes.{IsOutcome};
ghost use Rattle.schema_compile.specs.declared.outcome.Outcome.{Outcome};
ghost use Rattle.schema_set.specs.declared.inputs.SchemaInput.{SchemaInput};

/// Documents have one outcome: two outcomes of the same documents name the same fault, or both accept sets with the same names, components,
/// members of substitution groups, classes of declarations and paths of identity constraints, by which the same texts are told.
pub fn outcomes_are_one()
    ensures only { (documents : List SchemaInput) (start : ℕ) (a b : Outcome) → IsOutcome documents start a → IsOutcome documents start b → IsSameOutcome a b }
{}
