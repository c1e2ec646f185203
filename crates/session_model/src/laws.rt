//! What holds of all entries of an assessment.

ghost use Rattle.std.specs.Prelude.{All};
ghost use Rattle.tree_rows.specs.Forest.{Forest};
ghost use Rattle.assessment.specs.Assessment.{Assessed, Beside, IsAssessment, entries};
ghost use Rattle.compiled_schema.specs.declared.compiled.Compiled.{Compiled as CompiledData};
ghost use Rattle.plain_tree.specs.Found.{HasNames};
ghost use Rattle.session_model.specs.Reports.{IsEntryNamed};
ghost use Rattle.compiled_schema.specs.Usable.{IsUsable, set_of};

/// The names and types of the records of a document's elements and attributes are those of the set that it is assessed by,
/// where the set has the document's names.
pub fn entries_are_named()
    ensures named { (c : CompiledData) (b : Beside) (f : Forest) (found : Assessed) → IsUsable c → HasNames c.names f → IsAssessment (set_of c) b f found → All (IsEntryNamed (set_of c)) (entries found) }
{}
