//! When kept records are the assessment.

ghost use Rattle.std.specs.Prelude.{ℕ};
ghost use Rattle.tree_rows.specs.Forest.{Forest};
ghost use Rattle.assessment.specs.Attribution.{SchemaSet};
ghost use Rattle.assessment.specs.Assessment.{Beside, IsAssessment};
ghost use Rattle.assessment.specs.Local.{Readers, AreRead, HasElement, Kept, IsSettled, AreRoots, kept_entries};

/// What is kept of each element by its number is the assessment of the document, where each element's fits that of its child
/// elements and the root is governed as the root: the assessment by one recursion from the root finds the same.
pub fn fitting_records_are_the_assessment()
    ensures fitting { (s : SchemaSet) (b : Beside) (r : Readers) (ks : ℕ → Kept) (f : Forest) → AreRead r f → ((n : ℕ) → HasElement n f → IsSettled s b r ks n) →
        AreRoots s b r ks f → IsAssessment s b f (kept_entries ks f) }
{}
