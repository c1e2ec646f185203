//! What is determined of what governs elements.

ghost use Rattle.std.specs.Prelude.{◌≡◌, ◌↔◌, ℕ, IsTrue};
ghost use Rattle.tree_rows.specs.Forest.{Forest, Document};
ghost use Rattle.tree_rows.specs.Whole.{IsTree};
ghost use Rattle.elem_governing.specs.declared.pairs.Governing.{Governing};
ghost use Rattle.assessment.specs.Attribution.{SchemaSet, IsNameAmbivalent};
ghost use Rattle.assessment.specs.Assessment.{Beside, Assessed, IsAssessment, entries};
ghost use Rattle.assessment.specs.Local.{HasElement};
ghost use Rattle.assessment_laws.specs.Ambivalent.{is_ambivalent};
ghost use Rattle.assessment_laws.specs.Governed.{AreGovernings, governing_at};

/// The entries of an assessment have what governs the elements of the document, whatever codes are said beside (Structures 5.2).
pub fn what_is_found_is_governed()
    ensures { (s : SchemaSet) (b : Beside) (d : Document) (found : Assessed) → IsTree d → IsAssessment s b d.forest found → AreGovernings s (governing_at (entries found)) d.forest }
{}

/// There is one answer to what governs each element.
pub fn governings_are_determined()
    ensures { (s : SchemaSet) (f : Forest) (x y : ℕ → Governing) → AreGovernings s x f → AreGovernings s y f → (n : ℕ) → HasElement n f → x n ≡ y n }
{}

/// The test tells which names are ambivalent in a content model (Structures 3.4.4).
pub fn ambivalent_names_are_told()
    ensures { (s : SchemaSet) (p name : ℕ) → IsTrue (is_ambivalent s p name) ↔ IsNameAmbivalent s p name }
{}
