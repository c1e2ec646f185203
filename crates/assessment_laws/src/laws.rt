//! What is determined of an assessment.

ghost use Rattle.std.specs.Prelude.{◌≡◌, ℕ, List, Option};
ghost use Rattle.xs_names.specs.Names.{IsSound};
ghost use Rattle.tree_rows.specs.Forest.{Forest, Document};
ghost use Rattle.tree_rows.specs.Whole.{IsTree};
ghost use Rattle.attr_assess.specs.Added.{AreNamed};
ghost use Rattle.assessment.specs.Attribution.{SchemaSet, AreTerms};
ghost use Rattle.assessment.specs.Assessment.{Beside, Assessed, IsAssessment};
ghost use Rattle.assessment.specs.Joined.{beside_of};

use assessment::codes_of_ids_join_the_assessment;

/// The names of child elements determine the terms of a content model that the children are attributed to, and the place where
/// they get stuck (Structures 3.4.4).
pub fn terms_are_determined()
    ensures terms { (s : SchemaSet) (particle : Option ℕ) (children : List ℕ) (stuck other : Option ℕ) (xs ys : List (Option ℕ)) → AreTerms s particle children stuck xs → AreTerms s particle children other ys → (stuck ≡ other) × (xs ≡ ys) }
{}

/// The assessment of a document by a schema set is the only one, whatever codes are said beside (Structures 5.2), where the set's
/// table has each name once, and those of its attribute declarations.
pub fn the_assessment_is_the_only_one()
    ensures only { (s : SchemaSet) (b : Beside) (f : Forest) (x y : Assessed) → IsSound s.names → AreNamed s.names s.parts → IsAssessment s b f x → IsAssessment s b f y → x ≡ y }
{}

/// So is the one with the codes of the document's IDs at its root (Structures 3.3.4).
pub fn the_assessment_with_ids_is_the_only_one()
    ensures only { (s : SchemaSet) (d : Document) (x y : Assessed) → IsSound s.names → AreNamed s.names s.parts → IsTree d → IsAssessment s (beside_of d.forest x) d.forest x → IsAssessment s (beside_of d.forest y) d.forest y → x ≡ y }
{
    codes_of_ids_join_the_assessment();
}
