//! How codes of IDs join the assessment.

ghost use Rattle.std.specs.Prelude.{◌≡◌, map};
ghost use Rattle.tree_rows.specs.Forest.{Document};
ghost use Rattle.tree_rows.specs.Whole.{IsTree};
ghost use Rattle.assessment.specs.Attribution.{SchemaSet};
ghost use Rattle.assessment.specs.Assessment.{Assessed, IsAssessment, entries};
ghost use Rattle.assessment.specs.Plain.{plain_beside};
ghost use Rattle.assessment.specs.Bearings.{Bearing, bearings};
ghost use Rattle.assessment.specs.Joined.{with_codes, beside_of};

use elem_assess::codes_of_ids_stand_last;

/// The entries with those that bear the IDs of their texts are all entries.
pub fn bearings_are_of_the_entries()
    ensures entries { (found : Assessed) → map (λ (b : Bearing). b.own) (bearings found) ≡ entries found }
{}

/// The assessment of a document with the codes of its IDs is the assessment without them, with these codes behind the others
/// of the root, and none else is: the values of a document do not depend on the codes.
pub fn codes_of_ids_join_the_assessment()
    ensures joined { (s : SchemaSet) (d : Document) (found : Assessed) → IsTree d → IsAssessment s plain_beside d.forest found → IsAssessment s (beside_of d.forest (with_codes found)) d.forest (with_codes found) }
    ensures parted { (s : SchemaSet) (d : Document) (found : Assessed) → IsTree d → IsAssessment s (beside_of d.forest found) d.forest found → (plain : Assessed) × IsAssessment s plain_beside d.forest plain × (found ≡ with_codes plain) }
{
    codes_of_ids_stand_last();
}
