//! What is determined of it.

ghost use Rattle.std.specs.Prelude.{◌≡◌, ◌≤◌, ◌∷◌, ℕ, List};
ghost use Rattle.tree_rows.specs.Forest.{Document};
ghost use Rattle.assessment.specs.Attribution.{SchemaSet};
ghost use Rattle.assessment.specs.Assessment.{Entry};
ghost use Rattle.what_is_found.specs.IsFound.{IsFound, times_found};

use crate::{identities_go_by_the_set, identity_codes_join_the_assessment};
use assessment_laws::the_assessment_is_the_only_one;

/// What is found out about a document by a schema set is one answer.
pub fn what_is_found_is_the_only_one()
    ensures only { (s : SchemaSet) (d : Document) (x y : List Entry) → IsFound s d x → IsFound s d y → x ≡ y }
{
    identities_go_by_the_set();
    identity_codes_join_the_assessment();
    the_assessment_is_the_only_one();
}

/// The first entry is the root's, whose number is 1.
pub fn the_root_is_found_first()
    ensures first { (s : SchemaSet) (d : Document) (es : List Entry) → IsFound s d es → (own : Entry) × (more : List Entry) × (es ≡ own ∷ more) × (own.number ≡ 1) }
{}

/// No two entries have one number.
pub fn each_element_is_found_once()
    ensures once { (s : SchemaSet) (d : Document) (es : List Entry) → IsFound s d es → (key : ℕ) → times_found key es ≤ 1 }
{}
