//! How codes of identity constraints and of IDs join the assessment.

ghost use Rattle.std.specs.Prelude.{◌≡◌, List};
ghost use Rattle.tree_rows.specs.Forest.{Forest};
ghost use Rattle.xs_components.specs.Tables.{Tables};
ghost use Rattle.xpath_subset.specs.Reads.{AreIdentities};
ghost use Rattle.xpath_subset.specs.declared.paths.IdentityPaths.{IdentityPaths};
ghost use Rattle.assessment.specs.Attribution.{SchemaSet};
ghost use Rattle.assessment.specs.Assessment.{Assessed, IsAssessment};
ghost use Rattle.assessment.specs.Plain.{plain_beside};
ghost use Rattle.what_is_found.specs.Identity.{beside_of, with_codes};

/// The assessment of a document with the codes of its identity constraints and its IDs is the assessment without them, with these
/// codes behind the others of each element, and none else is: what identity constraints and IDs see of a document does not depend
/// on the codes. An element with a code is invalid, and then the strictly assessed ones above it.
pub fn identity_codes_join_the_assessment()
    ensures joined { (s : SchemaSet) (identities : List IdentityPaths) (f : Forest) (found : Assessed) → IsAssessment s plain_beside f found →
        IsAssessment s (beside_of s identities f (with_codes s identities f found)) f (with_codes s identities f found) }
    ensures parted { (s : SchemaSet) (identities : List IdentityPaths) (f : Forest) (found : Assessed) → IsAssessment s (beside_of s identities f found) f found →
        (plain : Assessed) × IsAssessment s plain_beside f plain × (found ≡ with_codes s identities f plain) }
{}

/// The paths of the identity constraints of a set are read in one way, so by each list of them the same is said beside of what was
/// found.
pub fn identities_go_by_the_set()
    ensures one { (t : Tables) (xs ys : List IdentityPaths) → AreIdentities t xs → AreIdentities t ys → xs ≡ ys }
    ensures beside { (s : SchemaSet) (xs ys : List IdentityPaths) → AreIdentities s.parts xs → AreIdentities s.parts ys → (f : Forest) (found : Assessed) → beside_of s xs f found ≡ beside_of s ys f found }
{}
