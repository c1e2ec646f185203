//! What stays of an assessment as names are added.

ghost use Rattle.std.specs.Prelude.{◌<◌, ℕ, List, Option, All, length};
ghost use Rattle.xs_names.specs.Names.{NameTable, Grown, IsSound};
ghost use Rattle.plain_tree.specs.Found.{HasNames};
ghost use Rattle.tree_rows.specs.Forest.{Forest};
ghost use Rattle.schema_models.specs.Named.{AreNamed};
ghost use Rattle.assessment.specs.Attribution.{SchemaSet, AreTerms};
ghost use Rattle.assessment.specs.Assessment.{Beside, Assessed, IsAssessment};
ghost use Rattle.assessment_laws.specs.GrownThere.{ArePartsNamed};
ghost use Rattle.assessment_laws.specs.Grown.{with_table};

/// The terms of child elements whose names the table had, and the place where they get stuck (Structures 3.4.4), stay as names are
/// added: no name that is new is that of a member of a substitution group.
pub fn terms_keep_as_names_are_added()
    ensures { (s : SchemaSet) (new : NameTable) (particle : Option ℕ) (children : List ℕ) (stuck : Option ℕ) (terms : List (Option ℕ)) → Grown s.names new → AreNamed s.names s.members →
        All (λ name. name < length s.names.names) children → AreTerms s particle children stuck terms → AreTerms (with_table s new) particle children stuck terms }
{}

/// The assessment of a document whose names the table had stays as names are added (Structures 5.2).
pub fn the_assessment_keeps_as_names_are_added()
    ensures { (s : SchemaSet) (new : NameTable) (b : Beside) (f : Forest) (found : Assessed) → Grown s.names new → IsSound s.names → ArePartsNamed s.names s.parts → AreNamed s.names s.members →
        HasNames s.names f → IsAssessment s b f found → IsAssessment (with_table s new) b f found }
{}
