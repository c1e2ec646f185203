//! What of its child elements the record of an element goes by.

ghost use Rattle.xs_names.specs.Names.{NameTable};
ghost use Rattle.xs_components.specs.Tables.{Tables};
ghost use Rattle.assess_records.specs.declared.counts.ChildCounts.{ChildCounts};
ghost use Rattle.assess_records.specs.declared.shape.ElementShape.{ElementShape};
ghost use Rattle.elem_governing.specs.declared.pairs.Governing.{Governing};
ghost use Rattle.elem_assess.specs.Local.{IsLocal};
ghost use Rattle.elem_assess.specs.declared.records.Judged.{Judged};
ghost use Rattle.assessment_laws.specs.Flags.{HaveSameFlags, with_counts};

/// The records of an element and its attributes do not go by how many child elements there are, but by whether there are any, any that
/// are invalid, and any that were assessed in full, in part or not at all (Structures 3.3.4, 3.3.5).
pub fn records_go_by_flags()
    ensures { (names : NameTable) (t : Tables) (g : Governing) (shape : ElementShape) (counts : ChildCounts) (judged : Judged) →
        HaveSameFlags shape.counts counts → IsLocal names t g shape judged → IsLocal names t g (with_counts counts shape) judged }
{}
