//! What is found out about an element, with codes of IDs and without.

ghost use Rattle.std.specs.Prelude.{◌≡◌, List, []};
ghost use Rattle.xs_names.specs.Names.{NameTable};
ghost use Rattle.xs_codes.specs.declared.fault.Found.{Found};
ghost use Rattle.xs_components.specs.Tables.{Tables};
ghost use Rattle.assess_records.specs.declared.record.ElementRecord.{ElementRecord};
ghost use Rattle.assess_records.specs.declared.shape.ElementShape.{ElementShape};
ghost use Rattle.elem_governing.specs.declared.pairs.Governing.{Governing};
ghost use Rattle.elem_assess.specs.Local.{IsLocal};
ghost use Rattle.elem_assess.specs.Marked.{with_ids, marked_record, marked_judged};
ghost use Rattle.elem_assess.specs.declared.records.Judged.{Judged as JudgedData};

/// Codes of IDs stand behind the others of an element, which is invalid with them; nothing else of what is found out about it
/// goes by them (Structures 3.3.4, 3.3.5).
pub fn codes_of_ids_stand_last()
    ensures behind { (names : NameTable) (t : Tables) (g : Governing) (shape : ElementShape) (codes : List Found) → shape.ids ≡ [] → (judged : JudgedData) →
        IsLocal names t g shape judged → IsLocal names t g (with_ids codes shape) (marked_judged codes judged) }
    ensures taken_off { (names : NameTable) (t : Tables) (g : Governing) (shape : ElementShape) (codes : List Found) → shape.ids ≡ [] → (judged : JudgedData) →
        IsLocal names t g (with_ids codes shape) judged → (e : ElementRecord) × IsLocal names t g shape (record judged { element = e }) × (judged.element ≡ marked_record codes e) }
{}
