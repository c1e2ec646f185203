//! When what is kept is what is found.

ghost use Rattle.std.specs.Prelude.{◌≡◌, ◌↔◌, ℕ, List};
ghost use Rattle.std.specs.Option.{option_map};
ghost use Rattle.xs_codes.specs.declared.fault.Found.{Found};
ghost use Rattle.tree_rows.specs.Forest.{Document};
ghost use Rattle.identity_tables.specs.Table.{IsTableOf};
ghost use Rattle.assessment.specs.Assessment.{Beside, IsAssessment, entries};
ghost use Rattle.assessment.specs.Bearings.{borne_values};
ghost use Rattle.assessment.specs.Local.{HasElement};
ghost use Rattle.compiled_schema.specs.Usable.{set_of};
ghost use Rattle.compiled_schema.specs.declared.compiled.Compiled.{Compiled as CompiledData};
ghost use Rattle.tree_assess.specs.Entries.{entry_of};
ghost use Rattle.session_model.specs.Asking as asking;
ghost use Rattle.session_model.specs.Asking.{code_total};
ghost use Rattle.what_is_found.specs.IsFound.{IsFound};
ghost use Rattle.doc_nodes.specs.Nodes.{Nodes};
ghost use Rattle.model_lists.specs.Lists.{ListsView};
ghost use Rattle.kept_slots.specs.Slots.{at};
ghost use Rattle.kept_records.specs.Books.{KeptView, IsBooked};
ghost use Rattle.kept_records.specs.Found.{AreSettled, SaysKept, SaysFound, found_in};
ghost use Rattle.kept_records.specs.Slots.{KeptSlots, IsMade};

/// What is kept of the elements of a document, where it fits from the root on, is the assessment of the document (Structures 5.2), with
/// the codes that are kept beside: something is kept of exactly the elements; what is found of an element is what is kept of it; and
/// the sums that are kept are those of what is found. Where the codes are those that are to be said of it, it is what is found of the
/// document by the set.
pub fn fitting_slots_are_the_assessment()
    ensures made { (c : CompiledData) (ns : Nodes) (ks : KeptSlots) (v : ListsView) (codes : List Found) (d : Document) → AreSettled c ns ks v codes d → (n : ℕ) → HasElement n d.forest ↔ IsMade ks n }
    ensures assessed { (c : CompiledData) (ns : Nodes) (ks : KeptSlots) (v : ListsView) (codes : List Found) (d : Document) (b : Beside) → AreSettled c ns ks v codes d → SaysKept b ks codes →
        IsAssessment (set_of c) b d.forest (found_in ns ks d.forest) }
    ensures found { (c : CompiledData) (ns : Nodes) (ks : KeptSlots) (v : ListsView) (codes : List Found) (d : Document) → AreSettled c ns ks v codes d → SaysFound c ns ks codes d →
        IsFound (set_of c) d (entries (found_in ns ks d.forest)) }
    ensures entries { (c : CompiledData) (ns : Nodes) (ks : KeptSlots) (v : ListsView) (codes : List Found) (d : Document) → AreSettled c ns ks v codes d → (n : ℕ) →
        asking.entry_at n (entries (found_in ns ks d.forest)) ≡ option_map (λ k. entry_of k.found) (at ks n) }
    ensures sums { (c : CompiledData) (ns : Nodes) (r : KeptView) (v : ListsView) (codes : List Found) (d : Document) → AreSettled c ns r.slots v codes d → IsBooked r →
        (r.total ≡ code_total (entries (found_in ns r.slots d.forest))) × IsTableOf r.ids (borne_values (found_in ns r.slots d.forest)) }
{}
