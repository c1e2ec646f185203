//! What there is by a usable set.

ghost use Rattle.std.specs.Prelude.{ℕ, List, Option};
ghost use Rattle.tree_rows.specs.Forest.{Document};
ghost use Rattle.tree_rows.specs.Whole.{IsTree};
ghost use Rattle.xs_components.specs.declared.common.TypeId.{TypeId};
ghost use Rattle.elem_governing.specs.declared.pairs.Governing.{Governing};
ghost use Rattle.assessment.specs.Attribution.{content_particle, AreTerms};
ghost use Rattle.compiled_schema.specs.Usable.{set_of, IsUsable};
ghost use Rattle.compiled_schema.specs.declared.compiled.Compiled.{Compiled as CompiledData};
ghost use Rattle.assessment_laws.specs.Governed.{AreGovernings};

/// Child elements with any names have terms of the content model of a type, and get stuck at a place or nowhere (Structures 3.4.4).
pub fn terms_are_there()
    ensures { (c : CompiledData) → IsUsable c → (of : Option TypeId) (children : List ℕ) →
        (stuck : Option ℕ) × (terms : List (Option ℕ)) × AreTerms (set_of c) (content_particle c.parts of) children stuck terms }
{}

/// What governs the elements of any document is there (Structures 3.3.4, 5.2), also where nothing was found of them.
pub fn governings_are_there()
    ensures { (c : CompiledData) (d : Document) → IsUsable c → IsTree d → (governs : ℕ → Governing) × AreGovernings (set_of c) governs d.forest }
{}
