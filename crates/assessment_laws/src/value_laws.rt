//! What the values of an element and its attributes go by.

ghost use Rattle.std.specs.Prelude.{◌≡◌};
ghost use Rattle.xs_names.specs.Names.{NameTable, IsSound};
ghost use Rattle.xs_components.specs.Tables.{Tables};
ghost use Rattle.assess_records.specs.declared.shape.ElementShape.{ElementShape};
ghost use Rattle.attr_assess.specs.Added.{AreNamed};
ghost use Rattle.elem_governing.specs.declared.pairs.Governing.{Governing};
ghost use Rattle.elem_assess.specs.Local.{IsLocal};
ghost use Rattle.elem_assess.specs.declared.records.Judged.{Judged};
ghost use Rattle.assessment_laws.specs.Shown.{ShowSameText};

/// The values of an element and of its attributes, and the records of its attributes, go by what governs it, by its attributes, its
/// text and its scope, and by whether it has child elements (Structures 3.3.4, 3.4.4); how many these are, what came of them, where
/// they get stuck, and codes that are said beside do not change them.
pub fn values_do_not_go_by_counts()
    ensures { (names : NameTable) (t : Tables) (g : Governing) (a b : ElementShape) (x y : Judged) → IsSound names → AreNamed names t →
        ShowSameText a b → IsLocal names t g a x → IsLocal names t g b y → (x.value ≡ y.value) × (x.attrs ≡ y.attrs) × (x.attr_values ≡ y.attr_values) }
{}
