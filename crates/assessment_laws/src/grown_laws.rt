//! What stays as names are added.

ghost use Rattle.std.specs.Prelude.{◌≡◌, ℕ, Option, List};
ghost use Rattle.xs_names.specs.Names.{NameTable, Grown, IsSound};
ghost use Rattle.plain_tree.specs.Found.{HasBindings, HasAttributes, HasTag, HasNames};
ghost use Rattle.tree_rows.specs.Forest.{Forest};
ghost use Rattle.tree_rows.specs.declared.name.Expanded.{Expanded};
ghost use Rattle.tree_rows.specs.declared.row.Attribute.{Attribute};
ghost use Rattle.tree_rows.specs.declared.row.Binding.{Binding};
ghost use Rattle.xs_components.specs.Tables.{Tables};
ghost use Rattle.assess_records.specs.Numbered.{Scope, named_texts, scope_in, head_of, heads};
ghost use Rattle.assess_records.specs.declared.shape.ElementShape.{ElementShape};
ghost use Rattle.elem_governing.specs.Governing.{govern_root, govern_child};
ghost use Rattle.elem_governing.specs.View.{AreKnown};
ghost use Rattle.elem_governing.specs.declared.pairs.Governing.{Governing};
ghost use Rattle.elem_governing.specs.declared.pairs.Mode.{Mode};
ghost use Rattle.elem_assess.specs.Local.{IsLocal};
ghost use Rattle.elem_assess.specs.declared.records.Judged.{Judged};
ghost use Rattle.assessment_laws.specs.GrownThere.{ArePartsNamed, IsShapeNamed};

/// What elements show of themselves by the numbers of their names stays as names are added to a table that had theirs: their
/// attributes, their scopes, and what governs them goes by.
pub fn heads_keep_as_names_are_added()
    ensures texts { (old new : NameTable) (attributes : List Attribute) → Grown old new → HasAttributes old attributes → named_texts new attributes ≡ named_texts old attributes }
    ensures scopes { (old new : NameTable) (bindings : List Binding) (scope : Scope) → Grown old new → HasBindings old bindings → scope_in new bindings scope ≡ scope_in old bindings scope }
    ensures head { (old new : NameTable) (scope : Scope) (name : Expanded) (bindings : List Binding) (attributes : List Attribute) → Grown old new → IsSound old → HasTag old name bindings attributes →
        head_of new scope name bindings attributes ≡ head_of old scope name bindings attributes }
    ensures heads { (old new : NameTable) (scope : Scope) (f : Forest) → Grown old new → IsSound old → HasNames old f → heads new scope f ≡ heads old scope f }
{}

/// So does what governs an element (Structures 3.3.4, 5.2), in a scope of namespaces that the table had: no type has a name that is
/// new.
pub fn governing_keeps_as_names_are_added()
    ensures child { (old new : NameTable) (t : Tables) (mode : Mode) (term : Option ℕ) (name : ℕ) (xsi : Option (List ℕ)) (scope : Scope) → Grown old new → IsSound old → ArePartsNamed old t →
        AreKnown old scope → govern_child new t mode term name xsi scope ≡ govern_child old t mode term name xsi scope }
    ensures root { (old new : NameTable) (t : Tables) (name : ℕ) (xsi : Option (List ℕ)) (scope : Scope) → Grown old new → IsSound old → ArePartsNamed old t →
        AreKnown old scope → govern_root new t name xsi scope ≡ govern_root old t name xsi scope }
{}

/// So do the records and the values of an element and its attributes (Structures 3.2.4, 3.3.4, 3.4.4), whose names and namespaces the
/// table had: no attribute that is added has a name that is new.
pub fn records_keep_as_names_are_added()
    ensures { (old new : NameTable) (t : Tables) (g : Governing) (shape : ElementShape) (judged : Judged) → Grown old new → IsSound old → ArePartsNamed old t →
        IsShapeNamed old shape → IsLocal old t g shape judged → IsLocal new t g shape judged }
{}
