//! The types that govern elements are there.

ghost use Rattle.std.specs.Prelude.{ℕ, List, Option, IfSome};
ghost use Rattle.xs_names.specs.Names.{NameTable};
ghost use Rattle.xs_components.specs.Tables.{Tables};
ghost use Rattle.component_references.specs.Heights.{IsType};
ghost use Rattle.component_tables.specs.Types.{DeclarationTable};
ghost use Rattle.component_tables.specs.Named.{Spaces};
ghost use Rattle.elem_governing.specs.Governing.{govern_root, govern_child};
ghost use Rattle.elem_governing.specs.View.{IsView};
ghost use Rattle.elem_governing.specs.declared.pairs.Mode.{Mode};

/// The type that governs the root, or a child of an element, is a built-in one or one of the tables, where those that element
/// declarations name are.
pub fn governed_types_are_there()
    ensures root { (names : NameTable) (t : Tables) (d : DeclarationTable) (named : Spaces) → IsView t d named
        → (name : ℕ) (xsi : Option (List ℕ)) (scope : List (List ℕ × ℕ)) → IfSome (govern_root names t name xsi scope).of (IsType t) }
    ensures child { (names : NameTable) (t : Tables) (d : DeclarationTable) (named : Spaces) → IsView t d named
        → (parent : Mode) (term : Option ℕ) (name : ℕ) (xsi : Option (List ℕ)) (scope : List (List ℕ × ℕ)) → IfSome (govern_child names t parent term name xsi scope).of (IsType t) }
{}
