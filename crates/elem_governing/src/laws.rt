//! A law on the test by which types derive from others.

ghost use Rattle.std.specs.Prelude.{◌↔◌, IsTrue};
ghost use Rattle.xs_components.specs.Tables.{Tables};
ghost use Rattle.xs_components.specs.declared.common.Methods.{Methods};
ghost use Rattle.xs_components.specs.declared.common.TypeId.{TypeId};
ghost use Rattle.component_references.specs.Heights.{IsType};
ghost use Rattle.component_references.specs.Ranked.{IsRanked};
ghost use Rattle.type_derivation.specs.Chains.{Derives};
ghost use Rattle.elem_governing.specs.Derived.{derives};

/// A law: the test by recursion tells which types derive from which (Structures 3.4.6, 3.14.6).
pub fn derivation_is_tested()
    ensures told { (t : Tables) (excluded : Methods) (sub base : TypeId) → IsRanked t → IsType t sub → IsType t base → IsTrue (derives t excluded sub base) ↔ Derives t excluded sub base }
{}
