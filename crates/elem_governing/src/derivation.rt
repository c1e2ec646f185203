//! Whether a type derives from another.

ghost use Rattle.std.specs.Prelude.{◌≡◌, IfOk};
ghost use Rattle.component_references.specs.Heights.{IsType};
ghost use Rattle.component_references.specs.Ranked.{IsRanked};
ghost use Rattle.component_tables.specs.Bases.{AreLinesOf};
ghost use Rattle.type_derivation.specs.Within.{AreSimple};
ghost use Rattle.elem_governing.specs.Derived as spec;

use component_tables::BaseLines;
use std::alloc::{AllocError, Global};
use type_derivation::derives;
use xs_components::{Components, Methods, TypeId};

/// Whether a type derives from another without any of these methods.
pub(crate) fn is_derived(
    alloc: Global,
    parts: &Components,
    bases: &BaseLines,
    sub: TypeId,
    base: TypeId,
    excluded: &Methods,
) -> Result<bool, AllocError>
    requires ranked { IsRanked parts.now }
    requires simple { AreSimple parts.now }
    requires bases { AreLinesOf parts.now bases.now }
    requires sub { IsType parts.now sub }
    requires base { IsType parts.now base }
    ensures tested { IfOk result (λ answer. answer ≡ spec.derives parts.now excluded.now sub base) }
{
    derives(alloc, parts, bases, sub, base, excluded)
}
