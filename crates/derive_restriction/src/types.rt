//! Types that derive from others, whatever the method.

ghost use Rattle.std.specs.Prelude.{◌↔◌, IsTrue, IfOk};
ghost use Rattle.component_references.specs.Heights.{IsType};
ghost use Rattle.component_references.specs.Ranked.{IsRanked};
ghost use Rattle.component_tables.specs.Bases.{AreLinesOf};
ghost use Rattle.type_derivation.specs.Chains.{Derives, DerivesFromMember};
ghost use Rattle.type_derivation.specs.Within.{AreSimple};
ghost use Rattle.derive_faults.specs.Finals.{no_methods};

use component_tables::BaseLines;
use derive_faults::no_methods;
use std::alloc::{AllocError, Global};
use type_derivation::{derives, derives_from_member};
use xs_components::{Components, TypeId};

/// Whether a type derives from another.
pub(crate) fn derives_type(
    alloc: Global,
    parts: &Components,
    bases: &BaseLines,
    of: TypeId,
    base: TypeId,
) -> Result<bool, AllocError>
    requires ranked { IsRanked parts.now }
    requires simple { AreSimple parts.now }
    requires bases { AreLinesOf parts.now bases.now }
    requires of { IsType parts.now of }
    requires base { IsType parts.now base }
    ensures derived { IfOk result (λ answer. IsTrue answer ↔ Derives parts.now no_methods of base) }
{
    derives(alloc, parts, bases, of, base, &no_methods())
}

/// Whether a type derives from a restriction, without a name, of another: from a member of that.
pub(crate) fn derives_type_member(
    alloc: Global,
    parts: &Components,
    of: TypeId,
    base: TypeId,
) -> Result<bool, AllocError>
    requires ranked { IsRanked parts.now }
    requires simple { AreSimple parts.now }
    requires of { IsType parts.now of }
    requires base { IsType parts.now base }
    ensures derived { IfOk result (λ answer. IsTrue answer ↔ DerivesFromMember parts.now no_methods of base) }
{
    derives_from_member(alloc, parts, of, base, &no_methods())
}
