//! Whether an element may stand for a head.

ghost use Rattle.std.specs.Prelude.{◌≡◌, ◌<◌, ◌↔◌, ℕ, length, slice_get, IfOk, IfSome, IsTrue, Some};
ghost use Rattle.xs_components.specs.Tables.{Tables};
ghost use Rattle.xs_components.specs.declared.element.ElementDecl.{ElementDecl};
ghost use Rattle.component_references.specs.Heights.{IsType};
ghost use Rattle.component_references.specs.Ranked.{IsRanked};
ghost use Rattle.component_tables.specs.Types.{AreDeclarationsOf, type_of};
ghost use Rattle.type_derivation.specs.Within.{AreSimple};
ghost use Rattle.element_declarations.specs.Groups as spec;

use crate::blocking::{between, both, prohibited};
use component_tables::Declarations;
use std::alloc::{AllocError, Global};
use type_derivation::derives;
use xs_components::{Components, ElementId, Methods, TypeId};

// The methods of derivation that are blocked between a head and an element with these types.
fn blocked(parts: &Components, disallowed: Methods, sub: &TypeId, base: &TypeId) -> Methods
    requires ranked { IsRanked parts.now }
    requires sub_there { IsType parts.now sub.now }
    requires base_there { IsType parts.now base.now }
    ensures blocked { (head element : ℕ) → spec.disallowed parts.now head ≡ disallowed → type_of parts.now head ≡ base.now → type_of parts.now element ≡ sub.now → spec.AreBlocked parts.now head element result }
{
    let own = both(disallowed, prohibited(parts, base));
    both(own, between(parts, sub, base))
}

/// Whether an element may stand for a head (Structures 3.3.6, Substitution Group OK).
pub(crate) fn may_stand(
    alloc: Global,
    parts: &Components,
    declarations: &Declarations,
    element: ElementId,
    head: ElementId,
) -> Result<bool, AllocError>
    requires ranked { IsRanked parts.now }
    requires simple { AreSimple parts.now }
    requires types { (n : ℕ) (part : ElementDecl) → slice_get parts.now.elements.parts n ≡ Some part → IfSome part.of (IsType parts.now) }
    requires declarations { AreDeclarationsOf parts.now declarations.now }
    requires there { head < length parts.now.elements.parts }
    ensures { IfOk result (λ answer. IsTrue answer ↔ spec.MayStand parts.now head element) }
{
    let disallowed = parts.element(head).blocks;
    if disallowed.substitution {
        return Ok(false);
    }
    let base = declarations.type_of(head);
    let sub = declarations.type_of(element);
    let blocked = blocked(parts, disallowed, &sub, &base);
    derives(alloc, parts, declarations.bases(), sub, base, &blocked)
}
