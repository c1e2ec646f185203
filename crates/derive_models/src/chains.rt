//! Derivation from a type without members, along bases.

ghost use Rattle.std.specs.Prelude.{◌≡◌, ◌↔◌, [], IsTrue};
ghost use Rattle.component_references.specs.Heights.{IsType};
ghost use Rattle.component_references.specs.Ranked.{IsRanked};
ghost use Rattle.type_derivation.specs.Chains.{Derives};
ghost use Rattle.type_derivation.specs.Derives as derives;
ghost use Rattle.type_derivation.specs.Derives.{members_of};
ghost use Rattle.type_derivation.specs.Within.{AreSimple};
ghost use Rattle.derive_models.specs.Derivation as spec;

use type_derivation::above;
use xs_components::{Components, Methods, TypeId};

/// The methods without which the types of elements derive in a restriction: extension, list and union (Structures 3.9.6).
pub(crate) fn excluded() -> Methods
    ensures { result ≡ spec.excluded }
{
    Methods {
        extension: true,
        restriction: false,
        substitution: false,
        by_list: true,
        by_union: true,
    }
}

// The type that a type restricts; none for anyType and for extensions.
fn restricted_by(parts: &Components, of: &TypeId) -> Option<TypeId>
    requires { IsType parts.now of.now }
    ensures { result ≡ derives.above parts.now spec.excluded of.now }
{
    above(parts, &excluded(), of)
}

// Whether two types are the same.
fn is_same(a: &TypeId, b: &TypeId) -> bool
    ensures { IsTrue result ↔ (a.now ≡ b.now) }
{
    *a == *b
}

/// Whether a type derives by restriction from another that has no member types.
pub(crate) fn derives_along(parts: &Components, sub: TypeId, base: &TypeId) -> bool
    requires ranked { IsRanked parts.now }
    requires simple { AreSimple parts.now }
    requires there { IsType parts.now sub }
    requires alone { members_of parts.now base.now ≡ [] }
    ensures { IsTrue result ↔ Derives parts.now spec.excluded sub base.now }
{
    let mut at = sub;
    'up: loop {
        if is_same(&at, base) {
            return true;
        }
        match restricted_by(parts, &at) {
            None => return false,
            Some(next) => at = next,
        }
    }
}
