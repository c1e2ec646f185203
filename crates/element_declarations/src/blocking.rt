//! The methods of derivation that are blocked between a head and a member.

ghost use Rattle.std.specs.Prelude.{◌≡◌, ◌||◌, MatchOption};
ghost use Rattle.xs_components.specs.Tables.{Tables};
ghost use Rattle.xs_components.specs.declared.common.TypeId.{TypeId};
ghost use Rattle.component_references.specs.Heights.{IsType};
ghost use Rattle.component_references.specs.Ranked.{IsRanked};
ghost use Rattle.element_declarations.specs.Groups as spec;
ghost use Rattle.element_declarations.specs.inside.Steps.{AreProhibited, IsNext};

use xs_components::{Components, Methods, TypeId};

// No methods.
fn no_methods() -> Methods
    ensures { result ≡ spec.no_methods }
{
    Methods {
        extension: false,
        restriction: false,
        substitution: false,
        by_list: false,
        by_union: false,
    }
}

/// The methods of two sets.
pub(crate) fn both(a: Methods, b: Methods) -> Methods
    ensures extension { result.extension ≡ (a.extension || b.extension) }
    ensures restriction { result.restriction ≡ (a.restriction || b.restriction) }
{
    Methods {
        extension: a.extension || b.extension,
        restriction: a.restriction || b.restriction,
        substitution: a.substitution || b.substitution,
        by_list: a.by_list || b.by_list,
        by_union: a.by_union || b.by_union,
    }
}

/// The methods that a type prohibits.
pub(crate) fn prohibited(parts: &Components, of: &TypeId) -> Methods
    requires { IsType parts.now of.now }
    ensures { result ≡ spec.prohibited parts.now of.now }
{
    match of {
        TypeId::AnyType => no_methods(),
        TypeId::Builtin(_) => no_methods(),
        TypeId::Simple(_) => no_methods(),
        TypeId::Complex(id) => parts.complex(*id).blocks,
    }
}

// The first type between two, if there is one.
fn next_between(parts: &Components, sub: &TypeId, base: &TypeId) -> Option<TypeId>
    requires ranked { IsRanked parts.now }
    requires there { IsType parts.now sub.now }
    ensures { MatchOption result ((mid : TypeId) → spec.IsBetween parts.now base.now sub.now mid → ⊥) (λ next. IsNext parts.now base.now sub.now next) }
{
    if *sub == *base {
        return None;
    }
    let TypeId::Complex(id) = sub else {
        return None;
    };
    let next = parts.complex(*id).base;
    if next == *base { None } else { Some(next) }
}

/// The methods that the types between two prohibit.
pub(crate) fn between(parts: &Components, sub: &TypeId, base: &TypeId) -> Methods
    requires ranked { IsRanked parts.now }
    requires there { IsType parts.now sub.now }
    ensures { AreProhibited parts.now base.now sub.now result }
{
    let mut found = no_methods();
    let mut at = *sub;
    'up: while let Some(next) = next_between(parts, &at, base) {
        found = both(found, prohibited(parts, &next));
        at = next;
    }
    found
}
