//! The rules of a simple type and of those that it is made of.
ghost use Rattle.std.specs.Prelude.{◌≡◌};
ghost use Rattle.facet_rules.specs.First.{first_from};
ghost use Rattle.simple_types.specs.TypeRules as spec;

use facet_rules::noted;
use xs_codes::{Builtin, Code, Fault};
use xs_components::{Components, Methods, Place, TypeId};

// The methods that a type of the tables is final for.
fn finals_of(parts: &Components, of: &TypeId) -> Option<Methods>
    ensures { result ≡ spec.finals_of parts.now of.now }
{
    let TypeId::Simple(id) = of else {
        return None;
    };
    let id = parts.simple_at(id.number())?;
    Some(parts.simple(id).finals)
}

fn is_final_for_restriction(parts: &Components, of: &TypeId) -> bool
    ensures { result ≡ spec.is_final_for_restriction parts.now of.now }
{
    match finals_of(parts, of) {
        Some(finals) => finals.restriction,
        None => false,
    }
}

fn is_final_for_lists(parts: &Components, of: &TypeId) -> bool
    ensures { result ≡ spec.is_final_for_lists parts.now of.now }
{
    match finals_of(parts, of) {
        Some(finals) => finals.by_list,
        None => false,
    }
}

fn is_final_for_unions(parts: &Components, of: &TypeId) -> bool
    ensures { result ≡ spec.is_final_for_unions parts.now of.now }
{
    match finals_of(parts, of) {
        Some(finals) => finals.by_union,
        None => false,
    }
}

fn is_any_simple_type(of: &TypeId) -> bool
    ensures { result ≡ spec.is_any_simple_type of.now }
{
    matches!(of, TypeId::Builtin(Builtin::AnySimpleType))
}

/// Notes what is wrong with the base of a restriction.
pub(crate) fn note_base(
    parts: &Components,
    at: Place,
    base: &TypeId,
    best: Option<Fault>,
) -> Option<Fault>
    ensures { result ≡ first_from best (spec.base_rules parts.now at base.now) }
{
    let best = noted(best, is_any_simple_type(base), at, Code::XSimpleBase);
    noted(
        best,
        is_final_for_restriction(parts, base),
        at,
        Code::StPropsCorrect3,
    )
}

/// Notes what is wrong with the item type of a list, of which literals are lists or not.
pub(crate) fn note_item(
    parts: &Components,
    at: Place,
    item: &TypeId,
    is_atomic: bool,
) -> Option<Fault>
    ensures { result ≡ first_from spec.no_fault (spec.item_rules parts.now at item.now is_atomic) }
{
    let best = noted(
        None,
        is_final_for_lists(parts, item),
        at,
        Code::XSimpleFinal,
    );
    noted(best, !is_atomic, at, Code::CosListOfAtomic)
}

/// Notes the members of a union that no union may have.
pub(crate) fn note_members(parts: &Components, at: Place, members: &[TypeId]) -> Option<Fault>
    ensures { result ≡ first_from spec.no_fault (spec.members_rules parts.now at members.now) }
{
    let mut best = None;
    for member in members {
        best = noted(
            best,
            is_final_for_unions(parts, member),
            at,
            Code::XSimpleFinal,
        );
    }
    best
}
