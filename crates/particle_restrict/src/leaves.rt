//! Elements and wildcards over one another.

ghost use Rattle.std.specs.Prelude.{◌≡◌, ◌↔◌, ◌*◌, ◌==◌, Some, IfSome, All, IsTrue, slice_get};
ghost use Rattle.std.specs.List.{list_any};
ghost use Rattle.particle_restrict.specs.Occurrence.{IsRangeOk, NotMore, most_by};
ghost use Rattle.particle_restrict.specs.Terms as terms;
ghost use Rattle.particle_restrict.specs.Terms.{KeepsProperties, IsSuperset, IsAsStrong, IsNameAndTypeOk, IsNsCompat, IsNsSubset, IsElement, IsWildcard, TermRestricts, TermsRestrict};
ghost use Rattle.particle_restrict.specs.Tables.{HasType};

use crate::terms::{Declaration, Derivation, Space, Term};
use crate::totals::Total;
use particle_models::Bounds;
use xs_components::{ConstraintId, Methods, Process};
use xs_names::NameId;

/// Whether the term of a number, with these bounds, restricts that of another, with those.
pub(crate) fn terms_restrict<T: Derivation>(
    types: &T,
    terms: &[Term],
    bounds: Bounds,
    t: u32,
    base_bounds: Bounds,
    u: u32,
) -> bool
    requires valid { T.is_valid types.now }
    requires types { All (HasType (T.is_type types.now)) terms.now }
    ensures { IsTrue result ↔ TermsRestrict (T.derives types.now) bounds (slice_get terms.now t) base_bounds (slice_get terms.now u) }
{
    let Some(term) = terms.get(t as usize) else {
        return false;
    };
    let Some(base) = terms.get(u as usize) else {
        return false;
    };
    term_restricts(types, bounds, term, base_bounds, base)
}

/// Whether a term, with these bounds, restricts another, with those.
fn term_restricts<T: Derivation>(
    types: &T,
    bounds: Bounds,
    term: &Term,
    base_bounds: Bounds,
    base: &Term,
) -> bool
    requires valid { T.is_valid types.now }
    requires term { HasType (T.is_type types.now) term.now }
    requires base { HasType (T.is_type types.now) base.now }
    ensures { IsTrue result ↔ TermRestricts (T.derives types.now) bounds term.now base_bounds base.now }
{
    match term {
        Term::Element(element) => match base {
            Term::Element(of) => name_and_type_ok(types, bounds, element, base_bounds, of),
            Term::Any(space) => ns_compat(bounds, element, base_bounds, space),
        },
        Term::Any(space) => match base {
            Term::Element(_) => false,
            Term::Any(of) => ns_subset(bounds, space, base_bounds, of),
        },
    }
}

/// Whether the term of a number is an element.
pub(crate) fn is_element(terms: &[Term], t: u32) -> bool
    ensures { IsTrue result ↔ IsElement (slice_get terms.now t) }
{
    matches!(terms.get(t as usize), Some(Term::Element(_)))
}

/// Whether the term of a number is a wildcard.
pub(crate) fn is_wildcard(terms: &[Term], t: u32) -> bool
    ensures { IsTrue result ↔ IsWildcard (slice_get terms.now t) }
{
    matches!(terms.get(t as usize), Some(Term::Any(_)))
}

/// NameAndTypeOK (Structures 3.9.6).
fn name_and_type_ok<T: Derivation>(
    types: &T,
    bounds: Bounds,
    element: &Declaration,
    base_bounds: Bounds,
    base: &Declaration,
) -> bool
    requires valid { T.is_valid types.now }
    requires element { T.is_type types.now element.now.of }
    requires base { T.is_type types.now base.now.of }
    ensures { IsTrue result ↔ IsNameAndTypeOk (T.derives types.now) bounds element.now base_bounds base.now }
{
    if !keeps_properties(element, base) {
        return false;
    }
    if !range_ok(bounds, base_bounds) {
        return false;
    }
    types.restricts_type(element.of, base.of)
}

/// Whether a declaration keeps what the base's says, but for its type.
fn keeps_properties(element: &Declaration, base: &Declaration) -> bool
    ensures { IsTrue result ↔ KeepsProperties element.now base.now }
{
    if !has_name(element, base.name) {
        return false;
    }
    if !follows(base.nillable, element.nillable) {
        return false;
    }
    if !keeps_fixed(element, base) {
        return false;
    }
    if !are_among(element.constraints.as_slice(), base.constraints.as_slice()) {
        return false;
    }
    is_superset(element.blocks, base.blocks)
}

/// Whether it is the declaration's name.
fn has_name(element: &Declaration, name: NameId) -> bool
    ensures { IsTrue result ↔ (element.now.name ≡ name) }
{
    element.name == name
}

/// Whether a fixed value of the base is kept.
fn keeps_fixed(element: &Declaration, base: &Declaration) -> bool
    ensures { IsTrue result ↔ IfSome base.now.fixed (λ value. element.now.fixed ≡ Some value) }
{
    match base.fixed {
        Some(value) => match element.fixed {
            Some(own) => own == value,
            None => false,
        },
        None => true,
    }
}

/// Whether each of the identity constraints is among the base's.
fn are_among(constraints: &[ConstraintId], base: &[ConstraintId]) -> bool
    ensures { result ≡ terms.are_among constraints.now base.now }
{
    constraints.iter().all(|id| is_among(base, *id))
}

/// Whether an identity constraint is among the base's.
fn is_among(base: &[ConstraintId], id: ConstraintId) -> bool
    ensures { result ≡ list_any (λ x. x == id) base.now }
{
    base.iter().any(|x| *x == id)
}

/// Whether a set of methods has each method of another.
fn is_superset(methods: Methods, of: Methods) -> bool
    ensures { IsTrue result ↔ IsSuperset methods of }
{
    follows(methods.extension, of.extension)
        && follows(methods.restriction, of.restriction)
        && follows(methods.substitution, of.substitution)
        && follows(methods.by_list, of.by_list)
        && follows(methods.by_union, of.by_union)
}

/// Whether the first holds where the second does.
fn follows(in_set: bool, in_other: bool) -> bool
    ensures { IsTrue result ↔ (IsTrue in_other → IsTrue in_set) }
{
    in_set || !in_other
}

/// NSCompat (Structures 3.9.6).
fn ns_compat(bounds: Bounds, element: &Declaration, base_bounds: Bounds, base: &Space) -> bool
    ensures { IsTrue result ↔ IsNsCompat bounds element.now base_bounds base.now }
{
    if !base.wildcard.namespaces.admits(element.space) {
        return false;
    }
    range_ok(bounds, base_bounds)
}

/// NSSubset (Structures 3.9.6).
fn ns_subset(bounds: Bounds, space: &Space, base_bounds: Bounds, base: &Space) -> bool
    ensures { IsTrue result ↔ IsNsSubset bounds space.now base_bounds base.now }
{
    if !range_ok(bounds, base_bounds) {
        return false;
    }
    if !space.wildcard.namespaces.subset(&base.wildcard.namespaces) {
        return false;
    }
    if base.of_any_type {
        return true;
    }
    is_as_strong(space.wildcard.process, base.wildcard.process)
}

/// Whether what is admitted is assessed as strictly.
fn is_as_strong(process: Process, base: Process) -> bool
    ensures { IsTrue result ↔ IsAsStrong process base }
{
    match process {
        Process::Strict => true,
        Process::Lax => base != Process::Strict,
        Process::Skip => base == Process::Skip,
    }
}

/// Whether bounds are within the base's (Structures 3.9.6).
pub(crate) fn range_ok(bounds: Bounds, base: Bounds) -> bool
    ensures { IsTrue result ↔ IsRangeOk bounds.least bounds.most base }
{
    if base.least > bounds.least {
        return false;
    }
    match bounds.most {
        Some(most) => is_not_more(Some(u64::from(most)), base.most),
        None => is_not_more(None, base.most),
    }
}

/// Whether an effective total range is within the base's bounds (Structures 3.9.6).
pub(crate) fn total_ok(total: Total, base: Bounds) -> bool
    ensures { IsTrue result ↔ IsRangeOk total.least total.most base }
{
    if u64::from(base.least) > total.least {
        return false;
    }
    is_not_more(total.most, base.most)
}

/// Whether the bounds taken as often as there are members are within the base's (Structures 3.9.6, MapAndSum).
pub(crate) fn sum_ok(bounds: Bounds, members: usize, base: Bounds) -> bool
    ensures { IsTrue result ↔ IsRangeOk (bounds.least * members) (most_by bounds.most members) base }
{
    let members = members as u64;
    let least = u64::from(bounds.least).saturating_mul(members);
    if u64::from(base.least) > least {
        return false;
    }
    match bounds.most {
        Some(most) => is_not_more(Some(u64::from(most).saturating_mul(members)), base.most),
        None => is_not_more(None, base.most),
    }
}

/// Whether a greatest number is no greater than the base's, of which there may be none.
fn is_not_more(most: Option<u64>, base: Option<u32>) -> bool
    ensures { IsTrue result ↔ NotMore most base }
{
    match base {
        None => true,
        Some(base) => match most {
            None => false,
            Some(most) => most <= u64::from(base),
        },
    }
}
