//! The rules of bounds in a step of restriction.
ghost use Rattle.std.specs.Prelude.{◌≡◌};
ghost use Rattle.std.specs.Option.{option_copied};
ghost use Rattle.facet_rules.specs.First.{first_from};
ghost use Rattle.facet_rules.specs.BoundRules as spec;

use crate::ReadFacet;
use crate::first::noted;
use crate::step::{limit_of, place_of};
use facet_checks::{Bound, FacetList, is_at_most, is_below};
use simple_values::{Value, same};
use xs_codes::{Code, Fault};
use xs_components::FacetKind;

/// Notes the rules of bounds.
#[tactic(auto, using(crate::proofs::FirstLaws::first_from_append))]
pub(crate) fn note_bounds(
    base: &FacetList,
    facets: &[ReadFacet],
    best: Option<Fault>,
) -> Option<Fault>
    ensures { result ≡ first_from best (spec.bound_rules base.now facets.now) }
{
    let best = note_max_inclusive(base, facets, best);
    let best = note_max_exclusive(base, facets, best);
    let best = note_min_inclusive(base, facets, best);
    note_min_exclusive(base, facets, best)
}

fn note_max_inclusive(base: &FacetList, facets: &[ReadFacet], best: Option<Fault>) -> Option<Fault>
    ensures { result ≡ first_from best (spec.max_inclusive_rules base.now facets.now) }
{
    let Some(at) = place_of(facets, FacetKind::MaxInclusive) else {
        return best;
    };
    let own = limit_of(facets, FacetKind::MaxInclusive);
    let moved = is_moved(base.max_inclusive.as_ref(), own);
    let best = noted(best, moved, at, Code::StRestrictFacets);
    let both = has_both_upper(facets);
    let best = noted(best, both, at, Code::MaxInclusiveMaxExclusive);
    let crossed = are_below(own, limit_of(facets, FacetKind::MinInclusive));
    let best = noted(
        best,
        crossed,
        at,
        Code::MinInclusiveLessThanEqualToMaxInclusive,
    );
    let crossed = are_at_most(own, limit_of(facets, FacetKind::MinExclusive));
    let best = noted(best, crossed, at, Code::MinExclusiveLessThanMaxInclusive);
    noted(
        best,
        is_no_max_inclusive(base, own),
        at,
        Code::MaxInclusiveValidRestriction,
    )
}

fn note_max_exclusive(base: &FacetList, facets: &[ReadFacet], best: Option<Fault>) -> Option<Fault>
    ensures { result ≡ first_from best (spec.max_exclusive_rules base.now facets.now) }
{
    let Some(at) = place_of(facets, FacetKind::MaxExclusive) else {
        return best;
    };
    let own = limit_of(facets, FacetKind::MaxExclusive);
    let moved = is_moved(base.max_exclusive.as_ref(), own);
    let best = noted(best, moved, at, Code::StRestrictFacets);
    let both = has_both_upper(facets);
    let best = noted(best, both, at, Code::MaxInclusiveMaxExclusive);
    let crossed = are_below(own, limit_of(facets, FacetKind::MinExclusive));
    let best = noted(
        best,
        crossed,
        at,
        Code::MinExclusiveLessThanEqualToMaxExclusive,
    );
    let crossed = are_at_most(own, limit_of(facets, FacetKind::MinInclusive));
    let best = noted(best, crossed, at, Code::MinInclusiveLessThanMaxExclusive);
    noted(
        best,
        is_no_max_exclusive(base, own),
        at,
        Code::MaxExclusiveValidRestriction,
    )
}

fn note_min_inclusive(base: &FacetList, facets: &[ReadFacet], best: Option<Fault>) -> Option<Fault>
    ensures { result ≡ first_from best (spec.min_inclusive_rules base.now facets.now) }
{
    let Some(at) = place_of(facets, FacetKind::MinInclusive) else {
        return best;
    };
    let own = limit_of(facets, FacetKind::MinInclusive);
    let moved = is_moved(base.min_inclusive.as_ref(), own);
    let best = noted(best, moved, at, Code::StRestrictFacets);
    let both = has_both_lower(facets);
    let best = noted(best, both, at, Code::MinInclusiveMinExclusive);
    let crossed = are_below(limit_of(facets, FacetKind::MaxInclusive), own);
    let best = noted(
        best,
        crossed,
        at,
        Code::MinInclusiveLessThanEqualToMaxInclusive,
    );
    let crossed = are_at_most(limit_of(facets, FacetKind::MaxExclusive), own);
    let best = noted(best, crossed, at, Code::MinInclusiveLessThanMaxExclusive);
    noted(
        best,
        is_no_min_inclusive(base, own),
        at,
        Code::MinInclusiveValidRestriction,
    )
}

fn note_min_exclusive(base: &FacetList, facets: &[ReadFacet], best: Option<Fault>) -> Option<Fault>
    ensures { result ≡ first_from best (spec.min_exclusive_rules base.now facets.now) }
{
    let Some(at) = place_of(facets, FacetKind::MinExclusive) else {
        return best;
    };
    let own = limit_of(facets, FacetKind::MinExclusive);
    let moved = is_moved(base.min_exclusive.as_ref(), own);
    let best = noted(best, moved, at, Code::StRestrictFacets);
    let both = has_both_lower(facets);
    let best = noted(best, both, at, Code::MinInclusiveMinExclusive);
    let crossed = are_below(limit_of(facets, FacetKind::MaxExclusive), own);
    let best = noted(
        best,
        crossed,
        at,
        Code::MinExclusiveLessThanEqualToMaxExclusive,
    );
    let crossed = are_at_most(limit_of(facets, FacetKind::MaxInclusive), own);
    let best = noted(best, crossed, at, Code::MinExclusiveLessThanMaxInclusive);
    noted(
        best,
        is_no_min_exclusive(base, own),
        at,
        Code::MinExclusiveValidRestriction,
    )
}

// Whether the step has both upper bounds.
fn has_both_upper(facets: &[ReadFacet]) -> bool
    ensures { result ≡ spec.has_both_upper facets.now }
{
    place_of(facets, FacetKind::MaxInclusive).is_some()
        && place_of(facets, FacetKind::MaxExclusive).is_some()
}

// Whether the step has both lower bounds.
fn has_both_lower(facets: &[ReadFacet]) -> bool
    ensures { result ≡ spec.has_both_lower facets.now }
{
    place_of(facets, FacetKind::MinInclusive).is_some()
        && place_of(facets, FacetKind::MinExclusive).is_some()
}

// Whether the base's bound of a kind is fixed, and the step's another.
fn is_moved(base: Option<&Bound>, own: Option<&Value>) -> bool
    ensures { result ≡ spec.is_moved (option_copied base.entry) (option_copied own.entry) }
{
    match (base, own) {
        (Some(base), Some(own)) => base.fixed && !same(own, &base.value),
        _ => false,
    }
}

// Whether both values are there, and the first is less than the second.
fn are_below(a: Option<&Value>, b: Option<&Value>) -> bool
    ensures { result ≡ spec.are_below (option_copied a.entry) (option_copied b.entry) }
{
    match (a, b) {
        (Some(a), Some(b)) => is_below(a, b),
        _ => false,
    }
}

// Whether both values are there, and the first is less than the second or the same.
fn are_at_most(a: Option<&Value>, b: Option<&Value>) -> bool
    ensures { result ≡ spec.are_at_most (option_copied a.entry) (option_copied b.entry) }
{
    match (a, b) {
        (Some(a), Some(b)) => is_at_most(a, b),
        _ => false,
    }
}

// The value of a bound.
fn bound_value(bound: Option<&Bound>) -> Option<&Value>
    ensures { option_copied result ≡ spec.bound_value (option_copied bound.entry) }
{
    match bound {
        Some(bound) => Some(&bound.value),
        None => None,
    }
}

// Whether a maxInclusive lies past a bound of the base.
fn is_no_max_inclusive(base: &FacetList, own: Option<&Value>) -> bool
    ensures { result ≡ spec.is_no_max_inclusive base.now (option_copied own.entry) }
{
    are_below(bound_value(base.max_inclusive.as_ref()), own)
        || are_at_most(bound_value(base.max_exclusive.as_ref()), own)
        || are_below(own, bound_value(base.min_inclusive.as_ref()))
        || are_at_most(own, bound_value(base.min_exclusive.as_ref()))
}

// Whether a maxExclusive lies past a bound of the base.
fn is_no_max_exclusive(base: &FacetList, own: Option<&Value>) -> bool
    ensures { result ≡ spec.is_no_max_exclusive base.now (option_copied own.entry) }
{
    are_below(bound_value(base.max_exclusive.as_ref()), own)
        || are_below(bound_value(base.max_inclusive.as_ref()), own)
        || are_at_most(own, bound_value(base.min_inclusive.as_ref()))
        || are_at_most(own, bound_value(base.min_exclusive.as_ref()))
}

// Whether a minInclusive lies past a bound of the base.
fn is_no_min_inclusive(base: &FacetList, own: Option<&Value>) -> bool
    ensures { result ≡ spec.is_no_min_inclusive base.now (option_copied own.entry) }
{
    are_below(own, bound_value(base.min_inclusive.as_ref()))
        || are_below(bound_value(base.max_inclusive.as_ref()), own)
        || are_at_most(own, bound_value(base.min_exclusive.as_ref()))
        || are_at_most(bound_value(base.max_exclusive.as_ref()), own)
}

// Whether a minExclusive lies past a bound of the base.
fn is_no_min_exclusive(base: &FacetList, own: Option<&Value>) -> bool
    ensures { result ≡ spec.is_no_min_exclusive base.now (option_copied own.entry) }
{
    are_below(own, bound_value(base.min_exclusive.as_ref()))
        || are_below(bound_value(base.max_inclusive.as_ref()), own)
        || are_below(own, bound_value(base.min_inclusive.as_ref()))
        || are_at_most(bound_value(base.max_exclusive.as_ref()), own)
}
