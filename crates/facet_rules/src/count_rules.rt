//! The rules of lengths, digits and white space in a step of restriction.
ghost use Rattle.std.specs.Prelude.{◌≡◌};
ghost use Rattle.std.specs.Option.{option_copied};
ghost use Rattle.facet_rules.specs.First.{first_from};
ghost use Rattle.facet_rules.specs.CountRules as spec;

use crate::first::noted;
use crate::step::{count_of, first_of, handling_of, place_of};
use crate::{ReadFacet, Reading};
use facet_checks::{Count, FacetList, Handling};
use xs_codes::{Code, Fault};
use xs_components::FacetKind;
use xs_names::WhiteSpace;

/// Notes the rules of the facets that count.
#[tactic(auto, using(crate::proofs::FirstLaws::first_from_append))]
pub(crate) fn note_counts(
    base: &FacetList,
    facets: &[ReadFacet],
    best: Option<Fault>,
) -> Option<Fault>
    ensures { result ≡ first_from best (spec.count_rules base.now facets.now) }
{
    let best = note_white_space(base, facets, best);
    let best = note_length(base, facets, best);
    let best = note_min_length(base, facets, best);
    let best = note_max_length(base, facets, best);
    let best = note_total_digits(base, facets, best);
    note_fraction_digits(base, facets, best)
}

fn note_white_space(base: &FacetList, facets: &[ReadFacet], best: Option<Fault>) -> Option<Fault>
    ensures { result ≡ first_from best (spec.white_space_rules base.now facets.now) }
{
    let Some(at) = place_of(facets, FacetKind::WhiteSpace) else {
        return best;
    };
    let own = handling_of(facets);
    let best = noted(
        best,
        is_other_handling(base.white_space, own),
        at,
        Code::StRestrictFacets,
    );
    noted(
        best,
        is_weaker(base.white_space, own),
        at,
        Code::WhiteSpaceValidRestriction,
    )
}

fn note_length(base: &FacetList, facets: &[ReadFacet], best: Option<Fault>) -> Option<Fault>
    ensures { result ≡ first_from best (spec.length_rules base.now facets.now) }
{
    let Some(at) = place_of(facets, FacetKind::Length) else {
        return best;
    };
    let own = count_of(facets, FacetKind::Length);
    let least = in_force(first_of(facets, FacetKind::MinLength), base.min_length);
    let most = in_force(first_of(facets, FacetKind::MaxLength), base.max_length);
    let best = noted(
        best,
        is_changed(base.length, own),
        at,
        Code::StRestrictFacets,
    );
    let best = noted(
        best,
        is_other(base.length, own),
        at,
        Code::LengthValidRestriction,
    );
    noted(
        best,
        is_outside(number(own), least, most),
        at,
        Code::LengthMinLengthMaxLength,
    )
}

fn note_min_length(base: &FacetList, facets: &[ReadFacet], best: Option<Fault>) -> Option<Fault>
    ensures { result ≡ first_from best (spec.min_length_rules base.now facets.now) }
{
    let Some(at) = place_of(facets, FacetKind::MinLength) else {
        return best;
    };
    let own = count_of(facets, FacetKind::MinLength);
    let exact = in_force(first_of(facets, FacetKind::Length), base.length);
    let most = in_force(first_of(facets, FacetKind::MaxLength), base.max_length);
    let best = noted(
        best,
        is_changed(base.min_length, own),
        at,
        Code::StRestrictFacets,
    );
    let best = noted(
        best,
        is_under(number(own), number(base.min_length)),
        at,
        Code::MinLengthValidRestriction,
    );
    let best = noted(
        best,
        is_outside(exact, number(own), None),
        at,
        Code::LengthMinLengthMaxLength,
    );
    noted(
        best,
        is_under(most, number(own)),
        at,
        Code::MinLengthLessThanEqualToMaxLength,
    )
}

fn note_max_length(base: &FacetList, facets: &[ReadFacet], best: Option<Fault>) -> Option<Fault>
    ensures { result ≡ first_from best (spec.max_length_rules base.now facets.now) }
{
    let Some(at) = place_of(facets, FacetKind::MaxLength) else {
        return best;
    };
    let own = count_of(facets, FacetKind::MaxLength);
    let exact = in_force(first_of(facets, FacetKind::Length), base.length);
    let least = in_force(first_of(facets, FacetKind::MinLength), base.min_length);
    let best = noted(
        best,
        is_changed(base.max_length, own),
        at,
        Code::StRestrictFacets,
    );
    let best = noted(
        best,
        is_under(number(base.max_length), number(own)),
        at,
        Code::MaxLengthValidRestriction,
    );
    let best = noted(
        best,
        is_outside(exact, None, number(own)),
        at,
        Code::LengthMinLengthMaxLength,
    );
    noted(
        best,
        is_under(number(own), least),
        at,
        Code::MinLengthLessThanEqualToMaxLength,
    )
}

fn note_total_digits(base: &FacetList, facets: &[ReadFacet], best: Option<Fault>) -> Option<Fault>
    ensures { result ≡ first_from best (spec.total_digits_rules base.now facets.now) }
{
    let Some(at) = place_of(facets, FacetKind::TotalDigits) else {
        return best;
    };
    let own = count_of(facets, FacetKind::TotalDigits);
    let fraction = in_force(
        first_of(facets, FacetKind::FractionDigits),
        base.fraction_digits,
    );
    let best = noted(
        best,
        is_changed(base.total_digits, own),
        at,
        Code::StRestrictFacets,
    );
    let best = noted(
        best,
        is_under(number(base.total_digits), number(own)),
        at,
        Code::TotalDigitsValidRestriction,
    );
    noted(
        best,
        is_under(number(own), fraction),
        at,
        Code::FractionDigitsTotalDigits,
    )
}

fn note_fraction_digits(
    base: &FacetList,
    facets: &[ReadFacet],
    best: Option<Fault>,
) -> Option<Fault>
    ensures { result ≡ first_from best (spec.fraction_digits_rules base.now facets.now) }
{
    let Some(at) = place_of(facets, FacetKind::FractionDigits) else {
        return best;
    };
    let own = count_of(facets, FacetKind::FractionDigits);
    let total = in_force(first_of(facets, FacetKind::TotalDigits), base.total_digits);
    let best = noted(
        best,
        is_changed(base.fraction_digits, own),
        at,
        Code::StRestrictFacets,
    );
    let best = noted(
        best,
        is_under(number(base.fraction_digits), number(own)),
        at,
        Code::FractionDigitsValidRestriction,
    );
    noted(
        best,
        is_under(total, number(own)),
        at,
        Code::FractionDigitsTotalDigits,
    )
}

// The number of a facet.
fn number(count: Option<Count>) -> Option<u32>
    ensures { result ≡ spec.number count }
{
    match count {
        Some(count) => Some(count.value),
        None => None,
    }
}

// The number in force behind the step, of the step's facet or else of the base's; none where the step's is not read.
fn in_force(own: Option<&ReadFacet>, base: Option<Count>) -> Option<u32>
    ensures { result ≡ spec.in_force (option_copied own.entry) base }
{
    let Some(facet) = own else {
        return number(base);
    };
    match &facet.reading {
        Reading::Count(value) => Some(*value),
        _ => None,
    }
}

// Whether the base's number is fixed, and the step's another.
fn is_changed(base: Option<Count>, own: Option<Count>) -> bool
    ensures { result ≡ spec.is_changed base own }
{
    match (base, own) {
        (Some(base), Some(own)) => base.fixed && own.value != base.value,
        _ => false,
    }
}

// Whether the step's number is another than the base's.
fn is_other(base: Option<Count>, own: Option<Count>) -> bool
    ensures { result ≡ spec.is_other base own }
{
    match (base, own) {
        (Some(base), Some(own)) => own.value != base.value,
        _ => false,
    }
}

// Whether both numbers are there, and the first is less than the second.
fn is_under(a: Option<u32>, b: Option<u32>) -> bool
    ensures { result ≡ spec.is_under a b }
{
    match (a, b) {
        (Some(a), Some(b)) => a < b,
        _ => false,
    }
}

// Whether the exact number is less than the least or greater than the most.
fn is_outside(exact: Option<u32>, least: Option<u32>, most: Option<u32>) -> bool
    ensures { result ≡ spec.is_outside exact least most }
{
    is_under(exact, least) || is_under(most, exact)
}

// Whether the base's handling of white space is fixed, and the step's another.
fn is_other_handling(base: Option<Handling>, own: Option<Handling>) -> bool
    ensures { result ≡ spec.is_other_handling base own }
{
    match (base, own) {
        (Some(base), Some(own)) => base.fixed && !is_same_handling(base.value, own.value),
        _ => false,
    }
}

fn is_same_handling(a: WhiteSpace, b: WhiteSpace) -> bool
    ensures { result ≡ spec.is_same_handling a b }
{
    a == b
}

// Whether the step handles white space by a weaker way than the base.
fn is_weaker(base: Option<Handling>, own: Option<Handling>) -> bool
    ensures { result ≡ spec.is_weaker base own }
{
    match (base, own) {
        (Some(base), Some(own)) => is_weaker_way(own.value, base.value),
        _ => false,
    }
}

fn is_weaker_way(a: WhiteSpace, b: WhiteSpace) -> bool
    ensures { result ≡ spec.is_weaker_way a b }
{
    match (a, b) {
        (WhiteSpace::Preserve, WhiteSpace::Replace) => true,
        (WhiteSpace::Preserve, WhiteSpace::Collapse) => true,
        (WhiteSpace::Replace, WhiteSpace::Collapse) => true,
        _ => false,
    }
}
