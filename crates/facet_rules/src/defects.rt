//! The facets of a step that do not fit, stand twice or are not read.
ghost use Rattle.std.specs.Prelude.{◌≡◌, List};
ghost use Rattle.facet_rules.specs.First.{first_from};
ghost use Rattle.facet_rules.specs.declared.step.ReadFacet.{ReadFacet};
ghost use Rattle.facet_rules.specs.inside.Firsts as inside;
ghost use Rattle.facet_rules.specs.Defects as spec;

use crate::first::{fault_at, sooner};
use crate::step::first_place;
use crate::{ReadFacet, Reading};
use xs_codes::{Code, Fault};
use xs_components::FacetKind;

// The index of the first facet of each kind of which a step has at most one.
#[derive(Clone, Copy)]
struct Firsts {
    length: Option<usize>,
    min_length: Option<usize>,
    max_length: Option<usize>,
    white_space: Option<usize>,
    max_inclusive: Option<usize>,
    max_exclusive: Option<usize>,
    min_exclusive: Option<usize>,
    min_inclusive: Option<usize>,
    total_digits: Option<usize>,
    fraction_digits: Option<usize>,
}

fn firsts_of(facets: &[ReadFacet]) -> Firsts
    ensures { result ≡ inside.firsts_of facets.now }
{
    Firsts {
        length: first_place(facets, FacetKind::Length),
        min_length: first_place(facets, FacetKind::MinLength),
        max_length: first_place(facets, FacetKind::MaxLength),
        white_space: first_place(facets, FacetKind::WhiteSpace),
        max_inclusive: first_place(facets, FacetKind::MaxInclusive),
        max_exclusive: first_place(facets, FacetKind::MaxExclusive),
        min_exclusive: first_place(facets, FacetKind::MinExclusive),
        min_inclusive: first_place(facets, FacetKind::MinInclusive),
        total_digits: first_place(facets, FacetKind::TotalDigits),
        fraction_digits: first_place(facets, FacetKind::FractionDigits),
    }
}

// The index of the first facet of the kind, where a step has at most one.
fn first_index(firsts: &Firsts, kind: FacetKind) -> Option<usize>
    ensures { (facets : List ReadFacet) → firsts.now ≡ inside.firsts_of facets → result ≡ spec.single_place kind facets }
{
    match kind {
        FacetKind::Pattern => None,
        FacetKind::Enumeration => None,
        FacetKind::Length => firsts.length,
        FacetKind::MinLength => firsts.min_length,
        FacetKind::MaxLength => firsts.max_length,
        FacetKind::WhiteSpace => firsts.white_space,
        FacetKind::MaxInclusive => firsts.max_inclusive,
        FacetKind::MaxExclusive => firsts.max_exclusive,
        FacetKind::MinExclusive => firsts.min_exclusive,
        FacetKind::MinInclusive => firsts.min_inclusive,
        FacetKind::TotalDigits => firsts.total_digits,
        FacetKind::FractionDigits => firsts.fraction_digits,
    }
}

// Whether the facet at an index stands behind another of its kind, of which a step has at most one.
fn is_later(firsts: &Firsts, kind: FacetKind, index: usize) -> bool
    ensures { (facets : List ReadFacet) → firsts.now ≡ inside.firsts_of facets → result ≡ spec.is_later kind index facets }
{
    match first_index(firsts, kind) {
        Some(first) => first < index,
        None => false,
    }
}

// The code of the facet at an index that does not fit, stands twice or is not read.
fn defect_of(firsts: &Firsts, facet: &ReadFacet, index: usize) -> Option<Code>
    ensures { (facets : List ReadFacet) → firsts.now ≡ inside.firsts_of facets → result ≡ spec.defect_of facet.now index facets }
{
    match &facet.reading {
        Reading::Unfit => Some(Code::CosApplicableFacets),
        _ if is_later(firsts, facet.kind, index) => Some(Code::SrcSingleFacetValue),
        Reading::Refused(code) => Some(*code),
        _ => None,
    }
}

/// Notes the facets that do not fit, stand twice or are not read.
pub(crate) fn note_defects(facets: &[ReadFacet], best: Option<Fault>) -> Option<Fault>
    ensures { result ≡ first_from best (spec.defect_rules facets.now 0 facets.now) }
{
    let firsts = firsts_of(facets);
    let mut best = best;
    for index in 0..facets.len() {
        let facet = &facets[index];
        if let Some(code) = defect_of(&firsts, facet, index) {
            best = sooner(best, fault_at(facet.at, code));
        }
    }
    best
}

// Whether the text of a facet is left unread.
fn is_unread(reading: &Reading) -> bool
    ensures { result ≡ spec.is_unread reading.now }
{
    matches!(reading, Reading::Unread)
}

/// Whether no facet of a step leaves what is in force behind it undefined.
pub(crate) fn is_defined(facets: &[ReadFacet]) -> bool
    ensures { result ≡ spec.are_defined facets.now 0 facets.now }
{
    let firsts = firsts_of(facets);
    for index in 0..facets.len() {
        let facet = &facets[index];
        if defect_of(&firsts, facet, index).is_some() || is_unread(&facet.reading) {
            return false;
        }
    }
    true
}
