//! The facets of one step of restriction, their texts read.
ghost use Rattle.std.specs.Prelude.{◌≡◌};
ghost use Rattle.std.specs.Option.{option_copied};
ghost use Rattle.facet_rules.specs.Step as spec;

use facet_checks::{Alternatives, Count, Handling, ValueList};
use simple_values::Value;
use xs_codes::Code;
use xs_components::{FacetKind, Place};
use xs_lists::Listed;
use xs_names::WhiteSpace;

/// What came of reading a facet.
#[derive(Drop)]
pub enum Reading {
    /// The facet does not fit the base: `cos-applicable-facets`.
    Unfit,
    /// Its text is refused, with this code.
    Refused(Code),
    /// It is a value of an enumeration that is left unread, since what the literals of the base are is undefined.
    Unread,
    /// It is a pattern, or a value of an enumeration, and stands in the step's lists of these.
    Listed,
    /// The number of a length or of digits.
    Count(u32),
    /// What is done with white space.
    Handling(WhiteSpace),
    /// The value of a bound.
    Limit(Value),
}

/// A facet, read.
#[derive(Drop)]
pub struct ReadFacet {
    pub kind: FacetKind,
    pub fixed: bool,
    /// Where the facet's element stands.
    pub at: Place,
    pub reading: Reading,
}

/// Facets that are read, in the order of the document.
pub type ReadFacets = Listed<ReadFacet>;

/// The facets of one step of restriction, in the order of the document, and those of its patterns and of its enumeration
/// that are read.
#[derive(Drop)]
pub struct ReadStep {
    pub facets: ReadFacets,
    pub patterns: Alternatives,
    pub values: ValueList,
}

// Whether two kinds are one.
fn same_kind(a: FacetKind, b: FacetKind) -> bool
    ensures { result ≡ spec.same_kind a b }
{
    a == b
}

/// The index of the first facet of a kind.
pub(crate) fn first_place(facets: &[ReadFacet], kind: FacetKind) -> Option<usize>
    ensures { result ≡ spec.first_place kind 0 facets.now }
{
    for place in 0..facets.len() {
        if same_kind(facets[place].kind, kind) {
            return Some(place);
        }
    }
    None
}

/// The first facet of a kind.
pub(crate) fn first_of(facets: &[ReadFacet], kind: FacetKind) -> Option<&ReadFacet>
    ensures { option_copied result ≡ spec.first_of kind facets.now }
{
    for facet in facets {
        if same_kind(facet.kind, kind) {
            return Some(facet);
        }
    }
    None
}

/// Where the first facet of a kind stands, if there is one and it fits the base.
pub(crate) fn place_of(facets: &[ReadFacet], kind: FacetKind) -> Option<Place>
    ensures { result ≡ spec.place_of kind facets.now }
{
    let facet = first_of(facets, kind)?;
    match &facet.reading {
        Reading::Unfit => None,
        _ => Some(facet.at),
    }
}

/// The number of the first facet of a kind, if it is read, and whether it is fixed.
pub(crate) fn count_of(facets: &[ReadFacet], kind: FacetKind) -> Option<Count>
    ensures { result ≡ spec.count_of kind facets.now }
{
    let facet = first_of(facets, kind)?;
    match &facet.reading {
        Reading::Count(value) => Some(Count {
            value: *value,
            fixed: facet.fixed,
        }),
        _ => None,
    }
}

/// The value of the first facet of a kind, a bound, if it is read.
pub(crate) fn limit_of(facets: &[ReadFacet], kind: FacetKind) -> Option<&Value>
    ensures { option_copied result ≡ spec.limit_of kind facets.now }
{
    let facet = first_of(facets, kind)?;
    match &facet.reading {
        Reading::Limit(value) => Some(value),
        _ => None,
    }
}

/// What the step does with white space, if it says so, and whether that is fixed.
pub(crate) fn handling_of(facets: &[ReadFacet]) -> Option<Handling>
    ensures { result ≡ spec.handling_of facets.now }
{
    let facet = first_of(facets, FacetKind::WhiteSpace)?;
    match &facet.reading {
        Reading::Handling(value) => Some(Handling {
            value: *value,
            fixed: facet.fixed,
        }),
        _ => None,
    }
}
