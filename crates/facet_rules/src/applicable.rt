//! Which facets fit which types.
ghost use Rattle.std.specs.Prelude.{◌≡◌};
ghost use Rattle.facet_rules.specs.Applicable as spec;

use simple_values::primitive_of;
use xs_codes::Builtin;
use xs_components::FacetKind;

/// Types that the same facets fit (Datatypes 4.1.5).
#[derive(Clone, Copy)]
pub enum Family {
    /// `anySimpleType`, which no facet fits.
    Open,
    /// Strings, binary values, URIs and names; and lists.
    Measured,
    /// `boolean`
    Truths,
    /// Dates, times and durations.
    Moments,
    /// Numbers.
    Numbers,
    /// Unions.
    Unions,
}

/// The family of an atomic type, by the primitive type that it is derived from; that of a list type.
pub fn family_of(kind: Builtin) -> Family
    ensures { result ≡ spec.family_of kind }
{
    match kind {
        Builtin::NmTokens => Family::Measured,
        Builtin::IdRefs => Family::Measured,
        _ => family_by(primitive_of(kind)),
    }
}

fn family_by(primitive: Option<Builtin>) -> Family
    ensures { result ≡ spec.family_by primitive }
{
    let Some(primitive) = primitive else {
        return Family::Open;
    };
    match primitive {
        Builtin::String => Family::Measured,
        Builtin::HexBinary => Family::Measured,
        Builtin::Base64Binary => Family::Measured,
        Builtin::AnyUri => Family::Measured,
        Builtin::QName => Family::Measured,
        Builtin::Boolean => Family::Truths,
        Builtin::Decimal => Family::Numbers,
        _ => Family::Moments,
    }
}

/// Whether a facet fits the types of a family.
pub fn fits(family: Family, kind: FacetKind) -> bool
    ensures { result ≡ spec.fits family kind }
{
    match family {
        Family::Open => false,
        Family::Measured => is_measure(kind) || is_listed(kind) || kind_is_white_space(kind),
        Family::Truths => is_pattern(kind) || kind_is_white_space(kind),
        Family::Moments => is_listed(kind) || kind_is_white_space(kind) || is_bound(kind),
        Family::Numbers => {
            is_listed(kind) || kind_is_white_space(kind) || is_bound(kind) || is_digits(kind)
        }
        Family::Unions => is_listed(kind),
    }
}

fn is_pattern(kind: FacetKind) -> bool
    ensures { result ≡ spec.is_pattern kind }
{
    matches!(kind, FacetKind::Pattern)
}

fn kind_is_white_space(kind: FacetKind) -> bool
    ensures { result ≡ spec.is_white_space kind }
{
    matches!(kind, FacetKind::WhiteSpace)
}

fn is_listed(kind: FacetKind) -> bool
    ensures { result ≡ spec.is_listed kind }
{
    matches!(kind, FacetKind::Pattern | FacetKind::Enumeration)
}

fn is_measure(kind: FacetKind) -> bool
    ensures { result ≡ spec.is_measure kind }
{
    matches!(
        kind,
        FacetKind::Length | FacetKind::MinLength | FacetKind::MaxLength
    )
}

fn is_bound(kind: FacetKind) -> bool
    ensures { result ≡ spec.is_bound kind }
{
    matches!(
        kind,
        FacetKind::MaxInclusive
            | FacetKind::MaxExclusive
            | FacetKind::MinExclusive
            | FacetKind::MinInclusive
    )
}

fn is_digits(kind: FacetKind) -> bool
    ensures { result ≡ spec.is_digits kind }
{
    matches!(kind, FacetKind::TotalDigits | FacetKind::FractionDigits)
}
