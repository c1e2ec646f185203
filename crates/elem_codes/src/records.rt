//! [validity] and [validation attempted] of an element (Structures 3.3.5).

ghost use Rattle.std.specs.Prelude.{◌≡◌};
ghost use Rattle.std.specs.List.{list_any, list_all};
ghost use Rattle.assess_records.specs.declared.record.AttrRecord.{AttrRecord};
ghost use Rattle.elem_codes.specs.Records as spec;

use assess_records::{Attempted, AttrRecord, ChildCounts, Codes, Shared, Validity};

fn is_invalid(validity: Validity) -> bool
    ensures { result ≡ spec.is_invalid validity }
{
    match validity {
        Validity::Valid => false,
        Validity::Invalid => true,
        Validity::NotKnown => false,
    }
}

fn is_full(attempted: Attempted) -> bool
    ensures { result ≡ spec.is_full attempted }
{
    match attempted {
        Attempted::Full => true,
        Attempted::Partial => false,
        Attempted::Untried => false,
    }
}

fn is_untried(attempted: Attempted) -> bool
    ensures { result ≡ spec.is_untried attempted }
{
    match attempted {
        Attempted::Full => false,
        Attempted::Partial => false,
        Attempted::Untried => true,
    }
}

fn is_any_invalid(attrs: &[Shared<AttrRecord>]) -> bool
    ensures { result ≡ list_any (λ (a : AttrRecord). spec.is_invalid a.validity) attrs.now }
{
    attrs.iter().any(|a| is_invalid(a.get().validity))
}

/// Whether an attribute or a child element is invalid.
pub(crate) fn any_invalid(attrs: &[Shared<AttrRecord>], counts: &ChildCounts) -> bool
    ensures { result ≡ spec.any_invalid attrs.now counts.now }
{
    let invalid = is_any_invalid(attrs);
    invalid || counts.invalid != 0
}

fn are_full(attrs: &[Shared<AttrRecord>]) -> bool
    ensures { result ≡ list_all (λ (a : AttrRecord). spec.is_full a.attempted) attrs.now }
{
    attrs.iter().all(|a| is_full(a.get().attempted))
}

fn are_untried(attrs: &[Shared<AttrRecord>]) -> bool
    ensures { result ≡ list_all (λ (a : AttrRecord). spec.is_untried a.attempted) attrs.now }
{
    attrs.iter().all(|a| is_untried(a.get().attempted))
}

// Whether all attributes and child elements were assessed in full.
fn all_full(attrs: &[Shared<AttrRecord>], counts: &ChildCounts) -> bool
    ensures { result ≡ spec.all_full attrs.now counts.now }
{
    let full = are_full(attrs);
    full && (counts.partial == 0 && counts.untried == 0)
}

// Whether none of them was assessed at all.
fn all_untried(attrs: &[Shared<AttrRecord>], counts: &ChildCounts) -> bool
    ensures { result ≡ spec.all_untried attrs.now counts.now }
{
    let untried = are_untried(attrs);
    untried && (counts.full == 0 && counts.partial == 0)
}

/// [validity], by the codes, by whether the element is strictly assessed, and by what is below it.
pub(crate) fn validity_of(codes: &Codes, strictly: bool, below: bool) -> Validity
    ensures { result ≡ spec.validity_of codes.now strictly below }
{
    if !codes.is_empty() {
        return Validity::Invalid;
    }
    if !strictly {
        return Validity::NotKnown;
    }
    if below {
        Validity::Invalid
    } else {
        Validity::Valid
    }
}

/// [validation attempted], by whether the element is strictly assessed, and by what is below it.
pub(crate) fn attempted_of(
    strictly: bool,
    attrs: &[Shared<AttrRecord>],
    counts: &ChildCounts,
) -> Attempted
    ensures { result ≡ spec.attempted_of strictly attrs.now counts.now }
{
    if strictly {
        if all_full(attrs, counts) {
            Attempted::Full
        } else {
            Attempted::Partial
        }
    } else if all_untried(attrs, counts) {
        Attempted::Untried
    } else {
        Attempted::Partial
    }
}
