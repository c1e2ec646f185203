//! Reading the facets of a step of restriction.
ghost use Rattle.std.specs.Prelude.{◌≡◌, IfOk};
ghost use Rattle.facets.specs.Reading as spec;

use crate::{Facets, Known};
use facet_checks::{Alternatives, Shared, ValueList};
use facet_rules::{FacetRead, ReadFacets, ReadStep, Reading, fits, push_read, read_text};
use std::alloc::{AllocError, Global};
use xs_codes::Code;
use xs_components::{FacetItem, FacetKind};

/// The facets of a step of restriction of this base, read in the scope of each.
pub(crate) fn read_step(
    alloc: Global,
    base: &Facets,
    known: Known,
    items: &[FacetItem],
) -> Result<ReadStep, AllocError>
    ensures { IfOk result (λ step. spec.IsStepReadBy base.now known items.now step) }
{
    let mut step = ReadStep {
        facets: ReadFacets::new(alloc),
        patterns: Alternatives::new(alloc),
        values: ValueList::new(alloc),
    };
    for item in items {
        let read = read_facet(alloc, base, known, item)?;
        push_read(&mut step, item, read)?;
    }
    Ok(step)
}

// One facet, read.
fn read_facet(
    alloc: Global,
    base: &Facets,
    known: Known,
    item: &FacetItem,
) -> Result<FacetRead, AllocError>
    ensures { IfOk result (λ read. spec.IsFacetRead base.now known item.now read) }
{
    if !fits(base.family(), item.kind) {
        return Ok(FacetRead::Plain(Reading::Unfit));
    }
    if is_read_by_base(known, item.kind) {
        read_value(alloc, base, item)
    } else {
        read_text(alloc, base.builtin(), item)
    }
}

// Whether the facet is a value of an enumeration, and the base's literals are defined.
fn is_read_by_base(known: Known, kind: FacetKind) -> bool
    ensures { result ≡ spec.is_read_by_base known kind }
{
    matches!((known, kind), (Known::Whole, FacetKind::Enumeration))
}

// The value of an enumeration, which the base has to accept.
fn read_value(alloc: Global, base: &Facets, item: &FacetItem) -> Result<FacetRead, AllocError>
    ensures { IfOk result (λ read. spec.IsValueRead base.now item.now read) }
{
    match base.read(alloc, item.text.as_str(), &item.scope)? {
        Ok(accepted) => Ok(FacetRead::Value(Shared::new(alloc, accepted.value)?)),
        Err(code) => Ok(FacetRead::Plain(Reading::Refused(value_code(code)))),
    }
}

// The code of a value of an enumeration that its base refuses with a code.
fn value_code(code: Code) -> Code
    ensures { result ≡ spec.value_code code }
{
    match code {
        Code::XLimitValue => Code::XLimitValue,
        _ => Code::EnumerationValidRestriction,
    }
}
