//! A facet that is read, and the step behind it.
ghost use Rattle.std.specs.Prelude.{◌≡◌, OnOk};
ghost use Rattle.facet_rules.specs.Read.{with_read};

use crate::{ReadFacet, ReadStep, Reading};
use facet_checks::{PatternText, Shared};
use simple_values::Value;
use std::alloc::AllocError;
use xs_components::FacetItem;

/// A facet that is read.
#[derive(Drop)]
pub enum FacetRead {
    /// Neither a pattern nor a value of an enumeration, or not read.
    Plain(Reading),
    Pattern(PatternText),
    Value(Shared<Value>),
}

/// Puts a facet behind those that are read.
pub fn push_read(step: &mut ReadStep, item: &FacetItem, read: FacetRead) -> Result<(), AllocError>
    ensures { OnOk result (step.new ≡ with_read step.old item.now read) }
{
    let reading = match read {
        FacetRead::Plain(reading) => reading,
        FacetRead::Pattern(pattern) => {
            step.patterns.push(pattern)?;
            Reading::Listed
        }
        FacetRead::Value(value) => {
            step.values.push(value)?;
            Reading::Listed
        }
    };
    step.facets.push(ReadFacet {
        kind: item.kind,
        fixed: item.fixed,
        at: item.at,
        reading,
    })?;
    Ok(())
}
