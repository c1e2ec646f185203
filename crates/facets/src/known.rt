//! What is defined of a type, and what judging a step by it comes to.
ghost use Rattle.std.specs.Prelude.{◌≡◌, IfOk, None};
ghost use Rattle.facet_rules.specs.Rules.{judged_of};
ghost use Rattle.facets.specs.Facets as spec;

use crate::Facets;
use facet_checks::FacetList;
use facet_rules::{ReadStep, judge};
use std::alloc::{AllocError, Global};
use xs_codes::Fault;

/// What is defined of a type, where others are at fault. Its built-in type, or that it is a list or a union, always is.
#[derive(Clone, Copy)]
pub enum Known {
    /// The facets in force for it, and what its literals are.
    Whole,
    /// The facets in force for it, and not what its literals are: a type that it is made of is undefined.
    Facets,
    /// Neither: a facet of its steps is left undefined.
    Neither,
}

/// What judging a step comes to.
#[derive(Drop)]
pub struct Judged {
    /// The first fault of the step.
    pub fault: Option<Fault>,
    /// The facets behind the step; `None` where the base's or a facet of the step leave them undefined.
    pub facets: Option<Facets>,
}

/// What judging a step that is read comes to.
pub(crate) fn judged_step(
    alloc: Global,
    base: Facets,
    known: Known,
    step: ReadStep,
) -> Result<Judged, AllocError>
    ensures { IfOk result (λ judged. judged ≡ spec.judged_by base known step) }
{
    match known {
        Known::Neither => judged_alone(alloc, FacetList::new(alloc), step),
        _ => judged_whole(alloc, base, step),
    }
}

// By no facets of a base: the fault alone.
fn judged_alone(alloc: Global, none: FacetList, step: ReadStep) -> Result<Judged, AllocError>
    ensures { IfOk result (λ judged. judged ≡ record { fault = (judged_of none step).fault; facets = None }) }
{
    let by_none = judge(alloc, none, step)?;
    Ok(Judged {
        fault: by_none.fault,
        facets: None,
    })
}

fn judged_whole(alloc: Global, base: Facets, step: ReadStep) -> Result<Judged, AllocError>
    ensures { IfOk result (λ judged. judged ≡ spec.judged_whole base step) }
{
    let Facets { source, list } = base;
    let step_judged = judge(alloc, list, step)?;
    let (fault, made) = (step_judged.fault, step_judged.list);
    match made {
        Some(list) => Ok(Judged {
            fault,
            facets: Some(Facets { source, list }),
        }),
        None => Ok(Judged {
            fault,
            facets: None,
        }),
    }
}
