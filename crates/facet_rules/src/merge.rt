//! What is in force behind a step of restriction.
ghost use Rattle.std.specs.Prelude.{◌≡◌, IfOk, OnOk};
ghost use Rattle.facet_rules.specs.First.{first_fault};
ghost use Rattle.facet_rules.specs.Rules.{step_rules, outcome_of, judged_of};
ghost use Rattle.facet_rules.specs.Merge as spec;

use crate::bound_rules::note_bounds;
use crate::count_rules::note_counts;
use crate::defects::{is_defined, note_defects};
use crate::step::{count_of, first_of, handling_of, limit_of};
use crate::{ReadFacet, ReadStep};
use facet_checks::{Alternatives, Bound, Count, FacetList, Handling, Shared, ValueList, ValueSet};
use std::alloc::{AllocError, Global};
use xs_codes::Fault;
use xs_components::FacetKind;

/// The facets in force behind a step of restriction: those of the step, and of the base's those that the step has not. The
/// patterns of the step are added to those of the base; its bound of a side replaces both of the base's; its enumeration
/// replaces the base's (Datatypes 4.3; Structures 3.14.6).
///
/// # Errors
///
/// The first fault of the step, by the places of its facets and then by the order of the codes.
pub fn restricted(
    alloc: Global,
    base: FacetList,
    step: ReadStep,
) -> Result<Result<FacetList, Fault>, AllocError>
    ensures { IfOk result (λ outcome. outcome ≡ outcome_of base step) }
{
    match first_of_faults(&base, step.facets.as_slice()) {
        Some(fault) => Ok(Err(fault)),
        None => Ok(Ok(merged(alloc, base, step)?)),
    }
}

/// What judging a step comes to, also where it is at fault: other types may be derived from the one that it makes.
#[derive(Drop)]
pub struct Judged {
    /// The first fault of the step.
    pub fault: Option<Fault>,
    /// What is in force behind it; `None` where that is left undefined by a facet that does not fit, stands twice or is not
    /// read.
    pub list: Option<FacetList>,
}

/// The first fault of a step, and the facets in force behind it.
pub fn judge(alloc: Global, base: FacetList, step: ReadStep) -> Result<Judged, AllocError>
    ensures { IfOk result (λ judged. judged ≡ judged_of base step) }
{
    let fault = first_of_faults(&base, step.facets.as_slice());
    if !is_defined(step.facets.as_slice()) {
        return Ok(Judged { fault, list: None });
    }
    Ok(Judged {
        fault,
        list: Some(merged(alloc, base, step)?),
    })
}

// The first fault of a step.
#[tactic(auto, using(crate::proofs::FirstLaws::first_from_append))]
fn first_of_faults(base: &FacetList, facets: &[ReadFacet]) -> Option<Fault>
    ensures { result ≡ first_fault (step_rules base.now facets.now) }
{
    let best = note_defects(facets, None);
    let best = note_counts(base, facets, best);
    note_bounds(base, facets, best)
}

// What the step and its base make.
fn merged(alloc: Global, mut base: FacetList, step: ReadStep) -> Result<FacetList, AllocError>
    ensures { IfOk result (λ made. made ≡ spec.merged base step) }
{
    let ReadStep {
        facets,
        patterns,
        values,
    } = step;
    put_step(alloc, &mut base, facets.as_slice(), patterns, values)?;
    Ok(base)
}

// Puts a step behind its base, which is the base no longer. In place, since a list of facets that is moved field by field
// takes long to prove.
fn put_step(
    alloc: Global,
    base: &mut FacetList,
    facets: &[ReadFacet],
    patterns: Alternatives,
    values: ValueList,
) -> Result<(), AllocError>
    ensures { OnOk result (base.new ≡ spec.with_patterns (spec.with_values (spec.with_lower (spec.with_upper (spec.with_counts base.old facets.now) facets.now) facets.now) values) patterns) }
{
    put_counts(base, facets);
    put_upper(base, facets)?;
    put_lower(base, facets)?;
    put_values(alloc, base, values)?;
    put_patterns(alloc, base, patterns)
}

fn put_counts(base: &mut FacetList, facets: &[ReadFacet])
    ensures { base.new ≡ spec.with_counts base.old facets.now }
{
    base.white_space = handling_behind(base.white_space, handling_of(facets));
    base.length = count_behind(base.length, count_of(facets, FacetKind::Length));
    base.min_length = count_behind(base.min_length, count_of(facets, FacetKind::MinLength));
    base.max_length = count_behind(base.max_length, count_of(facets, FacetKind::MaxLength));
    base.total_digits = count_behind(base.total_digits, count_of(facets, FacetKind::TotalDigits));
    base.fraction_digits = count_behind(
        base.fraction_digits,
        count_of(facets, FacetKind::FractionDigits),
    );
}

// A bound of the step replaces both bounds of its side.
fn put_upper(base: &mut FacetList, facets: &[ReadFacet]) -> Result<(), AllocError>
    ensures { OnOk result (base.new ≡ spec.with_upper base.old facets.now) }
{
    if has_upper(facets) {
        base.max_inclusive = own_bound(facets, FacetKind::MaxInclusive)?;
        base.max_exclusive = own_bound(facets, FacetKind::MaxExclusive)?;
    }
    Ok(())
}

fn put_lower(base: &mut FacetList, facets: &[ReadFacet]) -> Result<(), AllocError>
    ensures { OnOk result (base.new ≡ spec.with_lower base.old facets.now) }
{
    if has_lower(facets) {
        base.min_inclusive = own_bound(facets, FacetKind::MinInclusive)?;
        base.min_exclusive = own_bound(facets, FacetKind::MinExclusive)?;
    }
    Ok(())
}

// The step's enumeration, if it has one, in place of the base's.
fn put_values(alloc: Global, base: &mut FacetList, own: ValueList) -> Result<(), AllocError>
    ensures { OnOk result (base.new ≡ spec.with_values base.old own) }
{
    if !own.is_empty() {
        base.enumeration = Some(Shared::new(alloc, ValueSet::new(alloc, own)?)?);
    }
    Ok(())
}

// The step's patterns, if it has some, behind the base's.
fn put_patterns(alloc: Global, base: &mut FacetList, own: Alternatives) -> Result<(), AllocError>
    ensures { OnOk result (base.new ≡ spec.with_patterns base.old own) }
{
    if !own.is_empty() {
        base.patterns.push(Shared::new(alloc, own)?)?;
    }
    Ok(())
}

// The step's, else the base's.
fn count_behind(base: Option<Count>, own: Option<Count>) -> Option<Count>
    ensures { result ≡ spec.behind base own }
{
    match own {
        Some(own) => Some(own),
        None => base,
    }
}

// The step's, else the base's.
fn handling_behind(base: Option<Handling>, own: Option<Handling>) -> Option<Handling>
    ensures { result ≡ spec.behind base own }
{
    match own {
        Some(own) => Some(own),
        None => base,
    }
}

// Whether the step has a bound of a kind.
fn has_bound(facets: &[ReadFacet], kind: FacetKind) -> bool
    ensures { result ≡ spec.has_bound kind facets.now }
{
    match limit_of(facets, kind) {
        Some(_) => true,
        None => false,
    }
}

// Whether the step has an upper bound.
fn has_upper(facets: &[ReadFacet]) -> bool
    ensures { result ≡ spec.has_upper facets.now }
{
    has_bound(facets, FacetKind::MaxInclusive) || has_bound(facets, FacetKind::MaxExclusive)
}

// Whether the step has a lower bound.
fn has_lower(facets: &[ReadFacet]) -> bool
    ensures { result ≡ spec.has_lower facets.now }
{
    has_bound(facets, FacetKind::MinInclusive) || has_bound(facets, FacetKind::MinExclusive)
}

// The bound that the step has of a kind, if it has one.
fn own_bound(facets: &[ReadFacet], kind: FacetKind) -> Result<Option<Bound>, AllocError>
    ensures { IfOk result (λ bound. bound ≡ spec.own_bound kind facets.now) }
{
    let (Some(value), Some(facet)) = (limit_of(facets, kind), first_of(facets, kind)) else {
        return Ok(None);
    };
    Ok(Some(Bound {
        value: value.clone()?,
        fixed: facet.fixed,
    }))
}
