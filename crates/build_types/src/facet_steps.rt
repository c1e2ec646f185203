ghost use Rattle.std.specs.Prelude.{◌≡◌, ◌++◌, slice_get, IfOk, OnOk};
ghost use Rattle.std.specs.Option.{option_copied};
ghost use Rattle.build_types.specs.SimpleTypes as spec;

use representations::{Representation, Represented, Source};
use std::alloc::{AllocError, Global};
use xs_components::{FacetItem, FacetStep};
use xs_lists::Listed;
use xs_names::Scope;

/// The scope at a place, a copy.
///
/// # Errors
///
/// `AllocError` is want of memory, here and below.
pub fn scope_at(alloc: Global, scopes: &[Scope], place: u32) -> Result<Scope, AllocError>
    ensures scope { IfOk result (λ scope. scope ≡ spec.scope_at scopes.now place) }
{
    match scopes.get(place as usize) {
        None => Scope::new(alloc),
        Some(scope) => scope.try_clone(),
    }
}

/// The representation at a place.
pub fn rep_at(reps: &[Representation], place: u32) -> Option<&Representation>
    ensures rep { option_copied result ≡ slice_get reps.now place }
{
    reps.get(place as usize)
}

// Puts the facet that is represented, if one is, behind the others.
fn push_facet(
    alloc: Global,
    source: &Source,
    rep: &Representation,
    step: &mut FacetStep,
) -> Result<(), AllocError>
    ensures { OnOk result (step.new ≡ step.old ++ spec.facets_of source.now rep.now) }
{
    match &rep.form {
        Represented::Facet { kind, text, fixed } => step.push(FacetItem {
            kind: *kind,
            text: text.try_clone()?,
            fixed: *fixed,
            at: rep.at,
            scope: scope_at(alloc, source.scopes, rep.scope)?,
        }),
        _ => Ok(()),
    }
}

// Puts the facet at a place, if one stands there, behind the others.
fn push_facet_at(
    alloc: Global,
    source: &Source,
    place: u32,
    step: &mut FacetStep,
) -> Result<(), AllocError>
    ensures { OnOk result (step.new ≡ step.old ++ spec.facets_at source.now place) }
{
    match rep_at(source.reps, place) {
        None => Ok(()),
        Some(rep) => push_facet(alloc, source, rep, step),
    }
}

/// The facets among members, in order.
pub fn facets(alloc: Global, source: &Source, members: &[u32]) -> Result<FacetStep, AllocError>
    ensures facets { IfOk result (λ step. step ≡ spec.facets source.now members.now) }
{
    let mut step = Listed::new(alloc);
    for member in members {
        push_facet_at(alloc, source, *member, &mut step)?;
    }
    Ok(step)
}
