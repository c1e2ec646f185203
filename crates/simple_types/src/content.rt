//! The simple content of complex types, judged in the order of their ranks.
ghost use Rattle.std.specs.Prelude.{◌≡◌, ◌<◌, true, false, length, IfOk, OnOk};
ghost use Rattle.component_references.specs.Order.{IsOrder};
ghost use Rattle.component_references.specs.Ranked.{IsRanked};
ghost use Rattle.simple_types.specs.Forms.{IsContentMade};
ghost use Rattle.simple_types.specs.Forms as forms;
ghost use Rattle.simple_types.specs.Judging as spec;
ghost use Rattle.simple_types.specs.Lookup as look;

use crate::filling::{put_at, unknown_types};
use crate::forms::judged_step;
use crate::lookup::{entry_at, looked_up};
use crate::{JudgedType, TypeFacets};
use component_references::order_of;
use std::alloc::{AllocError, Global};
use xs_components::{ComplexType, Components, ContentForm, TypeId};

/// What is in force for a simple type, or for the content of a complex one.
pub(crate) fn content_of(
    alloc: Global,
    simples: &[JudgedType],
    complexes: &[JudgedType],
    of: &TypeId,
) -> Result<TypeFacets, AllocError>
    ensures { IfOk result (λ found. found ≡ look.content_of simples.now complexes.now of.now) }
{
    match of {
        TypeId::Complex(id) => entry_at(alloc, complexes, id.number()),
        _ => looked_up(alloc, simples, of),
    }
}

/// The contents of the complex types of a set, judged.
pub(crate) fn judged_contents(
    alloc: Global,
    parts: &Components,
    simples: &[JudgedType],
) -> Result<Vec<JudgedType>, AllocError>
    requires ranked { IsRanked parts.now }
    requires simples { spec.AreSimplesJudged parts.now simples.now }
    ensures { IfOk result (λ table. spec.AreContentsJudged parts.now simples.now table.items) }
{
    let order = order_of(alloc, parts.complex_ranks())?;
    let mut table = unknown_types(alloc, parts.complex_ranks().len())?;
    fill_contents(
        alloc,
        parts,
        simples,
        order.as_slice(),
        table.as_mut_slice(),
    )?;
    Ok(table)
}

// Judges each content, that of the base before it.
fn fill_contents(
    alloc: Global,
    parts: &Components,
    simples: &[JudgedType],
    order: &[u32],
    table: &mut [JudgedType],
) -> Result<(), AllocError>
    requires ranked { IsRanked parts.now }
    requires simples { spec.AreSimplesJudged parts.now simples.now }
    requires order { IsOrder (length parts.now.complexes.parts) parts.now.complexes.ranks order.now }
    requires alike { length table.old ≡ length parts.now.complexes.parts }
    ensures { OnOk result (spec.AreContentsJudged parts.now simples.now table.new) }
{
    for x in order {
        let judged = judged_content(alloc, parts, simples, table, *x)?;
        put_at(table, *x, judged);
    }
    Ok(())
}

// The content of the complex type of a number, judged.
fn judged_content(
    alloc: Global,
    parts: &Components,
    simples: &[JudgedType],
    table: &[JudgedType],
    number: u32,
) -> Result<JudgedType, AllocError>
    requires there { number < length parts.now.complexes.parts }
    ensures { IfOk result (λ judged. spec.IsContentAt parts.now simples.now table.now number judged) }
{
    match parts.complex_at(number) {
        Some(id) => content_by(alloc, simples, table, parts.complex(id)),
        None => Err(AllocError),
    }
}

fn content_by(
    alloc: Global,
    simples: &[JudgedType],
    table: &[JudgedType],
    part: &ComplexType,
) -> Result<JudgedType, AllocError>
    ensures { IfOk result (λ judged. IsContentMade (look.looked_up simples.now) (look.content_of simples.now table.now) part.now.by_extension part.now.base part.now.content judged) }
{
    if part.by_extension {
        extended(alloc, simples, table, &part.base, &part.content)
    } else {
        restricted(alloc, simples, table, &part.base, &part.content)
    }
}

// An extension has the content of its base, unless it has a particle of its own.
fn extended(
    alloc: Global,
    simples: &[JudgedType],
    table: &[JudgedType],
    base: &TypeId,
    content: &ContentForm,
) -> Result<JudgedType, AllocError>
    ensures { IfOk result (λ judged. IsContentMade (look.looked_up simples.now) (look.content_of simples.now table.now) true base.now content.now judged) }
{
    match content {
        ContentForm::Simple { .. } => base_content(alloc, simples, table, base),
        ContentForm::Complex {
            effective: None,
            ..
        } => base_content(alloc, simples, table, base),
        ContentForm::Complex {
            effective: Some(_),
            ..
        } => Ok(no_content(alloc)),
    }
}

// A restriction of simple content, by facets.
fn restricted(
    alloc: Global,
    simples: &[JudgedType],
    table: &[JudgedType],
    base: &TypeId,
    content: &ContentForm,
) -> Result<JudgedType, AllocError>
    ensures { IfOk result (λ judged. IsContentMade (look.looked_up simples.now) (look.content_of simples.now table.now) false base.now content.now judged) }
{
    match content {
        ContentForm::Simple { own, step } => {
            let behind = content_behind(alloc, simples, table, own, base)?;
            judged_step(alloc, behind, step)
        }
        ContentForm::Complex { .. } => Ok(no_content(alloc)),
    }
}

// No simple content.
fn no_content(alloc: Global) -> JudgedType
    ensures { result ≡ forms.without_fault look.unknown }
{
    JudgedType {
        of: TypeFacets::unknown(alloc),
        fault: None,
    }
}

// The content of the base, as it is.
fn base_content(
    alloc: Global,
    simples: &[JudgedType],
    table: &[JudgedType],
    base: &TypeId,
) -> Result<JudgedType, AllocError>
    ensures { IfOk result (λ judged. judged ≡ forms.without_fault (look.content_of simples.now table.now base.now)) }
{
    Ok(JudgedType {
        of: content_of(alloc, simples, table, base)?,
        fault: None,
    })
}

// What a restriction of simple content restricts.
fn content_behind(
    alloc: Global,
    simples: &[JudgedType],
    table: &[JudgedType],
    own: &Option<TypeId>,
    base: &TypeId,
) -> Result<TypeFacets, AllocError>
    ensures { IfOk result (λ behind. behind ≡ forms.restricted (look.looked_up simples.now) (look.content_of simples.now table.now) own.now base.now) }
{
    match own {
        Some(own) => looked_up(alloc, simples, own),
        None => content_of(alloc, simples, table, base),
    }
}
