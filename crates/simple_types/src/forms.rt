//! A simple type, judged by those that it is made of.
ghost use Rattle.std.specs.Prelude.{◌≡◌, IfOk, unwrap_or};
ghost use Rattle.facets.specs.Making as making;
ghost use Rattle.facets.specs.Source.{list_of};
ghost use Rattle.facets.specs.declared.known.Known.TheVariants as knowns;
ghost use Rattle.simple_types.specs.SimpleValidity as validity;
ghost use Rattle.simple_types.specs.Lookup.{looked_up as spec_looked_up};
ghost use Rattle.simple_types.specs.Forms as spec;

use crate::lookup::looked_up;
use crate::rules::{note_base, note_item, note_members};
use crate::{JudgedType, TypeFacets};
use facets::{Facets, Judged, Known, Members};
use std::alloc::{AllocError, Global};
use xs_codes::{Builtin, Fault};
use xs_components::{Components, FacetStep, Place, SimpleForm, SimpleType, TypeId};

/// What judging a simple type comes to, by the table of those that it is made of.
pub(crate) fn judged_part(
    alloc: Global,
    parts: &Components,
    table: &[JudgedType],
    part: &SimpleType,
) -> Result<JudgedType, AllocError>
    ensures { IfOk result (λ judged. spec.IsFormMade parts.now (spec_looked_up table.now) part.now.at part.now.form judged) }
{
    match &part.form {
        SimpleForm::Restrict { base, step } => {
            judged_restriction(alloc, parts, table, part.at, base, step)
        }
        SimpleForm::ListOf { item } => judged_list(alloc, parts, table, part.at, item),
        SimpleForm::UnionOf { members } => {
            judged_union(alloc, parts, table, part.at, members.as_slice())
        }
    }
}

fn judged_restriction(
    alloc: Global,
    parts: &Components,
    table: &[JudgedType],
    at: Place,
    base: &TypeId,
    step: &FacetStep,
) -> Result<JudgedType, AllocError>
    ensures { IfOk result (λ judged. spec.IsRestrictionMade parts.now (spec_looked_up table.now) at base.now step.now judged) }
{
    let behind = looked_up(alloc, table, base)?;
    let JudgedType { of, fault } = judged_step(alloc, behind, step)?;
    Ok(JudgedType {
        of,
        fault: note_base(parts, at, base, fault),
    })
}

/// What a step of restriction comes to, behind what is in force for the base.
pub(crate) fn judged_step(
    alloc: Global,
    behind: TypeFacets,
    step: &FacetStep,
) -> Result<JudgedType, AllocError>
    ensures { IfOk result (λ judged. spec.IsStepMade behind step.now judged) }
{
    let Judged { fault, facets } = Facets::judge(alloc, &behind.facets, behind.known, step)?;
    Ok(JudgedType {
        of: left_behind(behind, facets),
        fault,
    })
}

// What a step leaves in force.
fn left_behind(mut behind: TypeFacets, made: Option<Facets>) -> TypeFacets
    ensures { result ≡ spec.left_behind behind made }
{
    match made {
        Some(facets) => behind.facets = facets,
        None => behind.known = Known::Neither,
    }
    behind
}

fn judged_list(
    alloc: Global,
    parts: &Components,
    table: &[JudgedType],
    at: Place,
    item: &TypeId,
) -> Result<JudgedType, AllocError>
    ensures { IfOk result (λ judged. judged ≡ spec.list_made parts.now (spec_looked_up table.now) at item.now) }
{
    let of = looked_up(alloc, table, item)?;
    judged_list_of(alloc, parts, at, item, &of)
}

// A list of items for which this is in force.
fn judged_list_of(
    alloc: Global,
    parts: &Components,
    at: Place,
    item: &TypeId,
    of: &TypeFacets,
) -> Result<JudgedType, AllocError>
    ensures { IfOk result (λ judged. judged ≡ spec.list_by parts.now at item.now of.now) }
{
    match Facets::list_of(alloc, &of.facets)? {
        Some(facets) => Ok(JudgedType {
            of: TypeFacets {
                facets,
                known: made_from(of.known),
            },
            fault: note_item(parts, at, item, true),
        }),
        None => Ok(JudgedType {
            of: unread_list(alloc)?,
            fault: note_item(parts, at, item, false),
        }),
    }
}

// A list whose items cannot be listed.
fn unread_list(alloc: Global) -> Result<TypeFacets, AllocError>
    ensures { IfOk result (λ of. of ≡ record { facets = validity.list_of_any; known = knowns.Facets }) }
{
    Ok(TypeFacets {
        facets: list_of_any(alloc)?,
        known: Known::Facets,
    })
}

// The facets of a list, whatever its items are.
fn list_of_any(alloc: Global) -> Result<Facets, AllocError>
    ensures { IfOk result (λ facets. facets ≡ validity.list_of_any) }
{
    let any = Facets::of_builtin(alloc, Builtin::AnySimpleType);
    list_or_item(alloc, &any)
}

// The list of items of a type, else that type.
fn list_or_item(alloc: Global, item: &Facets) -> Result<Facets, AllocError>
    ensures { IfOk result (λ facets. facets ≡ unwrap_or (list_of item.now) item.now) }
{
    match Facets::list_of(alloc, item)? {
        Some(facets) => Ok(facets),
        None => item.try_clone(alloc),
    }
}

// What is known of a type that is made from another.
fn made_from(known: Known) -> Known
    ensures { result ≡ validity.made_from known }
{
    match known {
        Known::Whole => Known::Whole,
        _ => Known::Facets,
    }
}

// What is known of a type that is made from others.
fn made_from_both(one: Known, other: Known) -> Known
    ensures { result ≡ validity.made_from_both one other }
{
    match one {
        Known::Whole => made_from(other),
        _ => Known::Facets,
    }
}

fn judged_union(
    alloc: Global,
    parts: &Components,
    table: &[JudgedType],
    at: Place,
    members: &[TypeId],
) -> Result<JudgedType, AllocError>
    ensures { IfOk result (λ judged. judged ≡ spec.union_made parts.now (spec_looked_up table.now) at members.now) }
{
    Ok(JudgedType {
        of: union_facets(alloc, table, members)?,
        fault: note_members(parts, at, members),
    })
}

// What is in force for a union of these members.
fn union_facets(
    alloc: Global,
    table: &[JudgedType],
    members: &[TypeId],
) -> Result<TypeFacets, AllocError>
    ensures { IfOk result (λ of. of ≡ spec.union_facets (spec_looked_up table.now) members.now) }
{
    let mut union = UnionParts {
        all: Members::new(alloc),
        known: Known::Whole,
    };
    for member in members {
        union = with_member(alloc, table, union, member)?;
    }
    Ok(TypeFacets {
        facets: Facets::union_of(alloc, union.all)?,
        known: union.known,
    })
}

// The members of a union so far, and what is known of it.
#[derive(Drop)]
struct UnionParts {
    all: Members,
    known: Known,
}

// A union with one member more.
fn with_member(
    alloc: Global,
    table: &[JudgedType],
    union: UnionParts,
    member: &TypeId,
) -> Result<UnionParts, AllocError>
    ensures all { IfOk result (λ made. made.all ≡ making.with_member union.all (spec_looked_up table.now member.now).facets) }
    ensures known { IfOk result (λ made. made.known ≡ validity.made_from_both union.known (spec_looked_up table.now member.now).known) }
{
    let of = looked_up(alloc, table, member)?;
    with_facets(alloc, union, &of)
}

fn with_facets(alloc: Global, union: UnionParts, of: &TypeFacets) -> Result<UnionParts, AllocError>
    ensures all { IfOk result (λ made. made.all ≡ making.with_member union.all of.now.facets) }
    ensures known { IfOk result (λ made. made.known ≡ validity.made_from_both union.known of.now.known) }
{
    let known = made_from_both(union.known, of.known);
    Ok(UnionParts {
        all: union.all.with(alloc, &of.facets)?,
        known,
    })
}
