ghost use Rattle.std.specs.Prelude.{◌≡◌, ◌<◌, ◌≤◌, ◌^◌, length, take, drop, vec_len, IfOk, IfNone};
ghost use Rattle.component_references.specs.Ranked.{IsRanked};
ghost use Rattle.xs_codes.specs.Least.{IsLeast};
ghost use Rattle.component_references.specs.References as graph;
ghost use Rattle.component_references.specs.References.{IsClosed};
ghost use Rattle.component_references.specs.Circles as spec;
ghost use Rattle.component_references.specs.inside.Parts.{IsOutcome, AreTypesRanked, AreElementsRanked, AreAttrGroupsRanked, AreModelsRanked, AreTypeHeights, AreElementHeights, AreAttrGroupHeights, AreModelHeights, HaveTypeRanks, HaveElementRanks, HaveAttrGroupRanks, HaveModelRanks};

use crate::falling::{Ranking, rank_all_types, rank_parts};
use crate::model_graph::model_references;
use crate::type_graph::{attr_group_references, element_references, type_references};
use crate::writing::{
    write_attr_groups, write_complexes, write_elements, write_groups, write_particles,
    write_simples,
};
use std::alloc::{AllocError, Global};
use xs_codes::{Code, Fault, sooner};
use xs_components::Components;
use xs_lists::Listed;

// The references, where they are few enough to be numbered. Numbers end where memory does.
fn numbered(refs: Vec<Listed<u32>>) -> Result<Vec<Listed<u32>>, AllocError>
    ensures same { IfOk result (λ kept. kept.items ≡ refs.items) }
    ensures few { IfOk result (λ kept. vec_len kept < 2 ^ 32) }
{
    if refs.len() > u32::MAX as usize {
        return Err(AllocError);
    }
    Ok(refs)
}

// The ranks of the first kind.
fn first_ranks(ranks: &[u32], count: usize) -> &[u32]
    requires { count ≤ length ranks.now }
    ensures { result.now ≡ take count ranks.now }
{
    &ranks[..count]
}

// The ranks behind those of the first kind.
fn other_ranks(ranks: &[u32], count: usize) -> &[u32]
    requires { count ≤ length ranks.now }
    ensures { result.now ≡ drop count ranks.now }
{
    &ranks[count..]
}

// Writes ranks of types, or answers the first circle of them.
fn put_types(parts: &mut Components, ranking: &Ranking) -> Option<Fault>
    requires closed { IsClosed parts.old }
    requires outcome { IsOutcome (graph.type_references parts.old) (spec.IsTypeCircle parts.old) ranking.now }
    ensures least { IsLeast (spec.IsTypeCircle parts.old) result }
    ensures ranked { IfNone result (AreTypesRanked parts.new) }
    ensures heights { IfNone result (AreTypeHeights parts.new) }
    ensures tables { HaveTypeRanks parts.old parts.new }
{
    match ranking {
        Ranking::Falling(ranks) => {
            let simples = parts.simples().len();
            let all = ranks.as_slice();
            let front = first_ranks(all, simples);
            let back = other_ranks(all, simples);
            write_simples(parts, front);
            write_complexes(parts, back);
            None
        },
        Ranking::Circular(found) => *found,
    }
}

// Ranks types, or answers the first circle of them.
fn rank_types(alloc: Global, parts: &mut Components) -> Result<Option<Fault>, AllocError>
    requires closed { IsClosed parts.old }
    ensures least { IfOk result (IsLeast (spec.IsTypeCircle parts.old)) }
    ensures ranked { IfOk result (λ found. IfNone found (AreTypesRanked parts.new)) }
    ensures heights { IfOk result (λ found. IfNone found (AreTypeHeights parts.new)) }
    ensures tables { IfOk result (λ found. HaveTypeRanks parts.old parts.new) }
{
    let refs = numbered(type_references(alloc, parts)?)?;
    let ranking = rank_all_types(alloc, parts.simples(), parts.complexes(), refs.as_slice())?;
    Ok(put_types(parts, &ranking))
}

// Writes ranks of elements by their heads, or answers the first circle of them.
fn put_elements(parts: &mut Components, ranking: &Ranking) -> Option<Fault>
    requires closed { IsClosed parts.old }
    requires outcome { IsOutcome (graph.element_references parts.old) (spec.IsElementCircle parts.old) ranking.now }
    ensures least { IsLeast (spec.IsElementCircle parts.old) result }
    ensures ranked { IfNone result (AreElementsRanked parts.new) }
    ensures heights { IfNone result (AreElementHeights parts.new) }
    ensures tables { HaveElementRanks parts.old parts.new }
{
    match ranking {
        Ranking::Falling(ranks) => {
            write_elements(parts, ranks.as_slice());
            None
        },
        Ranking::Circular(found) => *found,
    }
}

// Ranks elements by their heads, or answers the first circle of them.
fn rank_elements(alloc: Global, parts: &mut Components) -> Result<Option<Fault>, AllocError>
    requires closed { IsClosed parts.old }
    ensures least { IfOk result (IsLeast (spec.IsElementCircle parts.old)) }
    ensures ranked { IfOk result (λ found. IfNone found (AreElementsRanked parts.new)) }
    ensures heights { IfOk result (λ found. IfNone found (AreElementHeights parts.new)) }
    ensures tables { IfOk result (λ found. HaveElementRanks parts.old parts.new) }
{
    let refs = numbered(element_references(alloc, parts)?)?;
    let ranking = rank_parts(
        alloc,
        parts.elements(),
        refs.as_slice(),
        Code::EPropsCorrect6,
    )?;
    Ok(put_elements(parts, &ranking))
}

// Writes ranks of attribute groups, or answers the first circle of them.
fn put_attr_groups(parts: &mut Components, ranking: &Ranking) -> Option<Fault>
    requires closed { IsClosed parts.old }
    requires outcome { IsOutcome (graph.attr_group_references parts.old) (spec.IsAttrGroupCircle parts.old) ranking.now }
    ensures least { IsLeast (spec.IsAttrGroupCircle parts.old) result }
    ensures ranked { IfNone result (AreAttrGroupsRanked parts.new) }
    ensures heights { IfNone result (AreAttrGroupHeights parts.new) }
    ensures tables { HaveAttrGroupRanks parts.old parts.new }
{
    match ranking {
        Ranking::Falling(ranks) => {
            write_attr_groups(parts, ranks.as_slice());
            None
        },
        Ranking::Circular(found) => *found,
    }
}

// Ranks attribute groups, or answers the first circle of them.
fn rank_attr_groups(alloc: Global, parts: &mut Components) -> Result<Option<Fault>, AllocError>
    requires closed { IsClosed parts.old }
    ensures least { IfOk result (IsLeast (spec.IsAttrGroupCircle parts.old)) }
    ensures ranked { IfOk result (λ found. IfNone found (AreAttrGroupsRanked parts.new)) }
    ensures heights { IfOk result (λ found. IfNone found (AreAttrGroupHeights parts.new)) }
    ensures tables { IfOk result (λ found. HaveAttrGroupRanks parts.old parts.new) }
{
    let refs = numbered(attr_group_references(alloc, parts)?)?;
    let ranking = rank_parts(
        alloc,
        parts.attr_groups(),
        refs.as_slice(),
        Code::SrcAttributeGroup3,
    )?;
    Ok(put_attr_groups(parts, &ranking))
}

// Writes ranks of groups and particles, or answers the first circle of groups.
fn put_models(parts: &mut Components, ranking: &Ranking) -> Option<Fault>
    requires closed { IsClosed parts.old }
    requires outcome { IsOutcome (graph.model_references parts.old) (spec.IsGroupCircle parts.old) ranking.now }
    ensures least { IsLeast (spec.IsGroupCircle parts.old) result }
    ensures ranked { IfNone result (AreModelsRanked parts.new) }
    ensures heights { IfNone result (AreModelHeights parts.new) }
    ensures tables { HaveModelRanks parts.old parts.new }
{
    match ranking {
        Ranking::Falling(ranks) => {
            let groups = parts.groups().len();
            let all = ranks.as_slice();
            let front = first_ranks(all, groups);
            let back = other_ranks(all, groups);
            write_groups(parts, front);
            write_particles(parts, back);
            None
        },
        Ranking::Circular(found) => *found,
    }
}

// Ranks groups and particles, or answers the first circle of groups.
fn rank_models(alloc: Global, parts: &mut Components) -> Result<Option<Fault>, AllocError>
    requires closed { IsClosed parts.old }
    ensures least { IfOk result (IsLeast (spec.IsGroupCircle parts.old)) }
    ensures ranked { IfOk result (λ found. IfNone found (AreModelsRanked parts.new)) }
    ensures heights { IfOk result (λ found. IfNone found (AreModelHeights parts.new)) }
    ensures tables { IfOk result (λ found. HaveModelRanks parts.old parts.new) }
{
    let refs = numbered(model_references(alloc, parts)?)?;
    let ranking = rank_parts(
        alloc,
        parts.groups(),
        refs.as_slice(),
        Code::MgPropsCorrect2,
    )?;
    Ok(put_models(parts, &ranking))
}

/// Writes the height of each type, element, group, attribute group and particle above those that it refers to, as its rank: so every
/// reference goes to a lower one. Or answers the first circular definition (Structures 3.3.6, 3.4.6, 3.6.3, 3.8.6, 3.14.6), and then the ranks are
/// of no use.
pub fn rank_components(alloc: Global, parts: &mut Components) -> Result<Option<Fault>, AllocError>
    requires closed { IsClosed parts.old }
    ensures least { IfOk result (IsLeast (spec.IsCircular parts.old)) }
    ensures ranked { IfOk result (λ found. IfNone found (IsRanked parts.new)) }
    ensures heights { IfOk result (λ found. IfNone found (spec.HaveHeights parts.new)) }
    ensures tables { IfOk result (λ found. (ranks : spec.Ranks) × (parts.new ≡ spec.with_all_ranks parts.old ranks)) }
{
    let types = rank_types(alloc, parts)?;
    let elements = rank_elements(alloc, parts)?;
    let attr_groups = rank_attr_groups(alloc, parts)?;
    let models = rank_models(alloc, parts)?;
    Ok(sooner(sooner(types, elements), sooner(attr_groups, models)))
}
