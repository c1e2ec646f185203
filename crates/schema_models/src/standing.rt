//! Which particles stand in a schema set.

ghost use Rattle.std.specs.Prelude.{◌≡◌, ◌<◌, ◌↔◌, ℕ, true, false, Some, All, Contains, length, IfOk};
ghost use Rattle.component_references.specs.Ranked.{IsRanked};
ghost use Rattle.particle_forms.specs.Models.{group_particle};
ghost use Rattle.schema_models.specs.SetModels.{content_of};
ghost use Rattle.schema_models.specs.AllLimits.{AreContentsThere};
ghost use Rattle.schema_models.specs.inside.Marks.{marked, IsRoot, AreStanding, IsByRank, IsLooked, IsMarkedMore};

use crate::finding::held;
use crate::limit_order::by_rank;
use std::alloc::{AllocError, Global};
use xs_components::{Components, ParticleId};

// Marks these particles.
fn mark(ids: &[ParticleId], marks: &mut [bool])
    requires there { All (λ id. id < length marks.old) ids.now }
    ensures { IsMarkedMore (Contains ids.now) marks.old marks.new }
{
    for id in ids {
        marks[id.number() as usize] = true;
    }
}

// Marks a particle, if there is one.
fn mark_some(id: Option<ParticleId>, marks: &mut [bool])
    requires there { (k : ℕ) → id ≡ Some k → k < length marks.old }
    ensures { IsMarkedMore (λ k. id ≡ Some k) marks.old marks.new }
{
    match id {
        Some(id) => {
            marks[id.number() as usize] = true;
        }
        None => {}
    }
}

// Marks the particles of the contents of complex types.
fn mark_contents(parts: &Components, marks: &mut [bool])
    requires contents { AreContentsThere parts.now }
    requires each { length marks.old ≡ length parts.now.particles.parts }
    ensures { IsMarkedMore (λ k. (type : ℕ) × (content_of parts.now type ≡ Some k)) marks.old marks.new }
{
    for content in parts.contents() {
        mark_some(*content, marks);
    }
}

// Marks the particles of group definitions.
fn mark_groups(parts: &Components, marks: &mut [bool])
    requires ranked { IsRanked parts.now }
    requires each { length marks.old ≡ length parts.now.particles.parts }
    ensures { IsMarkedMore (λ k. (g : ℕ) × (group_particle parts.now g ≡ Some k)) marks.old marks.new }
{
    for group in parts.groups() {
        mark_some(group.particle, marks);
    }
}

// Marks the members of a particle that is marked.
fn mark_members(parts: &Components, p: ParticleId, marks: &mut [bool])
    requires ranked { IsRanked parts.now }
    requires each { length marks.old ≡ length parts.now.particles.parts }
    requires there { p < length parts.now.particles.parts }
    ensures { IsLooked parts.now p marks.old marks.new }
{
    if marks[p.number() as usize] {
        mark(held(&parts.particle(p).term), marks);
    }
}

// Marks the members of each marked particle, those of higher rank first.
fn mark_all(parts: &Components, mut order: Vec<ParticleId>, marks: &mut [bool])
    requires ranked { IsRanked parts.now }
    requires each { length marks.old ≡ length parts.now.particles.parts }
    requires order { IsByRank parts.now order.items }
    requires roots { (k : ℕ) → (marked marks.old k ≡ true) ↔ IsRoot parts.now k }
    ensures { AreStanding parts.now marks.new }
{
    while let Some(p) = order.pop() {
        mark_members(parts, p, marks);
    }
}

// Marks the particles that stand in the schema set.
fn mark_from(parts: &Components, order: Vec<ParticleId>, marks: &mut [bool])
    requires ranked { IsRanked parts.now }
    requires contents { AreContentsThere parts.now }
    requires each { length marks.old ≡ length parts.now.particles.parts }
    requires none { (k : ℕ) → marked marks.old k ≡ false }
    requires order { IsByRank parts.now order.items }
    ensures { AreStanding parts.now marks.new }
{
    mark_contents(parts, marks);
    mark_groups(parts, marks);
    mark_all(parts, order, marks);
}

/// For each particle whether it stands in the schema set.
pub(crate) fn standing(alloc: Global, parts: &Components) -> Result<Vec<bool>, AllocError>
    requires ranked { IsRanked parts.now }
    requires contents { AreContentsThere parts.now }
    ensures { IfOk result (λ marks. AreStanding parts.now marks.items) }
{
    let order = by_rank(alloc, parts)?;
    let mut marks = Vec::from_elem(alloc, false, parts.particles().len())?;
    mark_from(parts, order, marks.as_mut_slice());
    Ok(marks)
}
