ghost use Rattle.std.specs.Prelude.{◌<◌, length, IfOk, IfErr, IfSome, MatchOption};
ghost use Rattle.content_models.specs.Built.{IsSource, IsLimited, IsBuilt, HasRoom, IsRefused};
ghost use Rattle.particle_forms.specs.Models.{model_of};
ghost use Rattle.schema_models.specs.Consistency.{IsConsistent};
ghost use Rattle.schema_models.specs.Checks.{IsChecked, IsFirstFault, IsJudged};
ghost use Rattle.schema_models.specs.inside.Found.{IsFaultOf};

use crate::{ModelFault, consistent};
use content_models::{ContentAutomaton, ModelError, ModelSource};
use std::alloc::{AllocError, Global};
use xs_components::ParticleId;

// What is broken where a content model has no automaton.
fn fault_of(error: ModelError) -> ModelFault
    ensures { IsFaultOf error result }
{
    match error {
        ModelError::TooManyPositions => ModelFault::TooManyPositions,
        ModelError::TooManyStates => ModelFault::TooManyStates,
        ModelError::TableTooLarge => ModelFault::TableTooLarge,
    }
}

/// What is broken of a content model that has this automaton (Structures 3.8.6): terms of one name with different types, else
/// words with the same names that end at different places.
///
/// # Errors
///
/// `AllocError` is want of memory.
pub fn judge(
    alloc: Global,
    source: ModelSource,
    p: ParticleId,
    automaton: &ContentAutomaton,
) -> Result<Option<ModelFault>, AllocError>
    requires source { IsSource source.names.now source.parts.now source.members.now source.declarations.now source.inhabited.now }
    requires there { p < length source.parts.now.particles.parts }
    requires built { IsBuilt source.names.now source.parts.now source.members.now source.classes.now p automaton.now }
    ensures judged { IfOk result (IsJudged source.entry.names.now source.entry.parts.now source.entry.members.now p) }
{
    if !consistent(alloc, source.parts, source.members, source.declarations, p)? {
        return Ok(Some(ModelFault::Inconsistent));
    }
    match automaton.ambiguous() {
        Some(_) => Ok(Some(ModelFault::Ambiguous)),
        None => Ok(None),
    }
}

/// The automaton of the content model of a particle, or what is broken of it first (Structures 3.8.6). Its states times its
/// symbols may be at most `cells_left`. Where an `all` stands in the model, the model is that `all`, with at most 64 members
/// that come at most once each.
///
/// # Errors
///
/// `AllocError` is want of memory.
pub fn check(
    alloc: Global,
    source: ModelSource,
    p: ParticleId,
    cells_left: u32,
) -> Result<Result<ContentAutomaton, ModelFault>, AllocError>
    requires source { IsSource source.names.now source.parts.now source.members.now source.declarations.now source.inhabited.now }
    requires there { p < length source.parts.now.particles.parts }
    requires limited { IsLimited (model_of source.parts.now p) }
    ensures checked { IfOk result (λ answer. IfOk answer (IsChecked source.entry.names.now source.entry.parts.now source.entry.members.now source.entry.classes.now p cells_left)) }
    ensures refused { IfOk result (λ answer. IfErr answer (IsFirstFault source.entry.names.now source.entry.parts.now source.entry.members.now source.entry.classes.now p cells_left)) }
{
    match ContentAutomaton::build(alloc, source, p, cells_left)? {
        Err(error) => Ok(Err(fault_of(error))),
        Ok(automaton) => match judge(alloc, source, p, &automaton)? {
            Some(fault) => Ok(Err(fault)),
            None => Ok(Ok(automaton)),
        },
    }
}
