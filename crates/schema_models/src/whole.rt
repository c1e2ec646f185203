//! The automata of a schema set.

ghost use Rattle.std.specs.Prelude.{◌≡◌, Some, None, length, IfOk, IfErr};
ghost use Rattle.content_models.specs.Built.{IsSource};
ghost use Rattle.xs_codes.specs.Least.{IsLeast};
ghost use Rattle.schema_models.specs.SetModels.{AreContentsLimited, AreModels, IsBroken};
ghost use Rattle.schema_models.specs.inside.Steps.{AreNone, AreModelsIfNone};

use crate::filling::fill;
use crate::judging::judge_all;
use crate::models::Models;
use content_models::ModelSource;
use std::alloc::{AllocError, Global};
use xs_codes::{Fault, sooner};

// Builds all automata, and answers the first fault of a content model.
fn build_and_judge(
    alloc: Global,
    source: ModelSource,
    models: &mut Models,
) -> Result<Option<Fault>, AllocError>
    requires source { IsSource source.names.now source.parts.now source.members.now source.declarations.now source.inhabited.now }
    requires contents { AreContentsLimited source.parts.now }
    requires none { AreNone models.old }
    requires each { length models.old ≡ length source.parts.now.complexes.parts }
    ensures least { IfOk result (IsLeast (IsBroken source.entry.names.now source.entry.parts.now source.entry.members.now source.entry.classes.now)) }
    ensures models { IfOk result (AreModelsIfNone source.entry.names.now source.entry.parts.now source.entry.members.now source.entry.classes.now models.new) }
{
    let limit = fill(alloc, source, models)?;
    let broken = judge_all(alloc, source, models)?;
    Ok(sooner(limit, broken))
}

/// The automata of the content models of all complex types of a schema set (Structures 3.4.2, 3.8.4). Where an `all` stands in a
/// content model, the model is that `all`, with at most 64 members that come at most once each.
///
/// # Errors
///
/// The first fault of a content model (Structures 3.8.6), by document, item and the order of the codes: too many positions, too
/// many states, too many cells in all tables together, element terms of one name with different types, and words with the same
/// names that end at different places. `AllocError` is want of memory.
pub fn build_models(alloc: Global, source: ModelSource) -> Result<Result<Models, Fault>, AllocError>
    requires source { IsSource source.names.now source.parts.now source.members.now source.declarations.now source.inhabited.now }
    requires contents { AreContentsLimited source.parts.now }
    ensures models { IfOk result (λ answer. IfOk answer (AreModels source.entry.names.now source.entry.parts.now source.entry.members.now source.entry.classes.now)) }
    ensures none { IfOk result (λ answer. IfOk answer (λ models. IsLeast (IsBroken source.entry.names.now source.entry.parts.now source.entry.members.now source.entry.classes.now) None)) }
    ensures fault { IfOk result (λ answer. IfErr answer (λ fault. IsLeast (IsBroken source.entry.names.now source.entry.parts.now source.entry.members.now source.entry.classes.now) (Some fault))) }
{
    let mut models = Models::none_yet(alloc, source.parts)?;
    match build_and_judge(alloc, source, &mut models)? {
        Some(fault) => Ok(Err(fault)),
        None => Ok(Ok(models)),
    }
}
