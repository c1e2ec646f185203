//! A set judged: what is found of it with the automata of its content models and the paths of its identity constraints, or its
//! first fault.

ghost use Rattle.std.specs.Prelude.{◌≡◌, IfOk, None, Ok};
ghost use Rattle.schema_models.specs.SetModels.{AreContentsLimited};
ghost use Rattle.schema_check.specs.Phases.{IsFirstOfPhases};
ghost use Rattle.schema_compile.specs.Fit.{IsFit};
ghost use Rattle.schema_compile.specs.Outcomes as phases;
ghost use Rattle.schema_compile.specs.inside.Finding as spec;

use crate::faults::first_fault;
use crate::finding::{Faultless, Found, contents_are_there, find};
use content_models::ModelSource;
use derive_models::{ModelSet, first_model_fault};
use particle_forms::Inhabited;
use schema_check::CompiledSet;
use schema_models::{Models, build_models};
use std::alloc::{AllocError, Global};
use xpath_subset::read_identities;
use xs_codes::Fault;

// The automata of content models, or the first fault of phase 8.
fn find_models(
    alloc: Global,
    set: &CompiledSet,
    found: &Found,
) -> Result<Result<Models, Fault>, AllocError>
    requires fit { IsFit set.now }
    requires found { spec.IsFound set.now.parts found.now }
    requires limited { AreContentsLimited set.now.parts }
    ensures models { IfOk result (spec.AreModelsOf set.now found.now) }
{
    let inhabited = Inhabited::of(alloc, &set.parts, &found.members)?;
    build_models(
        alloc,
        ModelSource {
            names: &set.names,
            parts: &set.parts,
            members: &found.members,
            declarations: &found.declarations,
            inhabited: &inhabited,
            classes: &found.classes,
        },
    )
}

// The first fault of phase 9.
fn restriction_fault(
    alloc: Global,
    set: &mut CompiledSet,
    found: &Found,
) -> Result<Option<Fault>, AllocError>
    requires fit { IsFit set.old }
    requires found { spec.IsFound set.old.parts found.now }
    ensures first { IfOk result (phases.restriction_phase set.old) }
    ensures same { set.new ≡ set.old }
{
    let compared = ModelSet {
        names: &set.names,
        parts: &set.parts,
        members: &found.members,
        declarations: &found.declarations,
        contents: &found.contents,
    };
    first_model_fault(alloc, &compared, &set.redefined.groups, &mut set.types)
}

// What was found, with these automata of content models, and the paths of identity constraints; or the first fault of phase 10.
fn with_identities(
    alloc: Global,
    set: &CompiledSet,
    found: Found,
    models: Models,
) -> Result<Result<Faultless, Fault>, AllocError>
    requires found { spec.IsFound set.now.parts found }
    requires there { spec.AreContentsThere set.now.parts }
    requires none { IsFirstOfPhases (spec.early_phases set.now) None }
    requires models { spec.AreModelsOf set.now found (Ok models) }
    requires restricted { phases.restriction_phase set.now None }
    ensures judged { IfOk result (spec.IsJudged set.now) }
{
    match read_identities(alloc, &set.parts)? {
        Ok(identities) => Ok(Ok(Faultless {
            found,
            models,
            identities,
        })),
        Err(fault) => Ok(Err(fault)),
    }
}

// What was found, with these automata of content models, and the paths of identity constraints; or the first fault of phases 9
// and 10.
fn with_restrictions(
    alloc: Global,
    set: &mut CompiledSet,
    found: Found,
    models: Models,
) -> Result<Result<Faultless, Fault>, AllocError>
    requires fit { IsFit set.old }
    requires found { spec.IsFound set.old.parts found }
    requires there { spec.AreContentsThere set.old.parts }
    requires none { IsFirstOfPhases (spec.early_phases set.old) None }
    requires models { spec.AreModelsOf set.old found (Ok models) }
    ensures judged { IfOk result (spec.IsJudged set.old) }
    ensures same { set.new ≡ set.old }
{
    match restriction_fault(alloc, set, &found)? {
        Some(fault) => Ok(Err(fault)),
        None => with_identities(alloc, set, found, models),
    }
}

// What was found, the automata of content models, and the paths of identity constraints; or the first fault of phases 8 to 10.
fn with_models(
    alloc: Global,
    set: &mut CompiledSet,
    found: Found,
) -> Result<Result<Faultless, Fault>, AllocError>
    requires fit { IsFit set.old }
    requires found { spec.IsFound set.old.parts found }
    requires there { spec.AreContentsThere set.old.parts }
    requires limited { AreContentsLimited set.old.parts }
    requires none { IsFirstOfPhases (spec.early_phases set.old) None }
    ensures judged { IfOk result (spec.IsJudged set.old) }
    ensures same { set.new ≡ set.old }
{
    match find_models(alloc, set, &found)? {
        Ok(models) => with_restrictions(alloc, set, found, models),
        Err(fault) => Ok(Err(fault)),
    }
}

// What is found of a set, the automata of its content models, and the paths of its identity constraints; or the first fault of
// phases 6 to 10.
fn judge_found(
    alloc: Global,
    set: &mut CompiledSet,
    found: Found,
) -> Result<Result<Faultless, Fault>, AllocError>
    requires fit { IsFit set.old }
    requires found { spec.IsFound set.old.parts found }
    requires there { spec.AreContentsThere set.old.parts }
    ensures judged { IfOk result (spec.IsJudged set.old) }
    ensures same { set.new ≡ set.old }
{
    match first_fault(alloc, set, &found)? {
        Some(fault) => Ok(Err(fault)),
        None => with_models(alloc, set, found),
    }
}

/// What is found of a set, the automata of its content models, and the paths of its identity constraints; or the first fault of
/// phases 6 to 10.
pub(crate) fn judge(
    alloc: Global,
    set: &mut CompiledSet,
) -> Result<Result<Faultless, Fault>, AllocError>
    requires fit { IsFit set.old }
    ensures judged { IfOk result (spec.IsJudged set.old) }
    ensures same { set.new ≡ set.old }
{
    contents_are_there(set);
    let found = find(alloc, set)?;
    judge_found(alloc, set, found)
}
