//! Automata one after another, as far as there are cells for them.

ghost use Rattle.std.specs.Prelude.{◌≡◌, ◌<◌, ℕ, length, Some, IfOk, IfSome, OnOk};
ghost use Rattle.content_models.specs.Built.{IsSource, IsLimited};
ghost use Rattle.particle_forms.specs.Models.{model_of};
ghost use Rattle.xs_codes.specs.Least.{IsLeast};
ghost use Rattle.schema_models.specs.SetModels.{AreContentsLimited};
ghost use Rattle.schema_models.specs.inside.Steps.{AreNone, IsFilled, IsNext, IsVisit, IsKindOf};

use crate::ModelFault;
use crate::models::Models;
use crate::order::in_order;
use crate::places::{is_elsewhere, type_fault};
use content_models::{ContentAutomaton, ModelError, ModelSource};
use std::alloc::{AllocError, Global};
use xs_codes::{Fault, sooner};
use xs_components::{ComplexId, ParticleId};

// The cells that the tables of a schema set may have together.
const MOST_CELLS: u32 = 1 << 24;

/// How many cells are left, and the first limit that was passed.
#[derive(Clone, Copy)]
pub(crate) struct Progress {
    pub(crate) cells_left: u32,
    pub(crate) first: Option<Fault>,
}

// The limit that a content model without an automaton passes.
fn kind_of(error: ModelError) -> ModelFault
    ensures { IsKindOf error result }
{
    match error {
        ModelError::TooManyPositions => ModelFault::TooManyPositions,
        ModelError::TooManyStates => ModelFault::TooManyStates,
        ModelError::TableTooLarge => ModelFault::TableTooLarge,
    }
}

// Builds the automaton of a complex type with this content.
fn build_next(
    alloc: Global,
    source: ModelSource,
    id: ComplexId,
    p: ParticleId,
    models: &mut Models,
    progress: &mut Progress,
) -> Result<(), AllocError>
    requires source { IsSource source.names.now source.parts.now source.members.now source.declarations.now source.inhabited.now }
    requires there { p < length source.parts.now.particles.parts }
    requires limited { IsLimited (model_of source.parts.now p) }
    requires known { id < length source.parts.now.complexes.parts }
    requires each { id < length models.old }
    ensures { OnOk result (IsNext source.entry.names.now source.entry.parts.now source.entry.members.now source.entry.classes.now id p models.old progress.old models.new progress.new) }
{
    match ContentAutomaton::build(alloc, source, p, progress.cells_left)? {
        Ok(automaton) => {
            progress.cells_left -= automaton.cells();
            models.put(id, automaton);
        }
        Err(error) => {
            let fault = type_fault(source.parts, id, kind_of(error));
            progress.first = sooner(progress.first, Some(fault));
        }
    }
    Ok(())
}

// Builds the automaton of a complex type, unless a limit was passed at a place before.
fn visit(
    alloc: Global,
    source: ModelSource,
    id: ComplexId,
    models: &mut Models,
    progress: &mut Progress,
) -> Result<(), AllocError>
    requires source { IsSource source.names.now source.parts.now source.members.now source.declarations.now source.inhabited.now }
    requires contents { AreContentsLimited source.parts.now }
    requires known { id < length source.parts.now.complexes.parts }
    requires each { id < length models.old }
    ensures { OnOk result (IsVisit source.entry.names.now source.entry.parts.now source.entry.members.now source.entry.classes.now id models.old progress.old models.new progress.new) }
{
    if is_elsewhere(progress.first, source.parts.complex(id).at) {
        return Ok(());
    }
    match source.parts.content(id) {
        Some(p) => build_next(alloc, source, id, p, models, progress),
        None => Ok(()),
    }
}

/// Builds the automata of all complex types in the order of their representations, and answers the first limit that one passes.
pub(crate) fn fill(
    alloc: Global,
    source: ModelSource,
    models: &mut Models,
) -> Result<Option<Fault>, AllocError>
    requires source { IsSource source.names.now source.parts.now source.members.now source.declarations.now source.inhabited.now }
    requires contents { AreContentsLimited source.parts.now }
    requires none { AreNone models.old }
    requires each { length models.old ≡ length source.parts.now.complexes.parts }
    ensures { IfOk result (IsFilled source.entry.names.now source.entry.parts.now source.entry.members.now source.entry.classes.now models.new) }
{
    let order = in_order(alloc, source.parts)?;
    let mut progress = Progress {
        cells_left: MOST_CELLS,
        first: None,
    };
    for id in &order {
        visit(alloc, source, *id, models, &mut progress)?;
    }
    Ok(progress.first)
}
