//! What is broken of content models that have automata.

ghost use Rattle.std.specs.Prelude.{◌≡◌, ◌<◌, ℕ, length, Some, IfOk};
ghost use Rattle.content_models.specs.Built.{IsSource, IsBuilt};
ghost use Rattle.xs_codes.specs.Least.{IsLeast};
ghost use Rattle.schema_models.specs.SetModels.{content_of, AreContentsLimited};
ghost use Rattle.schema_models.specs.inside.Steps.{AreMade, IsMisjudged, IsMisjudgedIn, IsMisjudgedAt};

use crate::judge;
use crate::models::Models;
use crate::places::type_fault;
use content_models::{ContentAutomaton, ModelSource};
use std::alloc::{AllocError, Global};
use xs_codes::{Fault, sooner};
use xs_components::{ComplexId, ParticleId};

// The fault of a complex type with this content and this automaton, if there is one.
fn judge_model(
    alloc: Global,
    source: ModelSource,
    id: ComplexId,
    p: ParticleId,
    automaton: &ContentAutomaton,
) -> Result<Option<Fault>, AllocError>
    requires source { IsSource source.names.now source.parts.now source.members.now source.declarations.now source.inhabited.now }
    requires there { p < length source.parts.now.particles.parts }
    requires known { id < length source.parts.now.complexes.parts }
    requires content { content_of source.parts.now id ≡ Some p }
    requires built { IsBuilt source.names.now source.parts.now source.members.now source.classes.now p automaton.now }
    ensures { IfOk result (IsLeast (IsMisjudgedAt source.entry.names.now source.entry.parts.now source.entry.members.now id)) }
{
    match judge(alloc, source, p, automaton)? {
        Some(kind) => Ok(Some(type_fault(source.parts, id, kind))),
        None => Ok(None),
    }
}

// The fault of a complex type that has an automaton, if there is one.
fn judge_type(
    alloc: Global,
    source: ModelSource,
    id: ComplexId,
    models: &Models,
) -> Result<Option<Fault>, AllocError>
    requires source { IsSource source.names.now source.parts.now source.members.now source.declarations.now source.inhabited.now }
    requires contents { AreContentsLimited source.parts.now }
    requires known { id < length source.parts.now.complexes.parts }
    requires made { AreMade source.names.now source.parts.now source.members.now source.classes.now models.now }
    ensures { IfOk result (IsLeast (IsMisjudgedIn source.entry.names.now source.entry.parts.now source.entry.members.now models.now id)) }
{
    let Some(automaton) = models.automaton(id) else {
        return Ok(None);
    };
    match source.parts.content(id) {
        Some(p) => judge_model(alloc, source, id, p, automaton),
        None => Ok(None),
    }
}

/// The first fault of a complex type that has an automaton: of types that differ, or of ambiguity.
pub(crate) fn judge_all(
    alloc: Global,
    source: ModelSource,
    models: &Models,
) -> Result<Option<Fault>, AllocError>
    requires source { IsSource source.names.now source.parts.now source.members.now source.declarations.now source.inhabited.now }
    requires contents { AreContentsLimited source.parts.now }
    requires made { AreMade source.names.now source.parts.now source.members.now source.classes.now models.now }
    ensures { IfOk result (IsLeast (IsMisjudged source.entry.names.now source.entry.parts.now source.entry.members.now models.now)) }
{
    let mut best = None;
    let mut number = 0;
    while let Some(id) = source.parts.complex_at(number) {
        let found = judge_type(alloc, source, id, models)?;
        best = sooner(best, found);
        number += 1;
    }
    Ok(best)
}
