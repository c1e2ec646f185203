ghost use Rattle.std.specs.Prelude.{◌≡◌, ◌<◌, List, length, IfOk};
ghost use Rattle.xs_codes.specs.Least.{IsLeast};
ghost use Rattle.schema_set.specs.EffectiveSet.{IsEffectiveSet};
ghost use Rattle.schema_set.specs.Composition.{Broken as IsCompositionFault};
ghost use Rattle.schema_check.specs.SetPhases.{IsSetCompiled};
ghost use Rattle.schema_check.specs.Compilation as spec;
ghost use Rattle.schema_check.specs.inside.Typed as inside;

use crate::build;
use crate::documents::CompiledSet;
use crate::types::compile_parts;
use build_components::tables_are_closed;
use redefine_faults::first_redefine_fault;
use redefine_originals::set_originals;
use schema_set::{
    Available, ClosedSet, EffectiveSet, SchemaInput, close_set_from, first_shape_fault,
    read_documents,
};
use std::alloc::{AllocError, Global};
use xs_codes::{Fault, sooner};
use xs_names::Names;

// The documents of a set compiled, or their first fault.
fn compile_set(
    alloc: Global,
    set: &EffectiveSet<'_>,
    originals: &[Option<u32>],
) -> Result<Result<CompiledSet, Fault>, AllocError>
    ensures { IfOk result (IsSetCompiled set.now.documents originals.now) }
{
    tables_are_closed();
    let mut names = Names::new(alloc)?;
    let built = build(alloc, &mut names, set, originals)?;
    match built {
        Ok(whole) => compile_parts(alloc, names, whole),
        Err(fault) => Ok(Err(fault)),
    }
}

// A set that breaks no constraint of the phases on its documents.
fn compile_composed(
    alloc: Global,
    available: &[Available],
    set: &EffectiveSet<'_>,
) -> Result<Result<CompiledSet, Fault>, AllocError>
    requires some { 0 < length available.now }
    ensures { IfOk result (λ answer. inside.IsComposedCompiled available.now set.now.documents answer) }
{
    let originals = set_originals(alloc, available, set.documents.as_slice())?;
    compile_set(alloc, set, originals.as_slice())
}

// The first fault of how the documents of a set are composed that starts at a place.
fn composition_fault<'a>(
    alloc: Global,
    available: &'a [Available],
    start: u32,
    closed: &ClosedSet<'a>,
) -> Result<Option<Fault>, AllocError>
    requires place { start < length available.now }
    requires set { IsEffectiveSet available.now start closed.now.set.documents }
    requires least { IsLeast (IsCompositionFault available.now start) closed.now.fault }
    ensures { IfOk result (inside.IsComposed available.now start) }
{
    let found = first_redefine_fault(alloc, available, closed.set.documents.as_slice())?;
    Ok(sooner(closed.fault, found))
}

// A set whose documents are of the right shape.
fn compile_closed<'a>(
    alloc: Global,
    available: &'a [Available],
    start: u32,
    closed: &ClosedSet<'a>,
) -> Result<Result<CompiledSet, Fault>, AllocError>
    requires place { start < length available.now }
    requires set { IsEffectiveSet available.now start closed.now.set.documents }
    requires least { IsLeast (IsCompositionFault available.now start) closed.now.fault }
    ensures { IfOk result (inside.IsClosedCompiled available.now start closed.now.set.documents) }
{
    let found = composition_fault(alloc, available, start, closed)?;
    match found {
        Some(fault) => Ok(Err(fault)),
        None => compile_composed(alloc, available, &closed.set),
    }
}

/// The schema set of documents compiled: phase by phase, shapes, composition, names, bases, simple types. The set is what the
/// document of the place `start` leads to. The first fault of the first phase that has one is answered, by document, element and the order of
/// codes.
///
/// # Errors
///
/// `AllocError` is want of memory, or of places: there are 65,535 documents at most, and a set has at most 2 to the power of 32
/// elements.
pub fn compile_from(
    alloc: Global,
    documents: &[SchemaInput],
    start: u32,
) -> Result<Result<CompiledSet, Fault>, AllocError>
    requires place { start < length documents.now }
    ensures { IfOk result (spec.IsCompilation documents.now start) }
{
    let read = read_documents(alloc, documents)?;
    let available = read.available.as_slice();
    let closed = close_set_from(alloc, available, start)?;
    let faults = read.faults.as_slice();
    let set = closed.set.documents.as_slice();
    match first_shape_fault(faults, set) {
        Some(fault) => Ok(Err(fault)),
        None => compile_closed(alloc, available, start, &closed),
    }
}
