ghost use Rattle.std.specs.Prelude.{◌≡◌, All, IfOk};
ghost use Rattle.xs_components.specs.Tables.{Tables};
ghost use Rattle.component_references.specs.References.{IsClosed};
ghost use Rattle.schema_check.specs.inside.Typed as spec;

use crate::BuiltSet;
use crate::documents::CompiledSet;
use redefine_names::RedefinedGroups;
use simple_types::SimpleTypes;
use std::alloc::{AllocError, Global};
use type_derivation::cycles;
use xs_codes::Fault;
use xs_components::Components;
use xs_names::Names;

// Ranks the components and sets contents, and judges their simple types; or the first fault of circles and bases, else of simple
// types.
fn judge_types(
    alloc: Global,
    parts: &mut Components,
) -> Result<Result<SimpleTypes, Fault>, AllocError>
    requires closed { IsClosed parts.old }
    requires none { All (λ content. content ≡ None) parts.old.contents }
    ensures { IfOk result (spec.IsTyped parts.old parts.new) }
{
    let found = cycles(alloc, parts)?;
    match found {
        Some(fault) => Ok(Err(fault)),
        None => {
            let types = SimpleTypes::build(alloc, parts)?;
            Ok(types)
        },
    }
}

// The set of what was judged, or the fault that was found.
fn judged_set(
    names: Names,
    parts: Components,
    redefined: RedefinedGroups,
    judged: Result<SimpleTypes, Fault>,
) -> Result<CompiledSet, Fault>
    ensures { (old : Tables) → spec.IsTyped old parts judged → spec.ArePartsCompiled names redefined old result }
{
    match judged {
        Ok(types) => Ok(CompiledSet {
            names,
            parts,
            types,
            redefined,
        }),
        Err(fault) => Err(fault),
    }
}

/// The compiled set of these names and components, or the first fault of circles and bases, else of simple types.
pub(crate) fn compile_parts(
    alloc: Global,
    names: Names,
    built: BuiltSet,
) -> Result<Result<CompiledSet, Fault>, AllocError>
    requires closed { IsClosed built.parts }
    requires none { All (λ content. content ≡ None) built.parts.contents }
    ensures { IfOk result (spec.ArePartsCompiled names built.redefined built.parts) }
{
    let BuiltSet {
        mut parts,
        redefined,
    } = built;
    match judge_types(alloc, &mut parts) {
        Ok(judged) => Ok(judged_set(names, parts, redefined, judged)),
        Err(error) => Err(error),
    }
}
