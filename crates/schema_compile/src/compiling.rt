//! Schema documents compiled.

ghost use Rattle.std.specs.Prelude.{◌≡◌, ◌<◌, Ok, All, IfOk, length};
ghost use Rattle.tree_rows.specs.Whole.{IsTree};
ghost use Rattle.schema_compile.specs.Fit.{IsFit};
ghost use Rattle.schema_compile.specs.Outcomes as spec;
ghost use Rattle.schema_compile.specs.inside.Finding as inside;

use crate::Outcome;
use crate::finding::Faultless;
use crate::judging::judge;
use crate::laws::compiled_parts_are_fit;
use attr_assess::KnownUses;
use compiled_schema::Compiled;
use derive_faults::faultless_types_have_uses;
use schema_check::CompiledSet;
use schema_set::SchemaInput;
use std::alloc::{AllocError, Global};
use xs_codes::Fault;

// A set with what was found of it.
fn joined(set: CompiledSet, whole: Faultless, known_uses: KnownUses) -> Compiled
    ensures { result ≡ inside.joined set whole known_uses }
{
    let found = whole.found;
    Compiled {
        names: set.names,
        parts: set.parts,
        types: set.types,
        members: found.members,
        classes: found.classes,
        declarations: found.declarations,
        named: found.named,
        attr_uses: found.attr_uses,
        known_uses,
        contents: found.contents,
        models: whole.models,
        identities: whole.identities,
    }
}

// A set without a fault, with what was found of it.
fn accepted(alloc: Global, mut set: CompiledSet, whole: Faultless) -> Result<Outcome, AllocError>
    requires fit { IsFit set }
    requires judged { inside.IsJudged set (Ok whole) }
    ensures { IfOk result (spec.IsSetOutcome set) }
{
    faultless_types_have_uses();
    let known = KnownUses::of(alloc, &set.parts, &mut set.types)?;
    Ok(Outcome::Accepted(joined(set, whole, known)))
}

// What a set comes to.
fn outcome_of(
    alloc: Global,
    set: CompiledSet,
    judged: Result<Faultless, Fault>,
) -> Result<Outcome, AllocError>
    requires fit { IsFit set }
    requires judged { inside.IsJudged set judged }
    ensures { IfOk result (spec.IsSetOutcome set) }
{
    match judged {
        Ok(whole) => accepted(alloc, set, whole),
        Err(fault) => Ok(Outcome::Broken(fault)),
    }
}

// What a set comes to in the phases behind simple types.
fn complete(alloc: Global, mut set: CompiledSet) -> Result<Outcome, AllocError>
    requires fit { IsFit set }
    ensures { IfOk result (spec.IsSetOutcome set) }
{
    match judge(alloc, &mut set) {
        Ok(judged) => outcome_of(alloc, set, judged),
        Err(error) => Err(error),
    }
}

/// Schema documents compiled, phase by phase: shapes, composition, names, bases, simple types, attributes, derivation, content
/// models, their restriction, identity constraints. The set is what the document of the place `start` leads to. The first fault of the
/// first phase that has one is answered, by document, element and the order of codes.
///
/// # Errors
///
/// `AllocError` is want of memory, or of places: there are 65,535 documents at most, and a set has at most 2 to the power of 32
/// elements.
pub fn compile_from(
    alloc: Global,
    documents: &[SchemaInput],
    start: u32,
) -> Result<Outcome, AllocError>
    requires place { start < length documents.now }
    requires trees { All (λ input. IsTree input.tree) documents.now }
    ensures outcome { IfOk result (spec.IsOutcome documents.now start) }
{
    compiled_parts_are_fit();
    let compiled = schema_check::compile_from(alloc, documents, start)?;
    match compiled {
        Ok(set) => complete(alloc, set),
        Err(fault) => Ok(Outcome::Broken(fault)),
    }
}
