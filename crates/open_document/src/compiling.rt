//! Schema documents compiled, for a workspace.

ghost use Rattle.std.specs.Prelude.{◌≡◌, ◌<◌, ℕ, List, All, length, IfOk, OnOk};
ghost use Rattle.tree_rows.specs.Whole.{IsTree};
ghost use Rattle.schema_compile.specs.Outcomes.{IsOutcome};
ghost use Rattle.schema_set.specs.declared.inputs.SchemaInput.{SchemaInput as SchemaInputData};
ghost use Rattle.xs_names.specs.Names.{IsSound};
ghost use Rattle.compiled_schema.specs.Usable.{IsUsable, set_of};
ghost use Rattle.kept_next.specs.Spaces.{HasSpacesNamed};
ghost use Rattle.told.specs.Outcomes.{told_of};
ghost use Rattle.open_document.specs.Answers as answers;
ghost use Rattle.open_document.specs.Held.{work_of, IsKept};
ghost use Rattle.open_document.specs.State.{ready, with_documents};

use crate::SetVerdict;
use crate::held::{Held, make_ready};
use compiled_schema::Compiled;
use schema_compile::{Outcome, compile_from};
use schema_set::SchemaInput;
use std::alloc::{AllocError, Global};
use told::wildcards_name_spaces_of_their_table;
use xs_names::NsId;

// The trees of schema documents are whole: a law.
fn are_whole(documents: &[SchemaInput])
    ensures { All (λ input. IsTree input.tree) documents.now }
{
    for input in documents {
        let _next = input.tree.next_free();
    }
}

// Keeps a set that is accepted, with the documents that it was compiled of.
fn accept(
    held: &mut Held,
    alloc: Global,
    set: Compiled,
    documents: Vec<SchemaInput>,
) -> Result<SetVerdict, AllocError>
    requires usable { IsUsable set }
    requires spaced { IsSound set.names → HasSpacesNamed (set_of set) }
    requires kept { IsKept held.old }
    ensures told { IfOk result (λ told. told ≡ SetVerdict.Accepted) }
    ensures ready { OnOk result (work_of held.new ≡ ready (with_documents documents.items (set_of set))) }
    ensures kept { IsKept held.new }
{
    // Who reads a table of names is told that it is sound.
    let _sound = set.names.lookup(NsId::ABSENT, "");
    match make_ready(held, alloc, set, documents) {
        Ok(()) => Ok(SetVerdict::Accepted),
        Err(error) => Err(error),
    }
}

// Keeps what schema documents come to.
fn take(
    held: &mut Held,
    alloc: Global,
    outcome: Outcome,
    documents: Vec<SchemaInput>,
) -> Result<SetVerdict, AllocError>
    requires usable { (all : List SchemaInputData) × (start : ℕ) × IsOutcome all start outcome }
    requires kept { IsKept held.old }
    ensures told { IfOk result (λ told. told ≡ answers.verdict_of (told_of outcome)) }
    ensures work { OnOk result (work_of held.new ≡ answers.work_after (work_of held.old) documents.items (told_of outcome)) }
    ensures kept { IsKept held.new }
{
    wildcards_name_spaces_of_their_table();
    match outcome {
        Outcome::Accepted(set) => accept(held, alloc, set, documents),
        Outcome::Broken(fault) => Ok(SetVerdict::Broken(fault)),
    }
}

/// What schema documents come to, where a set starts at the one of this place.
pub(crate) fn outcome_of(
    alloc: Global,
    documents: &[SchemaInput],
    start: u32,
) -> Result<Outcome, AllocError>
    requires place { start < length documents.now }
    ensures outcome { IfOk result (IsOutcome documents.now start) }
{
    are_whole(documents);
    compile_from(alloc, documents, start)
}

/// Compiles schema documents, and keeps the set with them where it is accepted.
pub(crate) fn compile_into(
    held: &mut Held,
    alloc: Global,
    documents: Vec<SchemaInput>,
) -> Result<SetVerdict, AllocError>
    requires some { 0 < length documents.items }
    requires kept { IsKept held.old }
    ensures compiled { IfOk result (λ told. answers.IsCompiled documents.items (work_of held.old) told (work_of held.new)) }
    ensures kept { IsKept held.new }
{
    match outcome_of(alloc, documents.as_slice(), 0) {
        Ok(outcome) => take(held, alloc, outcome, documents),
        Err(error) => Err(error),
    }
}
