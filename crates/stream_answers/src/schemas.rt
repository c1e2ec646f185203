ghost use Rattle.std.specs.Prelude.{◌≡◌, ◌<◌, ℕ, length, IfOk};
ghost use Rattle.xsv_io.specs.Causes.{KeepsCount};
ghost use Rattle.told.specs.Told.{Told, asks};
ghost use Rattle.told.specs.Going.{Answers, trace};
ghost use Rattle.told.specs.Tells.{Tells, IsWriteFault};
ghost use Rattle.open_document.specs.Answers.{question};
ghost use Rattle.open_document.specs.State.{WorkState, with_documents};
ghost use Rattle.stream_sections.specs.inside.SchemaTurns as schema_turns;
ghost use Rattle.stream_answers.specs.Faults as faults;
ghost use Rattle.stream_answers.specs.Output as output;
ghost use Rattle.stream_answers.specs.inside.Turns.{Spot, spot_behind, schemas_turned};
ghost use Rattle.stream_answers.specs.inside.Turning as turning;
ghost use Rattle.stream_answers.specs.inside.Turning.{MovesOpen, EndsSo, GoesTo, AreSome, moved};

use crate::Place;
use crate::fault::write_fault;
use crate::turn::{Turn, refuse};
use open_document::{SetVerdict, Workspace, boxed, write_answer};
use schema_set::SchemaInput;
use std::alloc::{AllocError, Global};
use stream_sections::{
    Asked, DocumentReader, SchemaReader, SchemaSection, SchemaSections, SchemaTurn,
};
use told::BreakOff;
use xs_codes::Fault;
use xsv_io::{Part, Sink};

/// The documents of schema sections.
fn inputs_of(alloc: Global, sections: SchemaSections) -> Result<Vec<SchemaInput>, AllocError>
    ensures { IfOk result (λ documents. documents.items ≡ output.inputs sections) }
{
    let mut documents = Vec::new(alloc);
    for section in sections.into_vec() {
        let SchemaSection { locations, tree } = section;
        documents.push(SchemaInput { tree, locations })?;
    }
    Ok(documents)
}

/// The place behind the line of this number, at which the schema set was accepted.
fn place_behind(alloc: Global, asked: Asked, line: u32) -> Result<Place, AllocError>
    ensures { IfOk result (λ place. place ≡ turning.place_behind asked line) }
{
    match asked {
        Asked::Check => Ok(Place::Ended(None)),
        Asked::Assess | Asked::Session => Ok(Place::Document(DocumentReader::new(alloc, line)?)),
    }
}

/// The schema set is accepted at the line of this number.
fn accept<W: Sink>(alloc: Global, asked: Asked, line: u32, sink: &mut W) -> Result<Turn, BreakOff>
    ensures tells { Tells W.taken W.faults W.fault_bound sink.old sink.new result output.schema_ok }
    ensures goes { IfOk result (GoesTo (turning.place_behind asked line)) }
{
    // Memory is taken before anything is written.
    let place = boxed(alloc, place_behind(alloc, asked, line)?)?;
    write_answer(sink, &[Part::Text("schema ok\n")])?;
    Ok(Turn::Goes(place))
}

/// The schema set has a fault.
fn refuse_set<W: Sink>(sink: &mut W, fault: Fault) -> Result<Turn, BreakOff>
    ensures tells { Tells W.taken W.faults W.fault_bound sink.old sink.new result (faults.fault_line fault) }
    ensures ends { IfOk result (EndsSo (faults.fault_ending fault)) }
    ensures open { (stood : Place) (work : WorkState) → IfOk result (MovesOpen stood work) }
{
    Ok(Turn::Ends(write_fault(sink, fault)?))
}

/// Compiles the documents of the schema sections, which have ended at the line of this number.
fn compile<W: Sink>(
    alloc: Global,
    asked: Asked,
    line: u32,
    documents: Vec<SchemaInput>,
    work: &mut Workspace,
    sink: &mut W,
) -> Result<Turn, BreakOff>
    requires some { 0 < length documents.items }
    ensures takes { (n : ℕ) (next : Spot → Told) (stood : Place) → Answers (asks (question documents.items) (output.compiled_told (λ set. next (spot_behind asked line (with_documents documents.items set)))))
        result (trace (W.taken sink.old) n) (trace (W.taken sink.new) n) (moved next stood work.new) }
    ensures open { (stood : Place) → IfOk result (MovesOpen stood work.new) }
    ensures writes { KeepsCount W.faults W.fault_bound sink.old sink.new (IsWriteFault result) }
{
    match work.compile(alloc, documents) {
        Ok(SetVerdict::Accepted) => accept(alloc, asked, line, sink),
        Ok(SetVerdict::Broken(fault)) => refuse_set(sink, fault),
        Err(_) => Err(BreakOff::Memory),
    }
}

/// The schema sections have ended at the line of this number.
fn end_schemas<W: Sink>(
    alloc: Global,
    asked: Asked,
    line: u32,
    sections: SchemaSections,
    work: &mut Workspace,
    sink: &mut W,
) -> Result<Turn, BreakOff>
    requires some { 0 < length sections }
    ensures takes { (n : ℕ) (next : Spot → Told) (stood : Place) → Answers (asks (output.question_of sections) (output.compiled_told (λ set. next (spot_behind asked line (with_documents (output.inputs sections) set)))))
        result (trace (W.taken sink.old) n) (trace (W.taken sink.new) n) (moved next stood work.new) }
    ensures open { (stood : Place) → IfOk result (MovesOpen stood work.new) }
    ensures writes { KeepsCount W.faults W.fault_bound sink.old sink.new (IsWriteFault result) }
{
    match inputs_of(alloc, sections) {
        Ok(documents) => compile(alloc, asked, line, documents, work, sink),
        Err(_) => Err(BreakOff::Memory),
    }
}

/// Answers what an item has done among the schema sections, at the line of this number.
pub fn answer_schemas<W: Sink>(
    alloc: Global,
    asked: Asked,
    line: u32,
    turn: SchemaTurn,
    work: &mut Workspace,
    sink: &mut W,
) -> Result<Turn, BreakOff>
    requires some { AreSome turn }
    ensures takes { (t : schema_turns.Turned) (r : SchemaReader) (n : ℕ) (next : Spot → Told) → schema_turns.Turns t turn r
        → Answers (schemas_turned asked line t next) result (trace (W.taken sink.old) n) (trace (W.taken sink.new) n) (moved next (Place.Schemas r) work.new) }
    ensures open { (r : SchemaReader) → IfOk result (MovesOpen (Place.Schemas r) work.new) }
    ensures writes { KeepsCount W.faults W.fault_bound sink.old sink.new (IsWriteFault result) }
{
    match turn {
        SchemaTurn::Goes => Ok(Turn::Stays),
        SchemaTurn::Ends(sections) => end_schemas(alloc, asked, line, sections, work, sink),
        SchemaTurn::Refused(spot) => refuse(sink, spot),
    }
}
