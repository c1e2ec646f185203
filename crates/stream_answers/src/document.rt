ghost use Rattle.std.specs.Prelude.{◌≡◌, ◌≤◌, Some, IfOk};
ghost use Rattle.xsv_io.specs.Causes.{KeepsCount};
ghost use Rattle.told.specs.Told.{Told};
ghost use Rattle.told.specs.Going.{Answers, trace};
ghost use Rattle.told.specs.Tells.{Wrote, IsWriteFault};
ghost use Rattle.open_document.specs.Answers.{verdict};
ghost use Rattle.open_document.specs.State.{Basis, OpenState, IsReady, IsOpen, ready, working};
ghost use Rattle.stream_sections.specs.inside.DocumentTurns as document_turns;
ghost use Rattle.stream_answers.specs.Output as output;
ghost use Rattle.stream_answers.specs.inside.Turns.{Spot, commands, document_turned, document_ended, no_block};
ghost use Rattle.stream_answers.specs.inside.Turning.{MovesOpen, GoesTo, moved};
ghost use Rattle.stream_answers.specs.declared.place.Place.TheVariants as places;

use crate::turn::{Turn, refuse};
use crate::{Place, Wanted};
use open_document::{Workspace, boxed};
use plain_tree::Tree;
use std::alloc::Global;
use stream_sections::{Asked, CommandReader, DocumentReader, DocumentTurn};
use told::BreakOff;
use xsv_io::Sink;
use xsv_steps::{Ledger, Steps};

/// Writes the report on a document that was opened, or the first line of a session.
fn write_opening<W: Sink>(asked: Asked, work: &Workspace, sink: &mut W) -> Result<(), BreakOff>
    requires { IsOpen work.now }
    ensures wrote { (s : OpenState) → work.now ≡ working s → Wrote result (W.taken sink.old) (W.taken sink.new) (output.opening asked s) }
    ensures writes { KeepsCount W.faults W.fault_bound sink.old sink.new (IsWriteFault result) }
{
    match asked {
        Asked::Check => Ok(()),
        Asked::Assess => work.write_report(sink),
        Asked::Session => work.write_first(sink),
    }
}

/// The document is open, and commands follow.
fn begin_edits<W: Sink>(
    alloc: Global,
    asked: Asked,
    work: &Workspace,
    sink: &mut W,
) -> Result<Turn, BreakOff>
    requires { IsOpen work.now }
    ensures wrote { (s : OpenState) → work.now ≡ working s → Wrote result (W.taken sink.old) (W.taken sink.new) (output.opening asked s) }
    ensures goes { IfOk result (GoesTo (places.Commands no_block)) }
    ensures writes { KeepsCount W.faults W.fault_bound sink.old sink.new (IsWriteFault result) }
{
    // Memory is taken before anything is written.
    let place = boxed(alloc, Place::Commands(CommandReader::new()))?;
    write_opening(asked, work, sink)?;
    Ok(Turn::Goes(place))
}

/// The document is open, and the stream has ended.
fn end_document<W: Sink>(
    alloc: Global,
    asked: Asked,
    work: &Workspace,
    sink: &mut W,
) -> Result<Turn, BreakOff>
    requires { IsOpen work.now }
    ensures wrote { (s : OpenState) → work.now ≡ working s → Wrote result (W.taken sink.old) (W.taken sink.new) (output.opening asked s) }
    ensures goes { (s : OpenState) → work.now ≡ working s → IfOk result (GoesTo (places.Ended (Some (verdict s)))) }
    ensures open { (stood : Place) → IfOk result (MovesOpen stood work.now) }
    ensures writes { KeepsCount W.faults W.fault_bound sink.old sink.new (IsWriteFault result) }
{
    let place = boxed(alloc, Place::Ended(Some(work.verdict())))?;
    write_opening(asked, work, sink)?;
    Ok(Turn::Goes(place))
}

/// Opens the document, and takes commands from here on.
fn take_edits<W: Sink, L: Ledger>(
    alloc: Global,
    wanted: Wanted,
    work: &mut Workspace,
    tree: Tree,
    sink: &mut W,
    steps: &mut Steps<L>,
) -> Result<Turn, BreakOff>
    requires { IsReady work.old }
    ensures takes { (basis : Basis) (next : Spot → Told) (stood : Place) → work.old ≡ ready basis → Answers (output.opening_told wanted basis tree (λ s. next (commands s no_block)))
        result (trace (W.taken sink.old) steps.old) (trace (W.taken sink.new) steps.new) (moved next stood work.new) }
    ensures open { (stood : Place) → IfOk result (MovesOpen stood work.new) }
    ensures writes { KeepsCount W.faults W.fault_bound sink.old sink.new (IsWriteFault result) }
    ensures later { steps.old ≤ steps.new }
{
    match work.open(alloc, tree, wanted.most, steps) {
        Ok(()) => begin_edits(alloc, wanted.asked, work, sink),
        Err(_) => Err(BreakOff::Memory),
    }
}

/// Opens the document, and ends the stream.
fn take_end<W: Sink, L: Ledger>(
    alloc: Global,
    wanted: Wanted,
    work: &mut Workspace,
    tree: Tree,
    sink: &mut W,
    steps: &mut Steps<L>,
) -> Result<Turn, BreakOff>
    requires { IsReady work.old }
    ensures takes { (basis : Basis) (next : Spot → Told) (stood : Place) → work.old ≡ ready basis → Answers (output.opening_told wanted basis tree (λ s. next (document_ended s)))
        result (trace (W.taken sink.old) steps.old) (trace (W.taken sink.new) steps.new) (moved next stood work.new) }
    ensures open { (stood : Place) → IfOk result (MovesOpen stood work.new) }
    ensures writes { KeepsCount W.faults W.fault_bound sink.old sink.new (IsWriteFault result) }
    ensures later { steps.old ≤ steps.new }
{
    match work.open(alloc, tree, wanted.most, steps) {
        Ok(()) => end_document(alloc, wanted.asked, work, sink),
        Err(_) => Err(BreakOff::Memory),
    }
}

/// Answers what an item has done in the document section.
pub fn answer_document<W: Sink, L: Ledger>(
    alloc: Global,
    wanted: Wanted,
    turn: DocumentTurn,
    work: &mut Workspace,
    sink: &mut W,
    steps: &mut Steps<L>,
) -> Result<Turn, BreakOff>
    requires { IsReady work.old }
    ensures takes { (basis : Basis) (t : document_turns.Turned) (r : DocumentReader) (next : Spot → Told) → work.old ≡ ready basis → document_turns.Turns t turn r
        → Answers (document_turned wanted basis t next) result (trace (W.taken sink.old) steps.old) (trace (W.taken sink.new) steps.new) (moved next (Place.Document r) work.new) }
    ensures open { (r : DocumentReader) → IfOk result (MovesOpen (Place.Document r) work.new) }
    ensures writes { KeepsCount W.faults W.fault_bound sink.old sink.new (IsWriteFault result) }
    ensures later { steps.old ≤ steps.new }
{
    match turn {
        DocumentTurn::Goes => Ok(Turn::Stays),
        DocumentTurn::Edits(tree) => take_edits(alloc, wanted, work, tree, sink, steps),
        DocumentTurn::Ends(tree) => take_end(alloc, wanted, work, tree, sink, steps),
        DocumentTurn::Refused(spot) => refuse(sink, spot),
    }
}
