ghost use Rattle.std.specs.Prelude.{◌≡◌, ◌≤◌, ℕ, List, Option, IfOk};
ghost use Rattle.xsv_io.specs.Causes.{KeepsCount};
ghost use Rattle.told.specs.Told.{Told};
ghost use Rattle.told.specs.Going.{Answers, trace};
ghost use Rattle.told.specs.Tells.{IsWriteFault};
ghost use Rattle.open_document.specs.Answers.{command_told};
ghost use Rattle.open_document.specs.State.{OpenState, IsOpen, working};
ghost use Rattle.stream_sections.specs.inside.CommandTurns as command_turns;
ghost use Rattle.stream_answers.specs.inside.Turns.{Spot, commands, commands_turned, document_ended, no_block};
ghost use Rattle.stream_answers.specs.inside.Turning.{MovesOpen, moved};
ghost use Rattle.stream_answers.specs.declared.place.Place.TheVariants as places;

use crate::Place;
use crate::turn::{Turn, refuse};
use item_listing::Items;
use open_document::{Workspace, boxed};
use std::alloc::Global;
use stream_sections::{CommandReader, CommandTurn};
use told::BreakOff;
use xs_names::Text;
use xsv_io::Sink;
use xsv_steps::{Ledger, Steps};

/// Answers a command, with the items of its block where it opened one.
fn answer_command<W: Sink, L: Ledger>(
    alloc: Global,
    work: &mut Workspace,
    command: &Text,
    block: Option<Items>,
    sink: &mut W,
    steps: &mut Steps<L>,
) -> Result<Turn, BreakOff>
    requires { IsOpen work.old }
    ensures takes { (s : OpenState) (next : Spot → Told) → work.old ≡ working s → Answers (command_told s command.now block (λ q. next (commands q no_block)))
        result (trace (W.taken sink.old) steps.old) (trace (W.taken sink.new) steps.new) (moved next (places.Commands no_block) work.new) }
    ensures open { (reader : CommandReader) → IfOk result (MovesOpen (places.Commands reader) work.new) }
    ensures writes { KeepsCount W.faults W.fault_bound sink.old sink.new (IsWriteFault result) }
    ensures later { steps.old ≤ steps.new }
{
    match work.answer(alloc, command, block, sink, steps) {
        Ok(()) => Ok(Turn::Stays),
        Err(why) => Err(why),
    }
}

/// The stream has ended with this document.
fn end_commands(alloc: Global, work: &Workspace) -> Result<Turn, BreakOff>
    requires { IsOpen work.now }
    ensures takes { (s : OpenState) (next : Spot → Told) (stood : Place) (taken : Option (List ℕ)) (n : ℕ) → work.now ≡ working s
        → Answers (next (document_ended s)) result (trace taken n) (trace taken n) (moved next stood work.now) }
    ensures open { (stood : Place) → IfOk result (MovesOpen stood work.now) }
    ensures no_fault { IsWriteFault result → ⊥ }
{
    match boxed(alloc, Place::Ended(Some(work.verdict()))) {
        Ok(place) => Ok(Turn::Goes(place)),
        Err(_) => Err(BreakOff::Memory),
    }
}

/// Answers what an item has done among the commands.
pub fn answer_commands<W: Sink, L: Ledger>(
    alloc: Global,
    turn: CommandTurn,
    work: &mut Workspace,
    sink: &mut W,
    steps: &mut Steps<L>,
) -> Result<Turn, BreakOff>
    requires { IsOpen work.old }
    ensures takes { (s : OpenState) (t : command_turns.Turned) (r : CommandReader) (next : Spot → Told) → work.old ≡ working s → command_turns.Turns t turn r
        → Answers (commands_turned s t next) result (trace (W.taken sink.old) steps.old) (trace (W.taken sink.new) steps.new) (moved next (Place.Commands r) work.new) }
    ensures open { (r : CommandReader) → IfOk result (MovesOpen (Place.Commands r) work.new) }
    ensures writes { KeepsCount W.faults W.fault_bound sink.old sink.new (IsWriteFault result) }
    ensures later { steps.old ≤ steps.new }
{
    match turn {
        CommandTurn::Goes => Ok(Turn::Stays),
        CommandTurn::Gives(command, block) => {
            answer_command(alloc, work, &command, block, sink, steps)
        }
        CommandTurn::Ends => end_commands(alloc, work),
        CommandTurn::Refused(spot) => refuse(sink, spot),
    }
}
