ghost use Rattle.std.specs.Prelude.{◌≡◌, IfOk};
ghost use Rattle.told.specs.Tells.{Tells};
ghost use Rattle.open_document.specs.State.{WorkState};
ghost use Rattle.stream_answers.specs.Refusals as refusals;
ghost use Rattle.stream_answers.specs.inside.Turning.{MovesOpen, EndsSo, ending_by, place_by};

use crate::Place;
use crate::refusal::write_refusal;
use std::mem;
use stream_sections::RefusedLine;
use told::{BreakOff, Ending};
use xsv_io::Sink;

/// What an item has done.
#[derive(Drop)]
pub enum Turn {
    /// The stream stands where it stood, with the item taken.
    Stays,
    /// The stream stands here. Boxed, since a place is large and most lines stay where they are.
    Goes(Box<Place>),
    /// The stream has ended.
    Ends(Ending),
}

/// A line that is refused ends the stream.
pub fn refuse<W: Sink>(sink: &mut W, spot: RefusedLine) -> Result<Turn, BreakOff>
    ensures tells { Tells W.taken W.faults W.fault_bound sink.old sink.new result (refusals.refusal_line spot.line spot.refusal) }
    ensures ends { IfOk result (EndsSo (refusals.refusal_ending spot.refusal)) }
    ensures open { (stood : Place) (work : WorkState) → IfOk result (MovesOpen stood work) }
{
    Ok(Turn::Ends(write_refusal(sink, spot)?))
}

/// Goes to the place of a turn, and answers how the stream ended, where it has.
pub fn settle(place: &mut Place, turn: Turn) -> Option<Ending>
    ensures ended { result ≡ ending_by turn }
    ensures place { place.new ≡ place_by place.old turn }
{
    match turn {
        Turn::Stays => None,
        Turn::Goes(next) => {
            drop(mem::replace(place, Box::into_inner(next)));
            None
        }
        Turn::Ends(ending) => Some(ending),
    }
}
