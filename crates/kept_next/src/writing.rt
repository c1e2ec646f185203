//! The answers of a place, written.

ghost use Rattle.std.specs.Prelude.{◌≡◌, ◌+◌, ◌≤◌, ℕ, List, length};
ghost use Rattle.xsv_io.specs.Written.{Written};
ghost use Rattle.content_automaton.specs.Terms.{ExpandedName};
ghost use Rattle.assessment.specs.Attribution.{SchemaSet};
ghost use Rattle.kept_next.specs.Answers.{answers_by, cost, reply};
ghost use Rattle.kept_next.specs.Place.{IsPlaceBy, children_in};

use crate::laws::{places_are_named, places_have_answers, places_have_fits};
use crate::{AroundAt, write_next};
use xs_names::Names;
use xsv_io::{Failed, Part, Sink, write_parts};
use xsv_steps::{Ledger, Steps};

/// Writes a line for each symbol that fits at a place, in order, and how many there are. It takes no memory.
///
/// # Errors
///
/// `Failed` where the sink failed; a front was then written.
pub fn write_answers<W: Sink, L: Ledger>(
    sink: &mut W,
    names: &Names,
    place: &AroundAt<'_>,
    steps: &mut Steps<L>,
) -> Result<(), Failed>
    requires { (s : SchemaSet) × (p : ℕ) × (given : List ExpandedName) × IsPlaceBy place.now s p given × (s.names ≡ names.now) }
    ensures written { (s : SchemaSet) (p : ℕ) (given : List ExpandedName) → IsPlaceBy place.now s p given → s.names ≡ names.now →
        Written W.taken W.faults W.fault_bound sink.old sink.new result (reply names.now (answers_by place.now s given)) }
    ensures least { steps.old ≤ steps.new }
    ensures most { steps.new ≤ steps.old + cost (children_in place.now.lists place.now.list) (length place.now.symbols) }
{
    places_have_fits();
    places_have_answers();
    places_are_named();
    let lines = write_next(sink, names, place, steps)?;
    write_parts(
        sink,
        &[
            Part::Text("names "),
            Part::Number(lines as u64),
            Part::Text("\n"),
        ],
    )
}
