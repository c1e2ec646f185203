ghost use Rattle.std.specs.Prelude.{◌≡◌, IfOk};
ghost use Rattle.stream_answers.specs.Refusals as refusals;
ghost use Rattle.told.specs.Tells.{Tells};

use item_listing::Reason;
use open_document::write_answer;
use stream_sections::{Refusal, RefusedLine};
use tag_names::NameReason;
use told::{BreakOff, Ending};
use tree_building::TreeReason;
use xsv_io::{Part, Sink};

fn line_name(reason: Reason) -> &'static str
    ensures { result.now ≡ refusals.line_name reason }
{
    match reason {
        Reason::NotUtf8 => "NotUtf8",
        Reason::BadStart => "BadStart",
        Reason::NoName => "NoName",
        Reason::BadEscape => "BadEscape",
        Reason::BadAttributePlace => "BadAttributePlace",
        Reason::EndMissing => "EndMissing",
        Reason::AfterEnd => "AfterEnd",
        Reason::TooManyBytes => "TooManyBytes",
        Reason::LineTooLong => "LineTooLong",
    }
}

fn tag_name(reason: NameReason) -> &'static str
    ensures { result.now ≡ refusals.tag_name reason }
{
    match reason {
        NameReason::BadName => "BadName",
        NameReason::ReservedName => "ReservedName",
        NameReason::UnboundPrefix => "UnboundPrefix",
        NameReason::DoubleAttribute => "DoubleAttribute",
        NameReason::TooManyAttributes => "TooManyAttributes",
    }
}

fn tree_name(reason: TreeReason) -> &'static str
    ensures { result.now ≡ refusals.tree_name reason }
{
    match reason {
        TreeReason::TwoRoots => "TwoRoots",
        TreeReason::TooDeep => "TooDeep",
        TreeReason::TooManyNodes => "TooManyNodes",
        TreeReason::TextOutside => "TextOutside",
        TreeReason::EndMismatch => "EndMismatch",
        TreeReason::Unclosed => "Unclosed",
        TreeReason::NoRoot => "NoRoot",
        TreeReason::Name(reason) => tag_name(reason),
        TreeReason::NotHere => "BadSection",
    }
}

/// A reason's name as it is printed.
fn name_of(refusal: Refusal) -> &'static str
    ensures { result.now ≡ refusals.name_of refusal }
{
    match refusal {
        Refusal::Line(reason) => line_name(reason),
        Refusal::BadSection => "BadSection",
        Refusal::TooManySchemas => "TooManySchemas",
        Refusal::Tree(reason) => tree_name(reason),
    }
}

/// Whether a limit is passed.
fn is_limit(refusal: Refusal) -> bool
    ensures { result ≡ refusals.is_limit refusal }
{
    match refusal {
        Refusal::Line(reason) => matches!(reason, Reason::TooManyBytes | Reason::LineTooLong),
        Refusal::BadSection => false,
        Refusal::TooManySchemas => true,
        Refusal::Tree(reason) => matches!(
            reason,
            TreeReason::TooDeep
                | TreeReason::TooManyNodes
                | TreeReason::Name(NameReason::TooManyAttributes)
        ),
    }
}

/// Writes a word, a line's number and a reason.
fn write_reason<W: Sink>(
    sink: &mut W,
    word: &'static str,
    line: u64,
    reason: &'static str,
) -> Result<(), BreakOff>
    ensures tells { Tells W.taken W.faults W.fault_bound sink.old sink.new result (refusals.reason_line word.now line reason.now) }
{
    write_answer(
        sink,
        &[
            Part::Text(word),
            Part::Number(line),
            Part::Text(" "),
            Part::Text(reason),
            Part::Text("\n"),
        ],
    )
}

/// Writes that a line is refused, and answers how the stream ended.
///
/// # Errors
///
/// `WriteFault` where the sink failed; a front was then written.
pub fn write_refusal<W: Sink>(sink: &mut W, spot: RefusedLine) -> Result<Ending, BreakOff>
    ensures tells { Tells W.taken W.faults W.fault_bound sink.old sink.new result (refusals.refusal_line spot.line spot.refusal) }
    ensures ending { IfOk result (λ ending. ending ≡ refusals.refusal_ending spot.refusal) }
{
    let RefusedLine { line, refusal } = spot;
    let name = name_of(refusal);
    if is_limit(refusal) {
        write_reason(sink, "limit ", line, name)?;
        Ok(Ending::Limit)
    } else {
        write_reason(sink, "listing ", line, name)?;
        Ok(Ending::ListingRefused)
    }
}
