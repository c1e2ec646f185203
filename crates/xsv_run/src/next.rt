ghost use Rattle.std.specs.Prelude.{◌≡◌, IfOk};
ghost use Rattle.told.specs.Tells.{Tells};
ghost use Rattle.stream_answers.specs.Refusals.{refusal_line, refusal_ending};
ghost use Rattle.xsv_run.specs.inside.Progress.{next_by};
ghost use Rattle.xsv_run.specs.declared.next.Next.TheVariants as nexts;

use item_listing::ListingFault;
use stream_answers::write_refusal;
use stream_sections::{Refusal, RefusedLine};
use told::{BreakOff, Ending};
use xsv_io::Sink;

/// What the next item has done.
#[derive(Clone, Copy)]
pub enum Next {
    /// It was answered.
    Goes,
    /// No whole line is left.
    Waits,
    /// The stream has ended.
    Ends(Ending),
}

/// What an item has done, by what it was answered.
pub fn next_of(answered: Result<Option<Ending>, BreakOff>) -> Result<Next, BreakOff>
    ensures { result ≡ next_by answered }
{
    match answered {
        Ok(None) => Ok(Next::Goes),
        Ok(Some(ending)) => Ok(Next::Ends(ending)),
        Err(why) => Err(why),
    }
}

/// Writes that a line is refused.
pub fn refuse_line<W: Sink>(fault: ListingFault, sink: &mut W) -> Result<Next, BreakOff>
    ensures tells { Tells W.taken W.faults W.fault_bound sink.old sink.new result (refusal_line fault.line (Refusal.Line fault.reason)) }
    ensures ends { IfOk result (λ next. next ≡ nexts.Ends (refusal_ending (Refusal.Line fault.reason))) }
{
    let spot = RefusedLine {
        line: fault.line as u64,
        refusal: Refusal::Line(fault.reason),
    };
    match write_refusal(sink, spot) {
        Ok(ending) => Ok(Next::Ends(ending)),
        Err(why) => Err(why),
    }
}
