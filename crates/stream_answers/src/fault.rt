ghost use Rattle.std.specs.Prelude.{◌≡◌, nat_eq, codes, IfOk};
ghost use Rattle.std.specs.List.{starts_with};
ghost use Rattle.xs_codes.specs.Codes.{text_of};
ghost use Rattle.told.specs.Tells.{Tells};
ghost use Rattle.stream_answers.specs.Faults as faults;

use open_document::write_answer;
use told::{BreakOff, Ending};
use xs_codes::{Code, Fault, code_text};
use xsv_io::{Part, Sink};

/// Whether a code's text begins so.
fn begins(code: Code, front: &str) -> bool
    ensures { result ≡ starts_with nat_eq (text_of code) front.now }
{
    code_text(code).starts_with(front)
}

/// How a stream ends whose schema set has a fault, and the word that tells it.
fn fault_kind(code: Code) -> (Ending, &'static str)
    ensures ending { result.0 ≡ faults.by_code code Ending.Limit Ending.Unsupported Ending.SchemaRefused }
    ensures word { result.1.now ≡ faults.by_code code (codes "limit ") (codes "unsupported ") (codes "refused ") }
{
    if begins(code, "x-limit.") {
        (Ending::Limit, "limit ")
    } else if begins(code, "x-unsupported.") {
        (Ending::Unsupported, "unsupported ")
    } else {
        (Ending::SchemaRefused, "refused ")
    }
}

/// Writes the first fault of a schema set, and answers how the stream ended.
///
/// # Errors
///
/// `WriteFault` where the sink failed; a front was then written.
pub(crate) fn write_fault<W: Sink>(sink: &mut W, fault: Fault) -> Result<Ending, BreakOff>
    ensures tells { Tells W.taken W.faults W.fault_bound sink.old sink.new result (faults.fault_line fault) }
    ensures ending { IfOk result (λ ending. ending ≡ faults.fault_ending fault) }
{
    let (ending, word) = fault_kind(fault.code);
    write_answer(
        sink,
        &[
            Part::Text("schema "),
            Part::Text(word),
            Part::Number(fault.document as u64),
            Part::Text(" "),
            Part::Number(fault.item as u64),
            Part::Text(" "),
            Part::Text(code_text(fault.code)),
            Part::Text("\n"),
        ],
    )?;
    Ok(ending)
}
