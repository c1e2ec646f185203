ghost use Rattle.std.specs.Prelude.{◌∷◌, [], ◌++◌, codes};
ghost use Rattle.xsv_io.specs.Written.{Written};
ghost use Rattle.report_text.specs.Words as words;

use xs_codes::{Code, Found, code_text};
use xsv_io::{Failed, Part, Sink, write_parts, write_text};

/// Writes a code, and behind it the place that is printed with it.
fn write_code<W: Sink>(sink: &mut W, found: Found) -> Result<(), Failed>
    ensures written { Written W.taken W.faults W.fault_bound sink.old sink.new result (words.code_text found) }
{
    let text = code_text(found.code);
    match found.code {
        Code::CvcComplexType2_4 => write_parts(
            sink,
            &[
                Part::Text(text),
                Part::Text("@"),
                Part::Number(found.place as u64),
            ],
        ),
        _ => write_text(sink, text),
    }
}

/// Writes a code behind a comma.
fn write_next_code<W: Sink>(sink: &mut W, found: Found) -> Result<(), Failed>
    ensures written { Written W.taken W.faults W.fault_bound sink.old sink.new result (codes "," ++ words.code_text found) }
{
    write_text(sink, ",")?;
    write_code(sink, found)
}

/// Writes codes, each behind a comma, and the line's end.
fn write_more_codes<W: Sink>(sink: &mut W, more: &[Found]) -> Result<(), Failed>
    ensures written { Written W.taken W.faults W.fault_bound sink.old sink.new result (words.more_codes more.now ++ 10 ∷ []) }
{
    let mut rest = more;
    'codes: while let Some((found, later)) = rest.split_first() {
        write_next_code(sink, *found)?;
        rest = later;
    }
    write_text(sink, "\n")
}

/// Writes codes, joined by commas, or a hyphen where there are none, and the line's end.
pub fn write_codes<W: Sink>(sink: &mut W, all: &[Found]) -> Result<(), Failed>
    ensures written { Written W.taken W.faults W.fault_bound sink.old sink.new result (words.codes_text all.now ++ 10 ∷ []) }
{
    match all.split_first() {
        None => write_text(sink, "-\n"),
        Some((found, more)) => {
            write_code(sink, *found)?;
            write_more_codes(sink, more)
        }
    }
}
