ghost use Rattle.std.specs.Prelude.{◌≡◌, ◌≤◌, ◌+◌, ◌-◌, ◌∷◌, ◌++◌, [], length, MatchOption};
ghost use Rattle.xsv_io.specs.Written.{Written};
ghost use Rattle.generated_stream.specs.Summaries as spec;

use memchr::memchr;
use xsv_io::{Failed, Part, Sink, write_parts, write_text, write_whole};

/// What the output of a session comes to.
#[derive(Clone, Copy)]
pub struct Summary<'a> {
    /// How many edits were accepted.
    pub accepted: usize,
    /// How many edits were refused.
    pub refused: usize,
    /// The line of the end, without its line feed.
    pub end: &'a [u8],
}

// Lines that were counted so far.
#[derive(Clone, Copy)]
struct Tally<'a> {
    accepted: usize,
    refused: usize,
    end: Option<&'a [u8]>,
}

impl<'a> Tally<'a> {
    // One more line.
    fn with(self, line: &'a [u8], most: usize) -> Self
        requires accepted { self.accepted + length line.now ≤ most }
        requires refused { self.refused + length line.now ≤ most }
        ensures { spec.IsOneMore line.now self.entry result }
    {
        if line.starts_with(b"ok ") {
            return Tally {
                accepted: self.accepted + 1,
                ..self
            };
        }
        if line.starts_with(b"no ") {
            return Tally {
                refused: self.refused + 1,
                ..self
            };
        }
        if line.starts_with(b"end ") && self.end.is_none() {
            return Tally {
                end: Some(line),
                ..self
            };
        }
        self
    }

    // What was counted, but for the first that was accepted.
    fn summary(self) -> Summary<'a>
        ensures accepted { result.accepted ≡ self.entry.accepted - 1 }
        ensures refused { result.refused ≡ self.entry.refused }
        ensures end { result.end.now ≡ spec.end_with (spec.end_of self.entry) [] }
    {
        Summary {
            accepted: self.accepted.saturating_sub(1),
            refused: self.refused,
            end: self.end.unwrap_or(&[]),
        }
    }
}

// The first line of a text, and what is behind its line feed.
#[derive(Clone, Copy)]
struct Cut<'a> {
    line: &'a [u8],
    behind: &'a [u8],
}

// The first line of a text, `None` where no line ends in it.
fn cut_line<'a>(text: &'a [u8]) -> Option<Cut<'a>>
    ensures { MatchOption result (spec.lines text.now ≡ text.now ∷ []) (spec.IsCut text.now) }
{
    match memchr(b'\n', text) {
        None => None,
        Some(at) => Some(Cut {
            line: &text[..at],
            behind: &text[at + 1..],
        }),
    }
}

/// What the output of a session comes to: how many of its lines behind the first `ok` are `ok`, how many are `no`, and the line of its end.
pub fn summary_of<'a>(output: &'a [u8]) -> Summary<'a>
    ensures accepted { result.accepted ≡ spec.accepted output.now }
    ensures refused { result.refused ≡ spec.refused output.now }
    ensures end { result.end.now ≡ spec.end_line output.now }
{
    let mut tally = Tally {
        accepted: 0,
        refused: 0,
        end: None,
    };
    let mut left = output;
    'lines: while let Some(cut) = cut_line(left) {
        tally = tally.with(cut.line, output.len());
        left = cut.behind;
    }
    tally.with(left, output.len()).summary()
}

// Writes how many lines the stream had, and how many edits were accepted and refused.
fn write_counts<W: Sink>(sink: &mut W, lines: u64, summary: &Summary<'_>) -> Result<(), Failed>
    ensures written { Written W.taken W.faults W.fault_bound sink.old sink.new result (spec.counts_text lines summary.now.accepted summary.now.refused) }
{
    write_parts(
        sink,
        &[
            Part::Text("lines "),
            Part::Number(lines),
            Part::Text("\naccepted "),
            Part::Number(summary.accepted as u64),
            Part::Text(" refused "),
            Part::Number(summary.refused as u64),
            Part::Text("\n"),
        ],
    )
}

// Writes a line.
fn write_line<W: Sink>(sink: &mut W, line: &[u8]) -> Result<(), Failed>
    ensures written { Written W.taken W.faults W.fault_bound sink.old sink.new result (line.now ++ 10 ∷ []) }
{
    write_whole(sink, line)?;
    write_text(sink, "\n")
}

/// Writes the lines of a trial: how many lines the stream had, how many edits were accepted and refused, and the line of the end.
///
/// # Errors
///
/// `Failed` where the sink failed; a front was then written.
pub fn write_summary<W: Sink>(sink: &mut W, lines: u64, summary: &Summary<'_>) -> Result<(), Failed>
    ensures written { Written W.taken W.faults W.fault_bound sink.old sink.new result (spec.trial_text lines summary.now.accepted summary.now.refused summary.now.end.now) }
{
    write_counts(sink, lines, summary)?;
    write_line(sink, summary.end)
}
