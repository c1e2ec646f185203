ghost use Rattle.std.specs.Prelude.{◌≡◌, Some, false, OnOk};
ghost use Rattle.xsv_io.specs.Causes.{KeepsCount};
ghost use Rattle.xsv_io.specs.Parts.{parts_text};
ghost use Rattle.xsv_io.specs.Written.{Written};
ghost use Rattle.report_text.specs.Lines.{records_text};
ghost use Rattle.report_text.specs.Named.{IsNamed, AreNamed};
ghost use Rattle.told.specs.Tells.{Tells, Wrote, IsWriteFault};
ghost use Rattle.open_document.specs.Replies.{made, total_line, total_reply, report_reply, refusal, no_element, assess_reply, made_reply};

use compiled_schema::Compiled;
use report_text::{Records, write_records};
use session_model::{Session, write_report};
use told::BreakOff;
use tree_rows::NodeKind;
use xsv_io::{Failed, Part, Sink, write_parts};

/// Writes the parts of an answer.
///
/// # Errors
///
/// `WriteFault` where the sink failed; a front was then written.
pub fn write_answer<W: Sink>(sink: &mut W, parts: &[Part]) -> Result<(), BreakOff>
    ensures tells { Tells W.taken W.faults W.fault_bound sink.old sink.new result (parts_text parts.now) }
{
    match write_parts(sink, parts) {
        Ok(()) => Ok(()),
        Err(_) => Err(BreakOff::WriteFault),
    }
}

/// Writes that an edit was made: the revision and the number of codes.
///
/// # Errors
///
/// `WriteFault` where the sink failed.
pub fn write_made<W: Sink>(sink: &mut W, revision: u64, total: u64) -> Result<(), BreakOff>
    ensures tells { Tells W.taken W.faults W.fault_bound sink.old sink.new result (made revision total) }
{
    write_answer(
        sink,
        &[
            Part::Text("ok "),
            Part::Number(revision),
            Part::Text(" "),
            Part::Number(total),
            Part::Text("\n"),
        ],
    )
}

/// Answers with the revision and the number of codes.
pub fn answer_made<S: Session, W: Sink>(session: &S, sink: &mut W) -> Result<(), BreakOff>
    requires { (S.state session.now).closed ≡ false }
    ensures wrote { Wrote result (W.taken sink.old) (W.taken sink.new) (made_reply (S.state session.now)) }
    ensures writes { KeepsCount W.faults W.fault_bound sink.old sink.new (IsWriteFault result) }
{
    write_made(sink, session.revision(), session.code_total())
}

/// Writes the number of codes.
///
/// # Errors
///
/// `Failed` where the sink failed; a front was then written.
pub fn write_total<W: Sink>(sink: &mut W, total: u64) -> Result<(), Failed>
    ensures written { Written W.taken W.faults W.fault_bound sink.old sink.new result (total_line total) }
{
    write_parts(
        sink,
        &[Part::Text("total "), Part::Number(total), Part::Text("\n")],
    )
}

/// Writes the number of codes as an answer.
fn tell_total<W: Sink>(sink: &mut W, total: u64) -> Result<(), BreakOff>
    ensures tells { Tells W.taken W.faults W.fault_bound sink.old sink.new result (total_line total) }
{
    match write_total(sink, total) {
        Ok(()) => Ok(()),
        Err(_) => Err(BreakOff::WriteFault),
    }
}

/// Answers with the number of codes.
pub fn answer_total<S: Session, W: Sink>(session: &S, sink: &mut W) -> Result<(), BreakOff>
    requires { (S.state session.now).closed ≡ false }
    ensures wrote { Wrote result (W.taken sink.old) (W.taken sink.new) (total_reply (S.state session.now)) }
    ensures writes { KeepsCount W.faults W.fault_bound sink.old sink.new (IsWriteFault result) }
{
    tell_total(sink, session.code_total())
}

/// Writes the record lines that are told, and the number of all codes.
fn write_lines<S: Session, W: Sink>(
    session: &S,
    most: Option<u32>,
    sink: &mut W,
) -> Result<(), Failed>
    requires { (S.state session.now).closed ≡ false }
    ensures written { Written W.taken W.faults W.fault_bound sink.old sink.new result (report_reply most (S.state session.now)) }
{
    write_report(session, most, sink)?;
    write_total(sink, session.code_total())
}

/// Answers with the record lines of all elements and attributes, or so many at most of those that have a code; and with the number
/// of all codes.
pub fn answer_report<S: Session, W: Sink>(
    session: &S,
    most: Option<u32>,
    sink: &mut W,
) -> Result<(), BreakOff>
    requires { (S.state session.now).closed ≡ false }
    ensures wrote { Wrote result (W.taken sink.old) (W.taken sink.new) (report_reply most (S.state session.now)) }
    ensures writes { KeepsCount W.faults W.fault_bound sink.old sink.new (IsWriteFault result) }
{
    match write_lines(session, most, sink) {
        Ok(()) => Ok(()),
        Err(_) => Err(BreakOff::WriteFault),
    }
}

/// Writes a refusal.
pub fn write_refusal<W: Sink>(sink: &mut W, number: u8, name: &str) -> Result<(), BreakOff>
    ensures tells { Tells W.taken W.faults W.fault_bound sink.old sink.new result (refusal number name.now) }
{
    write_answer(
        sink,
        &[
            Part::Text("no "),
            Part::Number(number as u64),
            Part::Text(" "),
            Part::Text(name),
            Part::Text("\n"),
        ],
    )
}

/// Writes the record lines of an element and of its attributes.
fn tell_records<W: Sink>(
    sink: &mut W,
    set: &Compiled,
    node: u32,
    records: Records<'_>,
) -> Result<(), BreakOff>
    requires element { IsNamed set.now.names set.now.parts records.element.now.name records.element.now.of }
    requires attrs { AreNamed set.now.names set.now.parts records.attrs.now }
    ensures tells { Tells W.taken W.faults W.fault_bound sink.old sink.new result (records_text set.now.names set.now.parts node records.entry.element.now records.entry.attrs.now) }
{
    match write_records(sink, &set.names, &set.parts, node, records) {
        Ok(()) => Ok(()),
        Err(_) => Err(BreakOff::WriteFault),
    }
}

/// Writes why a number of this kind of node is of no element.
fn refuse_kind<W: Sink>(kind: NodeKind, sink: &mut W) -> Result<(), BreakOff>
    ensures tells { Tells W.taken W.faults W.fault_bound sink.old sink.new result (no_element (Some kind)) }
{
    match kind {
        NodeKind::Chars => write_refusal(sink, 2, "NotElement"),
        NodeKind::Element => write_refusal(sink, 1, "UnknownNode"),
    }
}

/// Writes why a number is of no element.
fn refuse_element<W: Sink>(kind: Option<NodeKind>, sink: &mut W) -> Result<(), BreakOff>
    ensures tells { Tells W.taken W.faults W.fault_bound sink.old sink.new result (no_element kind) }
{
    match kind {
        Some(kind) => refuse_kind(kind, sink),
        None => write_refusal(sink, 1, "UnknownNode"),
    }
}

/// Writes the record lines of an element and of its attributes, or why there are none.
pub fn answer_assess<S: Session, W: Sink>(
    session: &S,
    node: u32,
    sink: &mut W,
) -> Result<(), BreakOff>
    requires { (S.state session.now).closed ≡ false }
    ensures wrote { Wrote result (W.taken sink.old) (W.taken sink.new) (assess_reply (S.state session.now) node) }
    ensures writes { KeepsCount W.faults W.fault_bound sink.old sink.new (IsWriteFault result) }
{
    match session.records(node) {
        Some(records) => tell_records(sink, session.compiled(), node, records),
        None => refuse_element(session.live(node), sink),
    }
}
