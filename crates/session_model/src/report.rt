//! The report on the document of a session: its record lines, or so many of those that have a code.

ghost use Rattle.std.specs.Prelude.{◌≡◌, false, map, Some, OnOk};
ghost use Rattle.xsv_io.specs.Written.{Written};
ghost use Rattle.assessment.specs.Assessment.{Entry};
ghost use Rattle.compiled_schema.specs.Usable.{set_of};
ghost use Rattle.report_text.specs.Named.{IsNamed, AreNamed};
ghost use Rattle.session_model.specs.Asking.{entry_at};
ghost use Rattle.session_model.specs.Reports.{attr_line_of, entry_lines, report};
ghost use Rattle.session_model.specs.inside.Telling as telling;
ghost use Rattle.session_model.specs.inside.Telling.{element_line_of, lines_of, told_text, text_of, left_all};

use crate::Session;
use assess_records::{AttrRecord, Codes, ElementRecord, Shared};
use compiled_schema::Compiled;
use report_text::{Records, write_attr, write_record};
use what_is_found::{each_element_is_found_once, the_root_is_found_first};
use xsv_io::{Failed, Sink};

/// Whether a line with these codes is told, where so many more may be: each line where it is not said how many.
fn is_told(left: Option<u32>, codes: &Codes) -> bool
    ensures { result ≡ telling.is_told left codes.now }
{
    match left {
        None => true,
        Some(most) => codes.len() != 0 && most != 0,
    }
}

/// How many more lines may be told behind one with these codes.
fn left_behind(left: Option<u32>, codes: &Codes) -> Option<u32>
    ensures { result ≡ telling.left_behind left codes.now }
{
    match left {
        None => None,
        Some(most) => {
            if codes.len() != 0 && most != 0 {
                Some(most - 1)
            } else {
                Some(most)
            }
        }
    }
}

/// Writes the record line of an element, where it is told.
fn tell_element<W: Sink>(
    sink: &mut W,
    set: &Compiled,
    node: u32,
    record: &ElementRecord,
    left: Option<u32>,
) -> Result<(), Failed>
    requires named { IsNamed set.now.names set.now.parts record.now.name record.now.of }
    ensures written { Written W.taken W.faults W.fault_bound sink.old sink.new result (told_text left (element_line_of (set_of set.now) node record.now)) }
{
    if is_told(left, &record.codes) {
        write_record(sink, &set.names, &set.parts, node, record)
    } else {
        Ok(())
    }
}

/// Writes the record line of an attribute, where it is told.
fn tell_attr<W: Sink>(
    sink: &mut W,
    set: &Compiled,
    node: u32,
    record: &Shared<AttrRecord>,
    left: Option<u32>,
) -> Result<(), Failed>
    requires named { IsNamed set.now.names set.now.parts record.now.name record.now.of }
    ensures written { Written W.taken W.faults W.fault_bound sink.old sink.new result (told_text left (attr_line_of (set_of set.now) node record.now)) }
{
    if is_told(left, &record.get().codes) {
        write_attr(sink, &set.names, &set.parts, node, record)
    } else {
        Ok(())
    }
}

/// Writes the record lines of an element's attributes that are told.
fn tell_attrs<W: Sink>(
    sink: &mut W,
    set: &Compiled,
    node: u32,
    attrs: &[Shared<AttrRecord>],
    left: &mut Option<u32>,
) -> Result<(), Failed>
    requires named { AreNamed set.now.names set.now.parts attrs.now }
    ensures written { Written W.taken W.faults W.fault_bound sink.old sink.new result (text_of left.old (map (attr_line_of (set_of set.now) node) attrs.now)) }
    ensures left { OnOk result (left.new ≡ left_all left.old (map (attr_line_of (set_of set.now) node) attrs.now)) }
{
    let mut rest = attrs;
    'attrs: while let Some((record, more)) = rest.split_first() {
        tell_attr(sink, set, node, record, *left)?;
        *left = left_behind(*left, &record.get().codes);
        rest = more;
    }
    Ok(())
}

/// Writes those record lines of an element and its attributes that are told.
fn tell_records<W: Sink>(
    sink: &mut W,
    set: &Compiled,
    node: u32,
    records: Records<'_>,
    left: &mut Option<u32>,
) -> Result<(), Failed>
    requires element { IsNamed set.now.names set.now.parts records.element.now.name records.element.now.of }
    requires attrs { AreNamed set.now.names set.now.parts records.attrs.now }
    ensures written { Written W.taken W.faults W.fault_bound sink.old sink.new result
        (text_of left.old (lines_of (set_of set.now) node records.entry.element.now records.entry.attrs.now)) }
    ensures left { OnOk result (left.new ≡ left_all left.old (lines_of (set_of set.now) node records.entry.element.now records.entry.attrs.now)) }
{
    tell_element(sink, set, node, records.element, *left)?;
    *left = left_behind(*left, &records.element.codes);
    tell_attrs(sink, set, node, records.attrs, left)
}

/// Writes those record lines of the element of a number and its attributes that are told.
fn tell_entry<S: Session, W: Sink>(
    session: &S,
    node: u32,
    left: &mut Option<u32>,
    sink: &mut W,
) -> Result<(), Failed>
    requires { (S.state session.now).closed ≡ false }
    ensures written { (e : Entry) → entry_at node (S.state session.now).found ≡ Some e
        → Written W.taken W.faults W.fault_bound sink.old sink.new result (text_of left.old (entry_lines (S.state session.now).set e)) }
    ensures left { (e : Entry) → entry_at node (S.state session.now).found ≡ Some e
        → OnOk result (left.new ≡ left_all left.old (entry_lines (S.state session.now).set e)) }
{
    match session.records(node) {
        Some(records) => tell_records(sink, session.compiled(), node, records, left),
        None => Ok(()),
    }
}

/// Writes the report on the document of a session: the record line of each element and attribute, in document order; or of those
/// that have a code, so many at most.
///
/// # Errors
///
/// `Failed` where the sink failed; a front was then written.
pub fn write_report<S: Session, W: Sink>(
    session: &S,
    most: Option<u32>,
    sink: &mut W,
) -> Result<(), Failed>
    requires { (S.state session.now).closed ≡ false }
    ensures written { Written W.taken W.faults W.fault_bound sink.old sink.new result (report most (S.state session.now)) }
{
    the_root_is_found_first();
    each_element_is_found_once();
    let _set = session.compiled();
    let mut left = most;
    let mut next = Some(1);
    'elements: while let Some(node) = next {
        tell_entry(session, node, &mut left, sink)?;
        next = session.node_after(node);
    }
    Ok(())
}
