ghost use Rattle.std.specs.Prelude.{◌≡◌, ◌++◌, IfSome, codes};
ghost use Rattle.std.specs.Fmt.{decimal};
ghost use Rattle.xsv_io.specs.Written.{Written};
ghost use Rattle.report_text.specs.Named.{IsTypeNamed, IsNamed, AreNamed};
ghost use Rattle.report_text.specs.Lines as lines;
ghost use Rattle.report_text.specs.Words as words;

use crate::codes::write_codes;
use crate::names::{write_name, write_type};
use crate::words::{attempted_word, source_word, validity_word};
use assess_records::{Attempted, AttrRecord, Codes, ElementRecord, Shared, Validity, ValueSource};
use xs_components::{Components, TypeId};
use xs_names::{NameId, Names};
use xsv_io::{Failed, Part, Sink, write_parts, write_text};

/// What is found out about an element and its attributes.
#[derive(Clone, Copy)]
pub struct Records<'a> {
    pub element: &'a ElementRecord,
    /// Those of its attributes: the given ones in document order, then those that the schema adds.
    pub attrs: &'a [Shared<AttrRecord>],
}

/// Writes what is known behind a type.
fn write_known<W: Sink>(
    sink: &mut W,
    validity: Validity,
    attempted: Attempted,
    source: ValueSource,
    found: &Codes,
) -> Result<(), Failed>
    ensures written { Written W.taken W.faults W.fault_bound sink.old sink.new result (lines.known_text validity attempted source found.now) }
{
    let validity = validity_word(validity);
    let attempted = attempted_word(attempted);
    let source = source_word(source);
    write_parts(
        sink,
        &[
            Part::Text(" "),
            Part::Text(validity),
            Part::Text(" "),
            Part::Text(attempted),
            Part::Text(" "),
            Part::Text(source),
            Part::Text(" "),
        ],
    )?;
    write_codes(sink, found.as_slice())
}

/// Writes a letter and a number, each with a space behind it.
fn write_number_of<W: Sink>(sink: &mut W, letter: &str, number: u32) -> Result<(), Failed>
    ensures written { Written W.taken W.faults W.fault_bound sink.old sink.new result (letter.now ++ codes " " ++ decimal number ++ codes " ") }
{
    write_parts(
        sink,
        &[
            Part::Text(letter),
            Part::Text(" "),
            Part::Number(number as u64),
            Part::Text(" "),
        ],
    )
}

/// Writes a type behind a space.
fn write_spaced_type<W: Sink>(
    sink: &mut W,
    names: &Names,
    parts: &Components,
    of: Option<TypeId>,
) -> Result<(), Failed>
    requires named { IfSome of (IsTypeNamed names.now parts.now) }
    ensures written { Written W.taken W.faults W.fault_bound sink.old sink.new result (codes " " ++ words.type_text names.now parts.now of) }
{
    write_text(sink, " ")?;
    write_type(sink, names, parts, of)
}

/// Writes a name and a type.
fn write_typed<W: Sink>(
    sink: &mut W,
    names: &Names,
    parts: &Components,
    name: NameId,
    of: Option<TypeId>,
) -> Result<(), Failed>
    requires named { IsNamed names.now parts.now name of }
    ensures written { Written W.taken W.faults W.fault_bound sink.old sink.new result (words.name_text names.now name ++ codes " " ++ words.type_text names.now parts.now of) }
{
    write_name(sink, names, name)?;
    write_spaced_type(sink, names, parts, of)
}

/// What is found out about an element or an attribute.
#[derive(Clone, Copy)]
struct Finding<'a> {
    name: NameId,
    of: Option<TypeId>,
    validity: Validity,
    attempted: Attempted,
    source: ValueSource,
    codes: &'a Codes,
}

/// What is found out about an element.
fn of_element(record: &ElementRecord) -> Finding<'_>
    ensures name { result.name ≡ record.now.name }
    ensures of { result.of ≡ record.now.of }
    ensures validity { result.validity ≡ record.now.validity }
    ensures attempted { result.attempted ≡ record.now.attempted }
    ensures source { result.source ≡ record.now.source }
    ensures found { result.codes.now ≡ record.now.codes }
{
    Finding {
        name: record.name,
        of: record.of,
        validity: record.validity,
        attempted: record.attempted,
        source: record.source,
        codes: &record.codes,
    }
}

/// What is found out about an attribute.
fn of_attr(record: &Shared<AttrRecord>) -> Finding<'_>
    ensures name { result.name ≡ record.now.name }
    ensures of { result.of ≡ record.now.of }
    ensures validity { result.validity ≡ record.now.validity }
    ensures attempted { result.attempted ≡ record.now.attempted }
    ensures source { result.source ≡ record.now.source }
    ensures found { result.codes.now ≡ record.now.codes }
{
    let record = record.get();
    Finding {
        name: record.name,
        of: record.of,
        validity: record.validity,
        attempted: record.attempted,
        source: record.source,
        codes: &record.codes,
    }
}

/// Writes the name, the type, and what is known.
fn write_finding<W: Sink>(
    sink: &mut W,
    names: &Names,
    parts: &Components,
    finding: &Finding<'_>,
) -> Result<(), Failed>
    requires named { IsNamed names.now parts.now finding.now.name finding.now.of }
    ensures written { Written W.taken W.faults W.fault_bound sink.old sink.new result
        (lines.record_text names.now parts.now finding.now.name finding.now.of finding.now.validity finding.now.attempted finding.now.source finding.now.codes.now) }
{
    write_typed(sink, names, parts, finding.name, finding.of)?;
    write_known(
        sink,
        finding.validity,
        finding.attempted,
        finding.source,
        finding.codes,
    )
}

/// Writes the record line of an element, by its number. The tables have its names.
///
/// # Errors
///
/// `Failed` where the sink failed; a front was then written.
pub fn write_record<W: Sink>(
    sink: &mut W,
    names: &Names,
    parts: &Components,
    number: u32,
    record: &ElementRecord,
) -> Result<(), Failed>
    requires named { IsNamed names.now parts.now record.now.name record.now.of }
    ensures written { Written W.taken W.faults W.fault_bound sink.old sink.new result (lines.element_line names.now parts.now number record.now) }
{
    let finding = of_element(record);
    write_number_of(sink, "e", number)?;
    write_finding(sink, names, parts, &finding)
}

/// Writes the record line of an attribute, by the number of its element. The tables have its names.
///
/// # Errors
///
/// `Failed` where the sink failed; a front was then written.
pub fn write_attr<W: Sink>(
    sink: &mut W,
    names: &Names,
    parts: &Components,
    number: u32,
    record: &Shared<AttrRecord>,
) -> Result<(), Failed>
    requires named { IsNamed names.now parts.now record.now.name record.now.of }
    ensures written { Written W.taken W.faults W.fault_bound sink.old sink.new result (lines.attr_line names.now parts.now number record.now) }
{
    let finding = of_attr(record);
    write_number_of(sink, "a", number)?;
    write_finding(sink, names, parts, &finding)
}

/// Writes the record lines of attributes of an element.
fn write_attrs<W: Sink>(
    sink: &mut W,
    names: &Names,
    parts: &Components,
    number: u32,
    records: &[Shared<AttrRecord>],
) -> Result<(), Failed>
    requires named { AreNamed names.now parts.now records.now }
    ensures written { Written W.taken W.faults W.fault_bound sink.old sink.new result (lines.attr_lines names.now parts.now number records.now) }
{
    let mut left = records;
    'records: while let Some((record, more)) = left.split_first() {
        write_attr(sink, names, parts, number, record)?;
        left = more;
    }
    Ok(())
}

/// Writes the record line of an element, by its number, and those of its attributes. The tables have their names.
///
/// # Errors
///
/// `Failed` where the sink failed; a front was then written.
pub fn write_records<W: Sink>(
    sink: &mut W,
    names: &Names,
    parts: &Components,
    number: u32,
    records: Records<'_>,
) -> Result<(), Failed>
    requires element { IsNamed names.now parts.now records.element.now.name records.element.now.of }
    requires attrs { AreNamed names.now parts.now records.attrs.now }
    ensures written { Written W.taken W.faults W.fault_bound sink.old sink.new result (lines.records_text names.now parts.now number records.entry.element.now records.entry.attrs.now) }
{
    write_record(sink, names, parts, number, records.element)?;
    write_attrs(sink, names, parts, number, records.attrs)
}
