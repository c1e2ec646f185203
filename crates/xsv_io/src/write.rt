ghost use Rattle.std.specs.Prelude.{◌≡◌, [], ◌∷◌, decimal, MatchOption};
ghost use Rattle.std.specs.List.{list_all};
ghost use Rattle.xsv_io.specs.Escaping as spec;
ghost use Rattle.xsv_io.specs.Escaping.{escape, escaped};
ghost use Rattle.xsv_io.specs.Parts.{part_text, parts_text};
ghost use Rattle.xsv_io.specs.Written.{Written};

use crate::{Failed, Part, Sink, write_whole};
use itoa::Buffer;
use std::slice;

/// Writes a text as it stands.
///
/// # Errors
///
/// `Failed` where the sink failed; a front was then written.
pub fn write_text<W: Sink>(sink: &mut W, text: &str) -> Result<(), Failed>
    ensures written { Written W.taken W.faults W.fault_bound sink.old sink.new result text.now }
{
    write_whole(sink, text.as_bytes())
}

/// Writes a number in decimal digits.
///
/// # Errors
///
/// `Failed` where the sink failed; a front was then written.
pub fn write_number<W: Sink>(sink: &mut W, number: u64) -> Result<(), Failed>
    ensures written { Written W.taken W.faults W.fault_bound sink.old sink.new result (decimal number) }
{
    let mut buffer = Buffer::new();
    write_whole(sink, buffer.format(number).as_bytes())
}

/// The escape of a byte that has one.
fn escape_of(byte: u8) -> Option<&'static [u8]>
    ensures { MatchOption result (escape byte ≡ byte ∷ []) (λ e. e.now ≡ escape byte) }
{
    match byte {
        b'\\' => Some(b"\\\\"),
        b'\n' => Some(b"\\n"),
        b'\t' => Some(b"\\t"),
        b'\r' => Some(b"\\r"),
        _ => None,
    }
}

/// Writes a byte, or its escape.
fn write_byte<W: Sink>(sink: &mut W, byte: &u8) -> Result<(), Failed>
    ensures written { Written W.taken W.faults W.fault_bound sink.old sink.new result (escape byte.now) }
{
    match escape_of(*byte) {
        Some(escape) => write_whole(sink, escape),
        None => write_whole(sink, slice::from_ref(byte)),
    }
}

/// Whether no byte has an escape.
fn is_plain(bytes: &[u8]) -> bool
    ensures { result ≡ list_all spec.is_plain bytes.now }
{
    bytes.iter().all(|b| *b != b'\\' && *b != b'\n' && (*b != b'\t' && *b != b'\r'))
}

/// Writes a text in which a backslash, a line feed, a tab and a carriage return are written as `\\`, `\n`, `\t` and `\r`.
///
/// # Errors
///
/// `Failed` where the sink failed; a front was then written.
#[tactic(auto, using(crate::proofs::Fronts::front_at, crate::proofs::EscapeLaws::plain_text))]
pub fn write_escaped<W: Sink>(sink: &mut W, text: &str) -> Result<(), Failed>
    ensures written { Written W.taken W.faults W.fault_bound sink.old sink.new result (escaped text.now) }
{
    let bytes = text.as_bytes();
    if is_plain(bytes) {
        return write_whole(sink, bytes);
    }
    for byte in bytes {
        write_byte(sink, byte)?;
    }
    Ok(())
}

/// Writes a part.
fn write_part<W: Sink>(sink: &mut W, part: &Part) -> Result<(), Failed>
    ensures written { Written W.taken W.faults W.fault_bound sink.old sink.new result (part_text part.now) }
{
    match part {
        Part::Text(text) => write_text(sink, text),
        Part::Escaped(text) => write_escaped(sink, text),
        Part::Number(number) => write_number(sink, *number),
    }
}

/// Writes parts, one after another.
///
/// # Errors
///
/// `Failed` where the sink failed; a front was then written.
#[tactic(auto, using(crate::proofs::Fronts::front_at))]
pub fn write_parts<W: Sink>(sink: &mut W, parts: &[Part]) -> Result<(), Failed>
    ensures written { Written W.taken W.faults W.fault_bound sink.old sink.new result (parts_text parts.now) }
{
    for part in parts {
        write_part(sink, part)?;
    }
    Ok(())
}
