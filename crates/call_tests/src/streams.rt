ghost use Rattle.std.specs.Prelude.{◌≤◌};

use generated_stream::{GeneratedSource, KeptText, generate_stream, generated_lines};
use std::alloc::Global;
use std::process::Abort;
use std::test::Fail;
use xsv_io::Source;

/// The end of the stream of 0 with one item: its value is drawn from the number alone.
const LAST_LINES: &[u8] = b"document\n(list\n(item\nAv 48575\n)item\n)list\nedits\nend\n";

#[test]
fn one_item_and_no_edit(rt: HostRuntime) -> Result<(), Fail> {
    let mut kept = KeptText::new(rt.alloc());
    assert!(rt; generate_stream(0, 1, &mut kept).is_ok());
    assert!(rt; kept.text.starts_with(b"schema\tgen\n(xs:schema\n"));
    assert!(rt; kept.text.ends_with(LAST_LINES));
    assert_eq!(rt; generated_lines(0, 1), 30);
    Ok(())
}

fn count_lines(text: &[u8]) -> u64 {
    let mut lines = 0u64;
    for byte in text {
        if *byte == b'\n' {
            lines = lines.wrapping_add(1);
        }
    }
    lines
}

/// Reads seven bytes at a time, and sees that they are what is left of a text.
fn compare<A: Abort>(rt: &A, source: &mut GeneratedSource, text: &[u8]) {
    let mut left = text;
    let mut buffer = [0u8; 7];
    for _ in 0..text.len() {
        let Ok(count) = source.read(&mut buffer) else {
            panic!(rt; "no memory");
        };
        let Some(front) = buffer.get(..count) else {
            panic!(rt; "more than there is room for");
        };
        assert!(rt; left.starts_with(front));
        left = left.get(count..).unwrap_or(&[]);
        if count == 0 {
            break;
        }
    }
    assert!(rt; left.is_empty());
    assert!(rt; source.read(&mut buffer) == Ok(0));
}

fn compare_streams<A: Abort>(rt: &A, alloc: Global, number: u64, count: u32)
    requires { 1 ≤ count }
{
    let mut kept = KeptText::new(alloc);
    assert!(rt; generate_stream(number, count, &mut kept).is_ok());
    assert!(rt; generated_lines(number, count) == count_lines(&kept.text));
    let mut source = GeneratedSource::new(alloc, number, count);
    compare(rt, &mut source, &kept.text);
}

#[test]
fn a_source_gives_what_a_sink_takes(rt: HostRuntime) {
    compare_streams(&rt, rt.alloc(), 7, 40);
}
