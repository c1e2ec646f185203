use generated_stream::{KeptText, summary_of, write_summary};
use std::test::Fail;

/// The replies to a session of two edits that were made and one that was not.
const REPLIES: &[u8] =
    b"schema ok\nok 0 3\nok 1 2\nno 2 BadIndex\ne 1 list #1.2 invalid full given -\nok 2 2\nend invalid 2\n";

#[test]
fn edits_are_counted(rt: HostRuntime) -> Result<(), Fail> {
    let summary = summary_of(REPLIES);
    assert_eq!(rt; summary.accepted, 2);
    assert_eq!(rt; summary.refused, 1);
    assert_eq!(rt; summary.end, b"end invalid 2".as_slice());
    let mut kept = KeptText::new(rt.alloc());
    assert!(rt; write_summary(&mut kept, 41, &summary).is_ok());
    assert_eq!(rt;
        kept.text.as_slice(),
        b"lines 41\naccepted 2 refused 1\nend invalid 2\n".as_slice()
    );
    Ok(())
}

#[test]
fn a_refused_schema_has_no_edits(rt: HostRuntime) -> Result<(), Fail> {
    let summary = summary_of(b"schema refused 1 3 cos-nonambig\n");
    assert_eq!(rt; summary.accepted, 0);
    assert_eq!(rt; summary.refused, 0);
    assert!(rt; summary.end.is_empty());
    Ok(())
}
