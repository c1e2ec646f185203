use command_words::{Request, Task, read_words};
use std::alloc::{AllocError, Global};
use std::test::Fail;
use xs_names::Text;

/// Words with a space between two, and what they ask for.
const ACCEPTED: [(&str, Request); 16] = [
    ("check", Request::Read(Task::Check, 100)),
    ("assess", Request::Read(Task::Assess, 100)),
    ("session", Request::Read(Task::Session, 100)),
    ("session --max-errors 0", Request::Read(Task::Session, 0)),
    ("--max-errors 7 session", Request::Read(Task::Session, 7)),
    ("--max-errors=7 check", Request::Read(Task::Check, 7)),
    ("assess --max-errors=007", Request::Read(Task::Assess, 7)),
    (
        "check --max-errors 4294967295",
        Request::Read(Task::Check, 4_294_967_295),
    ),
    (
        "check --max-errors 00000000000000000009",
        Request::Read(Task::Check, 9),
    ),
    ("generate 0 1", Request::Generate(0, 1)),
    ("generate 7 100000", Request::Generate(7, 100_000)),
    (
        "generate 18446744073709551615 2",
        Request::Generate(18_446_744_073_709_551_615, 2),
    ),
    ("trial 0 1", Request::Trial(0, 1)),
    ("trial 0005 007", Request::Trial(5, 7)),
    (
        "trial 99999999999999 100",
        Request::Trial(99_999_999_999_999, 100),
    ),
    ("generate 1 00001", Request::Generate(1, 1)),
];

const REFUSED: [&str; 31] = [
    "",
    "Check",
    "assess x",
    "check check",
    "check assess session",
    "generate",
    "generate 1",
    "generate 1 0",
    "generate 1 100001",
    "generate 18446744073709551616 1",
    "generate 000000000000000000001 1",
    "generate +1 1",
    "generate -1 1",
    "generate 1 2 3",
    "trial x 1",
    "trial 1 x",
    "generate 1 1 --max-errors 5",
    "--max-errors=5 generate 1 1",
    "--max-errors",
    "--max-errors 5",
    "--max-errors=5",
    "check --max-errors",
    "check --max-errors=",
    "check --max-errors=x",
    "check --max-errors 4294967296",
    "check --max-errors 000000000000000000009",
    "check --max-errors=1 --max-errors=1",
    "--max-errors 1 check --max-errors 1",
    "--max-errors --max-errors check",
    "check --max-error 5",
    "--help",
];

fn words_of(alloc: Global, line: &str) -> Result<Vec<Text>, AllocError> {
    let mut words = Vec::new(alloc);
    for word in line.split(' ') {
        words.push(Text::new(alloc, word)?)?;
    }
    Ok(words)
}

#[test]
fn accepts_the_words_of_the_grammar(rt: HostRuntime) -> Result<(), Fail> {
    for (line, request) in ACCEPTED {
        let words = words_of(rt.alloc(), line)?;
        assert!(rt; read_words(rt.alloc(), &words)? == Some(request));
    }
    Ok(())
}

#[test]
fn refuses_other_words(rt: HostRuntime) -> Result<(), Fail> {
    for line in REFUSED {
        let words = words_of(rt.alloc(), line)?;
        assert!(rt; read_words(rt.alloc(), &words)?.is_none());
    }
    let none: Vec<Text> = Vec::new(rt.alloc());
    assert!(rt; read_words(rt.alloc(), &none)?.is_none());
    Ok(())
}
