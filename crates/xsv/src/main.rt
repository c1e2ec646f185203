//! Assesses a document by an XML Schema, both given as PYX lines on standard input.
#![tactic(auto)]

use command_words::WordsFault;
use std::io::{ErrorKind, LineWriter};
use std::process::ExitCode;
use std::{env, io};
use xs_names::Text;
use xsv_io::{StdSink, StdSource};
use xsv_run::{Status, run_by};
use xsv_steps::{Silent, Steps};

/// The words behind the program's name.
fn read_words(rt: &HostRuntime) -> Result<Vec<Text>, WordsFault> {
    let args = match env::args(rt) {
        Ok(args) => args,
        Err(error) if error.kind() == ErrorKind::OutOfMemory => return Err(WordsFault::Memory),
        Err(_) => return Err(WordsFault::NotText),
    };
    let mut words = Vec::new(rt.alloc());
    for word in args.skip(1) {
        let Ok(word) = Text::new(rt.alloc(), word.as_str()) else {
            return Err(WordsFault::Memory);
        };
        if words.push(word).is_err() {
            return Err(WordsFault::Memory);
        }
    }
    Ok(words)
}

fn main(rt: HostRuntime) -> ExitCode {
    // A reply is out when its line ends.
    let Ok(lines) = LineWriter::new(rt.alloc(), io::writer(&rt)) else {
        return ExitCode::from(Status::Memory.number());
    };
    let mut source = StdSource::new(rt.reader());
    let mut sink = StdSink::new(lines);
    let mut steps = Steps::new(Silent);
    let words = read_words(&rt);
    let words = match &words {
        Ok(words) => Ok(words.as_slice()),
        Err(fault) => Err(*fault),
    };
    let status = run_by(rt.alloc(), words, &mut source, &mut sink, &mut steps);
    ExitCode::from(status.number())
}
