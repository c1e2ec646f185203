//! Answers tables of calls that the program does not make, a line each. The first word of a line says of which table it is.
#![tactic(auto)]

mod escapes;
mod literals;
mod namespaces;
mod paths;
mod patterns;
mod shown;
mod values;

use crate::namespaces::Spaces;
use std::alloc::{AllocError, Global};
use std::io;
use xs_names::Scope;

/// The answer to a line, of any table but that of values.
fn answer(
    alloc: Global,
    scope: &Scope,
    spaces: &Spaces,
    table: &str,
    line: &str,
) -> Result<String, AllocError> {
    if table == "literal" {
        return literals::answer(alloc, line, scope);
    }
    if table == "pattern" {
        return patterns::answer(alloc, line);
    }
    if table == "path" {
        return paths::answer(alloc, line);
    }
    namespaces::answer(alloc, spaces, line)
}

/// Writes the answer to a line.
fn write_answer(
    rt: &impl Print,
    alloc: Global,
    scope: &Scope,
    spaces: &Spaces,
    line: &str,
) -> io::Result<()> {
    let Some((table, line)) = line.split_once(' ') else {
        return println!(rt; "no table");
    };
    if table == "value" {
        return values::write_answer(rt, line);
    }
    let text = answer(alloc, scope, spaces, table, line)?;
    if table == "namespace" {
        return println!(rt; "{line} = {text}");
    }
    println!(rt; "{text}")
}

fn main(rt: HostRuntime) -> io::Result<()> {
    let alloc = rt.alloc();
    let scope = literals::table_scope(alloc)?;
    let spaces = Spaces::new(alloc)?;
    for line in rt.lines(alloc) {
        write_answer(&rt, alloc, &scope, &spaces, line?.as_str())?;
    }
    Ok(())
}
