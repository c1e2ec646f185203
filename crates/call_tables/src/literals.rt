//! The answer to a line of the table.
use crate::escapes::{decoded, encoded};
use crate::shown::shown;
use simple_values::{Value, ValueFault, builtin_named, length, less, read_builtin, same};
use std::alloc::{AllocError, Global};
use xs_names::{Names, Scope, Text};

/// The scope of the table: `p` is bound to the second namespace, and the default namespace is the third.
pub fn table_scope(alloc: Global) -> Result<Scope, AllocError> {
    match Names::new(alloc) {
        Ok(mut names) => scope_of(alloc, &mut names),
        Err(error) => Err(error),
    }
}

fn scope_of(alloc: Global, names: &mut Names) -> Result<Scope, AllocError> {
    let second = names.namespace_id("urn:second")?;
    let third = names.namespace_id("urn:third")?;
    let mut scope = Scope::new(alloc)?;
    scope.bind(&Text::new(alloc, "p")?, second)?;
    scope.bind(&Text::new(alloc, "")?, third)?;
    Ok(scope)
}

/// What stands behind the question of a line, which has the kind, the types and the literals between tabs.
pub fn answer(alloc: Global, line: &str, scope: &Scope) -> Result<String, AllocError> {
    let Some((kind, rest)) = line.split_once('\t') else {
        return String::from_str(alloc, "no question");
    };
    let Some((types, escaped)) = rest.split_once('\t') else {
        return String::from_str(alloc, "no type");
    };
    let literals = decoded(alloc, escaped)?;
    match kind {
        "read" => read_answer(alloc, types, literals.as_str(), scope),
        "pair" => pair_answer(alloc, types, literals.as_str(), scope),
        "length" => length_answer(alloc, types, literals.as_str(), scope),
        _ => String::from_str(alloc, "no kind"),
    }
}

// What the type with this name reads the literal to.
fn read_named(
    alloc: Global,
    name: &str,
    literal: &str,
    scope: &Scope,
) -> Result<Result<Value, ValueFault>, AllocError> {
    match builtin_named(name) {
        Some(kind) => read_builtin(alloc, kind, literal, scope),
        None => Ok(Err(ValueFault::NotLexical)),
    }
}

fn read_answer(
    alloc: Global,
    name: &str,
    literal: &str,
    scope: &Scope,
) -> Result<String, AllocError> {
    let plain = match read_named(alloc, name, literal, scope) {
        Ok(read) => shown(alloc, &read)?,
        Err(error) => return Err(error),
    };
    encoded(alloc, plain.as_str())
}

fn length_answer(
    alloc: Global,
    name: &str,
    literal: &str,
    scope: &Scope,
) -> Result<String, AllocError> {
    match read_named(alloc, name, literal, scope)? {
        Ok(value) => length_shown(alloc, length(&value)),
        Err(_) => String::from_str(alloc, "no value"),
    }
}

fn length_shown(alloc: Global, length: Option<u32>) -> Result<String, AllocError> {
    match length {
        Some(length) => format!(in alloc; "{length}"),
        None => String::from_str(alloc, "-"),
    }
}

fn pair_answer(
    alloc: Global,
    names: &str,
    literals: &str,
    scope: &Scope,
) -> Result<String, AllocError> {
    let (Some((left, right)), Some((first, second))) = (
        names.split_once(','),
        literals.split_once('~'),
    ) else {
        return String::from_str(alloc, "no pair");
    };
    match read_named(alloc, left, first, scope)? {
        Ok(a) => second_answer(alloc, &a, right, second, scope),
        Err(_) => String::from_str(alloc, "no first value"),
    }
}

// How the first value of a pair stands to the second, which is read here.
fn second_answer(
    alloc: Global,
    a: &Value,
    name: &str,
    literal: &str,
    scope: &Scope,
) -> Result<String, AllocError> {
    match read_named(alloc, name, literal, scope)? {
        Ok(b) => String::from_str(alloc, standing(a, &b)),
        Err(_) => String::from_str(alloc, "no second value"),
    }
}

// How two values stand, also with their sides exchanged.
fn standing(a: &Value, b: &Value) -> &'static str {
    if same(a, b) != same(b, a) {
        return "the same on one side";
    }
    match (same(a, b), less(a, b), less(b, a)) {
        (true, Some(false), Some(false)) => "same",
        (true, None, None) => "equal",
        (false, Some(true), Some(false)) => "less",
        (false, Some(false), Some(true)) => "not",
        (false, None, None) => "none",
        _ => "no order",
    }
}
