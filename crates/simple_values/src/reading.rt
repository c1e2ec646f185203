//! From a text to a value.
ghost use Rattle.std.specs.Prelude.{◌≡◌, IfOk};
ghost use Rattle.xs_names.specs.WhiteSpace.{normalized};
ghost use Rattle.xs_names.specs.declared.handling.WhiteSpace.{WhiteSpace};
ghost use Rattle.simple_values.specs.Grammar.{white_space_of};
ghost use Rattle.simple_values.specs.Reading as spec;

use crate::grammar::{grammar_of, item_type, white_space_of};
use crate::literals::read_atom;
use crate::{Atoms, TypedAtom, Value, ValueFault};
use std::alloc::{AllocError, Global};
use xs_codes::Builtin;
use xs_names::{Scope, items, normalized};

/// What a text reads to, or why it has no value.
pub type ReadValue = Result<Value, ValueFault>;

/// The value of a text as a literal of a built-in type, once its white space is treated as the type does (Datatypes 3.2
/// and 3.3). The scope gives the namespaces of prefixes. The bounds of the types of integers are facets, and not looked at.
///
/// # Errors
///
/// [`ValueFault::NotLexical`] where the text is no literal of the type, else [`ValueFault::Limit`] where its value is past
/// the limits on decimals, dates and durations. Of a list the first item that is not valid decides. Texts and lists of
/// more than 4,294,967,295 bytes or items are answered as want of memory.
pub fn read_builtin(
    alloc: Global,
    kind: Builtin,
    text: &str,
    scope: &Scope,
) -> Result<ReadValue, AllocError>
    ensures { IfOk result (λ read. read ≡ spec.value_of kind scope.now text.now) }
{
    match item_type(kind) {
        None => {
            let treated = normalized(alloc, white_space_of(kind), text)?;
            read_atomic(alloc, kind, treated.as_str(), scope)
        }
        Some(item) => read_list(alloc, item, text, scope),
    }
}

/// The same of a text whose white space has been treated, by the type's way or by a stronger one, as a type derived from
/// it may ask for (Datatypes 4.3.6): it is not treated once more.
///
/// # Errors
///
/// As those of [`read_builtin`].
pub fn read_normalized(
    alloc: Global,
    kind: Builtin,
    text: &str,
    scope: &Scope,
) -> Result<ReadValue, AllocError>
    ensures value { IfOk result (λ read. read ≡ spec.literal_value kind scope.now text.now) }
    ensures treated { IfOk result (λ read. normalized (white_space_of kind) text.now ≡ text.now → read ≡ spec.value_of kind scope.now text.now) }
{
    match item_type(kind) {
        None => read_atomic(alloc, kind, text, scope),
        Some(item) => read_list(alloc, item, text, scope),
    }
}

// The value of a text as a literal of an atomic type.
fn read_atomic(
    alloc: Global,
    kind: Builtin,
    text: &str,
    scope: &Scope,
) -> Result<ReadValue, AllocError>
    ensures { IfOk result (λ read. read ≡ spec.atomic_value kind scope.now text.now) }
{
    match read_atom(alloc, grammar_of(kind), text, scope)? {
        Ok(atom) => Ok(Ok(Value::Atom {
            builtin: kind,
            atom,
        })),
        Err(fault) => Ok(Err(fault)),
    }
}

// The value of a text as a list with at least one item, the same however its white space is treated.
fn read_list(
    alloc: Global,
    item: Builtin,
    text: &str,
    scope: &Scope,
) -> Result<ReadValue, AllocError>
    ensures value { IfOk result (λ read. read ≡ spec.list_value item scope.now text.now) }
    ensures treated { IfOk result (λ read. (handling : WhiteSpace) → read ≡ spec.list_value item scope.now (normalized handling text.now)) }
{
    let texts = items(alloc, text)?;
    if texts.is_empty() {
        return Ok(Err(ValueFault::NotLexical));
    }
    let mut atoms = Atoms::new(alloc);
    let found = texts.as_slice();
    for text in found {
        match read_atom(alloc, grammar_of(item), text.as_str(), scope)? {
            Ok(atom) => atoms.push(TypedAtom {
                builtin: item,
                atom,
            })?,
            Err(fault) => return Ok(Err(fault)),
        }
    }
    Ok(Ok(Value::List(atoms)))
}
