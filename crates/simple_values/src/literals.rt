//! The literals of atomic types, once their white space is treated.
ghost use Rattle.std.specs.Prelude.{◌≡◌, IfOk};
ghost use Rattle.simple_values.specs.Literals as spec;

use crate::language::is_language;
use crate::numbers::{read_decimal, read_integer};
use crate::{Atom, Characters, ExpandedName, Grammar, Octets, ValueFault, read_base64, read_hex};
use dec_value::Dec;
use std::alloc::{AllocError, Global};
use time_value::{Moment, MomentKind, Span, TimeFault};
use xs_names::{Scope, is_name, is_ncname, is_nmtoken, split_qname};

/// The value of a literal, or why it has none.
pub type Reading = Result<Atom, ValueFault>;

/// What the text reads to as a literal of this grammar.
pub fn read_atom(
    alloc: Global,
    grammar: Grammar,
    text: &str,
    scope: &Scope,
) -> Result<Reading, AllocError>
    ensures { IfOk result (λ read. read ≡ spec.atom_value grammar scope.now text.now) }
{
    match grammar {
        Grammar::Untyped => Ok(Ok(Atom::Untyped(Characters::new(alloc, text)?))),
        Grammar::Text => read_text(alloc, true, text),
        Grammar::Uri => Ok(Ok(Atom::Uri(Characters::new(alloc, text)?))),
        Grammar::Language => read_text(alloc, is_language(text), text),
        Grammar::Name => read_text(alloc, is_name(text), text),
        Grammar::NmToken => read_text(alloc, is_nmtoken(text), text),
        Grammar::NcName => read_text(alloc, is_ncname(text), text),
        Grammar::QName => read_name(alloc, text, scope),
        Grammar::Boolean => Ok(read_boolean(text)),
        Grammar::Decimal => Ok(number(read_decimal(text))),
        Grammar::Integer => Ok(number(read_integer(text))),
        Grammar::Hex => Ok(hex(read_hex(alloc, text)?)),
        Grammar::Base64 => Ok(base64(read_base64(alloc, text)?)),
        Grammar::Moment(kind) => Ok(read_moment(kind, text)),
        Grammar::Duration => Ok(read_duration(text)),
    }
}

// The text as a string, where it is a literal.
fn read_text(alloc: Global, is_literal: bool, text: &str) -> Result<Reading, AllocError>
    ensures { IfOk result (λ read. read ≡ spec.text_where is_literal text.now) }
{
    if is_literal {
        Ok(Ok(Atom::Text(Characters::new(alloc, text)?)))
    } else {
        Ok(Err(ValueFault::NotLexical))
    }
}

// The name that a QName stands for in the scope.
fn read_name(alloc: Global, text: &str, scope: &Scope) -> Result<Reading, AllocError>
    ensures { IfOk result (λ read. read ≡ spec.name_value scope.now text.now) }
{
    let Ok((prefix, local)) = split_qname(text) else {
        return Ok(Err(ValueFault::NotLexical));
    };
    match scope.resolve(prefix) {
        Ok(namespace) => {
            let local = Characters::new(alloc, local)?;
            Ok(Ok(Atom::Name(ExpandedName { namespace, local })))
        }
        Err(_) => Ok(Err(ValueFault::NotLexical)),
    }
}

fn read_boolean(text: &str) -> Reading
    ensures { result ≡ spec.boolean_value text.now }
{
    if text == "true" || text == "1" {
        Ok(Atom::Boolean(true))
    } else if text == "false" || text == "0" {
        Ok(Atom::Boolean(false))
    } else {
        Err(ValueFault::NotLexical)
    }
}

fn number(read: Result<Dec, ValueFault>) -> Reading
    ensures { result ≡ spec.number read }
{
    match read {
        Ok(number) => Ok(Atom::Number(number)),
        Err(fault) => Err(fault),
    }
}

fn hex(read: Option<Octets>) -> Reading
    ensures { result ≡ spec.hex read }
{
    match read {
        Some(octets) => Ok(Atom::Hex(octets)),
        None => Err(ValueFault::NotLexical),
    }
}

fn base64(read: Option<Octets>) -> Reading
    ensures { result ≡ spec.base64 read }
{
    match read {
        Some(octets) => Ok(Atom::Base64(octets)),
        None => Err(ValueFault::NotLexical),
    }
}

fn read_moment(kind: MomentKind, text: &str) -> Reading
    ensures { result ≡ spec.moment_value kind text.now }
{
    match Moment::read(kind, text) {
        Ok(moment) => Ok(Atom::Instant { kind, moment }),
        Err(fault) => Err(time_fault(fault)),
    }
}

fn read_duration(text: &str) -> Reading
    ensures { result ≡ spec.duration_value text.now }
{
    match Span::read(text) {
        Ok(span) => Ok(Atom::Duration(span)),
        Err(fault) => Err(time_fault(fault)),
    }
}

fn time_fault(fault: TimeFault) -> ValueFault
    ensures { result ≡ spec.time_fault fault }
{
    match fault {
        TimeFault::NotLexical => ValueFault::NotLexical,
        TimeFault::NoSuchDate => ValueFault::NotLexical,
        TimeFault::OutOfRange => ValueFault::Limit,
    }
}
