//! Values as the table writes them.
use dec_value::Dec;
use simple_values::{Atom, ExpandedName, TypedAtom, Value, ValueFault};
use std::alloc::{AllocError, Global};
use time_value::{Moment, Span};

fn shown_octets(alloc: Global, mark: char, octets: &[u8]) -> Result<String, AllocError> {
    let mut shown = String::new(alloc);
    shown.push(mark)?;
    for octet in octets {
        let octet = *octet;
        write!(shown, "{octet} ")?;
    }
    Ok(shown)
}

fn shown_text(alloc: Global, before: &str, text: &str, after: &str) -> Result<String, AllocError> {
    format!(in alloc; "{before}{text}{after}")
}

fn shown_number(alloc: Global, number: &Dec) -> Result<String, AllocError> {
    match number.as_integer() {
        Some(integer) => format!(in alloc; "{integer}"),
        None => {
            let digits = number.total_digits();
            let places = number.fraction_digits();
            format!(in alloc; "{digits}/{places}")
        }
    }
}

fn shown_moment(alloc: Global, moment: &Moment) -> Result<String, AllocError> {
    let (zoned, nanoseconds) = moment.key();
    let mark = if zoned { 'Z' } else { 'L' };
    format!(in alloc; "{mark}{nanoseconds}")
}

fn shown_span(alloc: Global, span: &Span) -> Result<String, AllocError> {
    let (months, nanoseconds) = span.key();
    format!(in alloc; "{months}m{nanoseconds}n")
}

fn shown_name(alloc: Global, name: &ExpandedName) -> Result<String, AllocError> {
    let number = name.namespace.number();
    let local = name.local.as_str();
    format!(in alloc; "{number}:{local}")
}

fn shown_atom(alloc: Global, atom: &Atom) -> Result<String, AllocError> {
    match atom {
        Atom::Untyped(text) => shown_text(alloc, "?", text.as_str(), ""),
        Atom::Text(text) => shown_text(alloc, "'", text.as_str(), "'"),
        Atom::Uri(text) => shown_text(alloc, "<", text.as_str(), ">"),
        Atom::Name(name) => shown_name(alloc, name),
        Atom::Boolean(true) => String::from_str(alloc, "true"),
        Atom::Boolean(false) => String::from_str(alloc, "false"),
        Atom::Number(number) => shown_number(alloc, number),
        Atom::Hex(octets) => shown_octets(alloc, '#', octets.as_slice()),
        Atom::Base64(octets) => shown_octets(alloc, '=', octets.as_slice()),
        Atom::Instant { moment, .. } => shown_moment(alloc, moment),
        Atom::Duration(span) => shown_span(alloc, span),
    }
}

fn shown_items(alloc: Global, items: &[TypedAtom]) -> Result<String, AllocError> {
    let mut shown = String::from_str(alloc, "[")?;
    for item in items {
        if shown.as_str() != "[" {
            shown.push(',')?;
        }
        let atom = shown_atom(alloc, &item.atom)?;
        shown.push_str(atom.as_str())?;
    }
    shown.push(']')?;
    Ok(shown)
}

/// `!` for no literal, `limit` past the limits, else the value: texts in quotation marks, or behind `?` where they are of
/// `anySimpleType`, URIs in angle brackets, names behind the number of their namespace, numbers that are no integers as their
/// digits and those behind the point, octets behind `#` or `=`, moments behind `Z` or `L` (with a zone or without) in
/// nanoseconds, durations in months and nanoseconds, lists in brackets.
pub fn shown(alloc: Global, read: &Result<Value, ValueFault>) -> Result<String, AllocError> {
    match read {
        Ok(Value::Atom { atom, .. }) => shown_atom(alloc, atom),
        Ok(Value::List(items)) => shown_items(alloc, items.as_slice()),
        Err(ValueFault::NotLexical) => String::from_str(alloc, "!"),
        Err(ValueFault::Limit) => String::from_str(alloc, "limit"),
    }
}
