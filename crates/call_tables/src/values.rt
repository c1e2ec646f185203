//! A table of decimals, moments and durations: what each line comes to.
//!
//! A line of the input is `TYPE|LITERAL`, and its answer the value or the fault; or it is `TYPE|LITERAL|LITERAL`, and its answer
//! how the first stands to the second, and the second to the first.

use dec_value::Dec;
use std::io;
use time_value::{Moment, MomentKind, Span};

/// The type of a line's literals.
#[derive(Clone, Copy)]
enum Type {
    Decimal,
    Moment(MomentKind),
    Duration,
}

/// The type of this name (Datatypes 3.2).
fn type_named(name: &str) -> Option<Type> {
    let types = [
        ("decimal", Type::Decimal),
        ("dateTime", Type::Moment(MomentKind::DateTime)),
        ("date", Type::Moment(MomentKind::Date)),
        ("time", Type::Moment(MomentKind::Time)),
        ("gYearMonth", Type::Moment(MomentKind::YearMonth)),
        ("gYear", Type::Moment(MomentKind::Year)),
        ("gMonthDay", Type::Moment(MomentKind::MonthDay)),
        ("gDay", Type::Moment(MomentKind::Day)),
        ("gMonth", Type::Moment(MomentKind::Month)),
        ("duration", Type::Duration),
    ];
    for (each, named) in types {
        if each == name {
            return Some(named);
        }
    }
    None
}

/// Writes the digits of a decimal, those behind the point, and the number if it is an integer.
fn write_decimal(rt: &impl Print, literal: &str) -> io::Result<()> {
    match Dec::read(literal) {
        Ok(value) => {
            let (all, behind) = (value.total_digits(), value.fraction_digits());
            match value.as_integer() {
                Some(integer) => println!(rt; "{all} digits, {behind} behind the point: {integer}"),
                None => println!(rt; "{all} digits, {behind} behind the point"),
            }
        }
        Err(fault) => println!(rt; "{fault:?}"),
    }
}

/// Writes whether a moment has a zone, and its nanoseconds from 1970-01-01T00:00:00Z.
fn write_moment(rt: &impl Print, kind: MomentKind, literal: &str) -> io::Result<()> {
    match Moment::read(kind, literal) {
        Ok(moment) => {
            let (zoned, nanoseconds) = moment.key();
            let zone = if zoned { "zoned" } else { "local" };
            println!(rt; "{zone} {nanoseconds}")
        }
        Err(fault) => println!(rt; "{fault:?}"),
    }
}

/// Writes the months and the nanoseconds of a duration.
fn write_duration(rt: &impl Print, literal: &str) -> io::Result<()> {
    match Span::read(literal) {
        Ok(span) => {
            let (months, nanoseconds) = span.key();
            println!(rt; "{months} months, {nanoseconds} nanoseconds")
        }
        Err(fault) => println!(rt; "{fault:?}"),
    }
}

/// Writes how two values stand to each other, and back.
fn write_order(rt: &impl Print, literals: Type, first: &str, second: &str) -> io::Result<()> {
    match literals {
        Type::Decimal => match (Dec::read(first), Dec::read(second)) {
            (Ok(a), Ok(b)) => println!(rt; "{:?} {:?}", a.cmp(&b), b.cmp(&a)),
            _ => println!(rt; "no two values"),
        },
        Type::Moment(kind) => match (Moment::read(kind, first), Moment::read(kind, second)) {
            (Ok(a), Ok(b)) => println!(rt; "{:?} {:?}", a.compare(&b), b.compare(&a)),
            _ => println!(rt; "no two values"),
        },
        Type::Duration => match (Span::read(first), Span::read(second)) {
            (Ok(a), Ok(b)) => println!(rt; "{:?} {:?}", a.compare(&b), b.compare(&a)),
            _ => println!(rt; "no two values"),
        },
    }
}

/// Writes the answer to a line.
fn answer(rt: &impl Print, line: &str) -> io::Result<()> {
    let Some((name, literals)) = line.split_once('|') else {
        return println!(rt; "no bar");
    };
    let Some(named) = type_named(name) else {
        return println!(rt; "no type");
    };
    if let Some((first, second)) = literals.split_once('|') {
        return write_order(rt, named, first, second);
    }
    match named {
        Type::Decimal => write_decimal(rt, literals),
        Type::Moment(kind) => write_moment(rt, kind, literals),
        Type::Duration => write_duration(rt, literals),
    }
}

/// Writes a line, and the answer to it.
pub fn write_answer(rt: &impl Print, line: &str) -> io::Result<()> {
    print!(rt; "{line}: ")?;
    answer(rt, line)
}
