//! Lines of symbols.

ghost use Rattle.std.specs.Prelude.{◌++◌, codes};
ghost use Rattle.xsv_io.specs.Written.{Written};
ghost use Rattle.kept_next.specs.Next.{IsNamed, name_text, symbol_text, next_line};
ghost use Rattle.kept_next.specs.declared.symbol.SymbolName.TheVariants.{Name, Namespace};

use crate::{Fit, SymbolName};
use xs_names::{NameId, Names, NsId};
use xsv_io::{Failed, Part, Sink, write_parts};

/// Writes the line of a name, up to its end.
fn write_name<'a, W: Sink>(
    sink: &mut W,
    names: &'a Names,
    name: NameId,
    end: &'a str,
) -> Result<(), Failed>
    requires named { IsNamed names.now (Name name) }
    ensures written { Written W.taken W.faults W.fault_bound sink.old sink.new result (codes "n " ++ name_text names.now name ++ end.now) }
{
    let local = names.local(name);
    match names.ns_text(names.ns(name)) {
        None => write_parts(
            sink,
            &[Part::Text("n "), Part::Escaped(local), Part::Text(end)],
        ),
        Some(space) => write_parts(
            sink,
            &[
                Part::Text("n {"),
                Part::Escaped(space),
                Part::Text("}"),
                Part::Escaped(local),
                Part::Text(end),
            ],
        ),
    }
}

/// Writes the line of the names of a namespace, up to its end.
fn write_space<'a, W: Sink>(
    sink: &mut W,
    names: &'a Names,
    space: NsId,
    end: &'a str,
) -> Result<(), Failed>
    requires named { IsNamed names.now (Namespace space) }
    ensures written { Written W.taken W.faults W.fault_bound sink.old sink.new result (codes "n " ++ symbol_text names.now (Namespace space) ++ end.now) }
{
    match names.ns_text(space) {
        None => write_parts(sink, &[Part::Text("n {}*"), Part::Text(end)]),
        Some(space) => write_parts(
            sink,
            &[
                Part::Text("n {"),
                Part::Escaped(space),
                Part::Text("}*"),
                Part::Text(end),
            ],
        ),
    }
}

/// Writes the line of a symbol, up to its end.
fn write_symbol<'a, W: Sink>(
    sink: &mut W,
    names: &'a Names,
    symbol: SymbolName,
    end: &'a str,
) -> Result<(), Failed>
    requires named { IsNamed names.now symbol }
    ensures written { Written W.taken W.faults W.fault_bound sink.old sink.new result (codes "n " ++ symbol_text names.now symbol ++ end.now) }
{
    match symbol {
        SymbolName::Name(name) => write_name(sink, names, name, end),
        SymbolName::Namespace(space) => write_space(sink, names, space, end),
        SymbolName::Other => write_parts(sink, &[Part::Text("n *"), Part::Text(end)]),
    }
}

/// Writes the line of a symbol, where it fits.
pub(crate) fn write_line<W: Sink>(
    sink: &mut W,
    names: &Names,
    symbol: SymbolName,
    fit: Fit,
) -> Result<(), Failed>
    requires named { IsNamed names.now symbol }
    ensures written { Written W.taken W.faults W.fault_bound sink.old sink.new result (next_line names.now symbol fit) }
{
    match fit {
        Fit::No => Ok(()),
        Fit::Prefix => write_symbol(sink, names, symbol, " prefix\n"),
        Fit::Word => write_symbol(sink, names, symbol, " word\n"),
    }
}
