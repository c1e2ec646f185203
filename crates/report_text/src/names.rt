ghost use Rattle.std.specs.Prelude.{◌≡◌, ◌++◌, Some, slice_get, IfSome, codes};
ghost use Rattle.simple_values.specs.Builtins.{name_of as name_in};
ghost use Rattle.xs_components.specs.declared.common.TypeId.TheVariants.{Simple, Complex};
ghost use Rattle.xsv_io.specs.Escaping.{escaped};
ghost use Rattle.xsv_io.specs.Written.{Written};
ghost use Rattle.xs_names.specs.Names.{space_of};
ghost use Rattle.report_text.specs.Named.{IsName, IsTypeNamed};
ghost use Rattle.report_text.specs.Words as words;

use simple_values::name_of;
use xs_codes::Builtin;
use xs_components::{ComplexId, Components, Place, SimpleId, TypeId};
use xs_names::{NameId, Names};
use xsv_io::{Failed, Part, Sink, write_parts, write_text};

/// Writes a local part in the namespace of a name: `local`, or `{namespace}local`.
fn write_local<'a, W: Sink>(
    sink: &mut W,
    names: &'a Names,
    name: NameId,
    local: &'a str,
) -> Result<(), Failed>
    requires named { IsName names.now name }
    ensures written { Written W.taken W.faults W.fault_bound sink.old sink.new result (words.space_text names.now (space_of names.now name) ++ escaped local.now) }
{
    match names.ns_text(names.ns(name)) {
        None => write_parts(sink, &[Part::Escaped(local)]),
        Some(space) => write_parts(
            sink,
            &[
                Part::Text("{"),
                Part::Escaped(space),
                Part::Text("}"),
                Part::Escaped(local),
            ],
        ),
    }
}

/// Writes a name: `local`, or `{namespace}local`.
pub fn write_name<W: Sink>(sink: &mut W, names: &Names, name: NameId) -> Result<(), Failed>
    requires named { IsName names.now name }
    ensures written { Written W.taken W.faults W.fault_bound sink.old sink.new result (words.name_text names.now name) }
{
    write_local(sink, names, name, names.local(name))
}

/// What is printed of the local part of the name of a type: what stands before the first space.
fn printed_local(local: &str) -> &str
    ensures { result.now ≡ words.printed_local local.now }
{
    match local.split_once(' ') {
        Some((printed, _)) => printed,
        None => local,
    }
}

/// Writes the name of a type: an original that a redefined one goes back to by the name that documents give it.
fn write_type_name<W: Sink>(sink: &mut W, names: &Names, name: NameId) -> Result<(), Failed>
    requires named { IsName names.now name }
    ensures written { Written W.taken W.faults W.fault_bound sink.old sink.new result (words.type_name_text names.now name) }
{
    let printed = printed_local(names.local(name));
    write_local(sink, names, name, printed)
}

/// Writes the place where an anonymous type is represented.
fn write_place<W: Sink>(sink: &mut W, at: Place) -> Result<(), Failed>
    ensures written { Written W.taken W.faults W.fault_bound sink.old sink.new result (words.place_name at) }
{
    write_parts(
        sink,
        &[
            Part::Text("#"),
            Part::Number(at.document as u64),
            Part::Text("."),
            Part::Number(at.item as u64),
        ],
    )
}

/// Writes a type that is defined in a schema document.
fn write_defined<W: Sink>(
    sink: &mut W,
    names: &Names,
    name: Option<NameId>,
    at: Place,
) -> Result<(), Failed>
    requires named { IfSome name (IsName names.now) }
    ensures written { Written W.taken W.faults W.fault_bound sink.old sink.new result (words.defined_text names.now name at) }
{
    match name {
        None => write_place(sink, at),
        Some(name) => write_type_name(sink, names, name),
    }
}

/// Writes a simple type.
fn write_simple<W: Sink>(
    sink: &mut W,
    names: &Names,
    parts: &Components,
    id: SimpleId,
) -> Result<(), Failed>
    requires named { IsTypeNamed names.now parts.now (Simple id) }
    ensures written { Written W.taken W.faults W.fault_bound sink.old sink.new result (words.simple_text names.now (slice_get parts.now.simples.parts id)) }
{
    let part = parts.simple(id);
    write_defined(sink, names, part.name, part.at)
}

/// Writes a complex type.
fn write_complex<W: Sink>(
    sink: &mut W,
    names: &Names,
    parts: &Components,
    id: ComplexId,
) -> Result<(), Failed>
    requires named { IsTypeNamed names.now parts.now (Complex id) }
    ensures written { Written W.taken W.faults W.fault_bound sink.old sink.new result (words.complex_text names.now (slice_get parts.now.complexes.parts id)) }
{
    let part = parts.complex(id);
    write_defined(sink, names, part.name, part.at)
}

/// Writes a built-in type.
fn write_builtin<W: Sink>(sink: &mut W, kind: Builtin) -> Result<(), Failed>
    ensures written { Written W.taken W.faults W.fault_bound sink.old sink.new result (codes "xs:" ++ name_in kind) }
{
    write_parts(sink, &[Part::Text("xs:"), Part::Text(name_of(kind))])
}

/// Writes a type that is there.
fn write_type_of<W: Sink>(
    sink: &mut W,
    names: &Names,
    parts: &Components,
    of: TypeId,
) -> Result<(), Failed>
    requires named { IsTypeNamed names.now parts.now of }
    ensures written { Written W.taken W.faults W.fault_bound sink.old sink.new result (words.type_text names.now parts.now (Some of)) }
{
    match of {
        TypeId::AnyType => write_text(sink, "xs:anyType"),
        TypeId::Builtin(kind) => write_builtin(sink, kind),
        TypeId::Simple(id) => write_simple(sink, names, parts, id),
        TypeId::Complex(id) => write_complex(sink, names, parts, id),
    }
}

/// Writes a type, or a hyphen where there is none.
pub fn write_type<W: Sink>(
    sink: &mut W,
    names: &Names,
    parts: &Components,
    of: Option<TypeId>,
) -> Result<(), Failed>
    requires named { IfSome of (IsTypeNamed names.now parts.now) }
    ensures written { Written W.taken W.faults W.fault_bound sink.old sink.new result (words.type_text names.now parts.now of) }
{
    match of {
        None => write_text(sink, "-"),
        Some(of) => write_type_of(sink, names, parts, of),
    }
}
