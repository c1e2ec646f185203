//! The hierarchy of the built-in types, and their names.
ghost use Rattle.std.specs.Prelude.{◌≡◌, ◌↔◌, Some};
ghost use Rattle.xs_codes.specs.declared.builtin.Builtin.{Builtin};
ghost use Rattle.simple_values.specs.Builtins as spec;

use xs_codes::Builtin;

/// The built-in types that are supported.
pub const BUILTINS: [Builtin; 40] = [
    Builtin::String,
    Builtin::NormalizedString,
    Builtin::Token,
    Builtin::AnyUri,
    Builtin::AnySimpleType,
    Builtin::Language,
    Builtin::Name,
    Builtin::NmToken,
    Builtin::NcName,
    Builtin::Id,
    Builtin::IdRef,
    Builtin::NmTokens,
    Builtin::IdRefs,
    Builtin::QName,
    Builtin::Boolean,
    Builtin::Decimal,
    Builtin::Integer,
    Builtin::Byte,
    Builtin::Short,
    Builtin::Int,
    Builtin::Long,
    Builtin::UnsignedByte,
    Builtin::UnsignedShort,
    Builtin::UnsignedInt,
    Builtin::UnsignedLong,
    Builtin::NonPositiveInteger,
    Builtin::NegativeInteger,
    Builtin::NonNegativeInteger,
    Builtin::PositiveInteger,
    Builtin::HexBinary,
    Builtin::Base64Binary,
    Builtin::DateTime,
    Builtin::Date,
    Builtin::Time,
    Builtin::GYearMonth,
    Builtin::GYear,
    Builtin::GMonthDay,
    Builtin::GDay,
    Builtin::GMonth,
    Builtin::Duration,
];

/// The name of a type, in the namespace of XML Schema (Datatypes 3.2 and 3.3; Structures 3.14.7).
pub fn name_of(kind: Builtin) -> &'static str
    ensures { result.now ≡ spec.name_of kind }
{
    match kind {
        Builtin::String => "string",
        Builtin::NormalizedString => "normalizedString",
        Builtin::Token => "token",
        Builtin::AnyUri => "anyURI",
        Builtin::AnySimpleType => "anySimpleType",
        Builtin::Language => "language",
        Builtin::Name => "Name",
        Builtin::NmToken => "NMTOKEN",
        Builtin::NcName => "NCName",
        Builtin::Id => "ID",
        Builtin::IdRef => "IDREF",
        Builtin::NmTokens => "NMTOKENS",
        Builtin::IdRefs => "IDREFS",
        Builtin::QName => "QName",
        Builtin::Boolean => "boolean",
        Builtin::Decimal => "decimal",
        Builtin::Integer => "integer",
        Builtin::Byte => "byte",
        Builtin::Short => "short",
        Builtin::Int => "int",
        Builtin::Long => "long",
        Builtin::UnsignedByte => "unsignedByte",
        Builtin::UnsignedShort => "unsignedShort",
        Builtin::UnsignedInt => "unsignedInt",
        Builtin::UnsignedLong => "unsignedLong",
        Builtin::NonPositiveInteger => "nonPositiveInteger",
        Builtin::NegativeInteger => "negativeInteger",
        Builtin::NonNegativeInteger => "nonNegativeInteger",
        Builtin::PositiveInteger => "positiveInteger",
        Builtin::HexBinary => "hexBinary",
        Builtin::Base64Binary => "base64Binary",
        Builtin::DateTime => "dateTime",
        Builtin::Date => "date",
        Builtin::Time => "time",
        Builtin::GYearMonth => "gYearMonth",
        Builtin::GYear => "gYear",
        Builtin::GMonthDay => "gMonthDay",
        Builtin::GDay => "gDay",
        Builtin::GMonth => "gMonth",
        Builtin::Duration => "duration",
    }
}

/// The type with a name of the namespace of XML Schema; `None` where no built-in type has it.
pub fn builtin_named(name: &str) -> Option<Builtin>
    ensures { (kind : Builtin) → (result ≡ Some kind) ↔ (name.now ≡ spec.name_of kind) }
{
    first_named(name)
}

// The first type with the name.
fn first_named(name: &str) -> Option<Builtin>
    ensures { result ≡ spec.named name.now }
{
    BUILTINS.iter().copied().find(|kind| name_of(*kind) == name)
}

/// The type that a type is derived from, by restriction or, for `NMTOKENS` and `IDREFS`, by list; `None` for
/// `anySimpleType`, which is derived from no simple type (Datatypes 3; Structures 3.14.7).
pub fn base_of(kind: Builtin) -> Option<Builtin>
    ensures { result ≡ spec.base_of kind }
{
    match kind {
        Builtin::AnySimpleType => None,
        Builtin::NormalizedString => Some(Builtin::String),
        Builtin::Token => Some(Builtin::NormalizedString),
        Builtin::Language => Some(Builtin::Token),
        Builtin::Name => Some(Builtin::Token),
        Builtin::NmToken => Some(Builtin::Token),
        Builtin::NcName => Some(Builtin::Name),
        Builtin::Id => Some(Builtin::NcName),
        Builtin::IdRef => Some(Builtin::NcName),
        Builtin::Integer => Some(Builtin::Decimal),
        Builtin::Byte => Some(Builtin::Short),
        Builtin::Short => Some(Builtin::Int),
        Builtin::Int => Some(Builtin::Long),
        Builtin::Long => Some(Builtin::Integer),
        Builtin::UnsignedByte => Some(Builtin::UnsignedShort),
        Builtin::UnsignedShort => Some(Builtin::UnsignedInt),
        Builtin::UnsignedInt => Some(Builtin::UnsignedLong),
        Builtin::UnsignedLong => Some(Builtin::NonNegativeInteger),
        Builtin::NonPositiveInteger => Some(Builtin::Integer),
        Builtin::NegativeInteger => Some(Builtin::NonPositiveInteger),
        Builtin::NonNegativeInteger => Some(Builtin::Integer),
        Builtin::PositiveInteger => Some(Builtin::NonNegativeInteger),
        _ => Some(Builtin::AnySimpleType),
    }
}

/// The primitive type that a type is, or is derived from; `None` for `anySimpleType` and for lists (Datatypes 2.5.2).
pub fn primitive_of(kind: Builtin) -> Option<Builtin>
    ensures { result ≡ spec.primitive_of kind }
{
    match kind {
        Builtin::AnySimpleType => None,
        Builtin::NmTokens => None,
        Builtin::IdRefs => None,
        Builtin::NormalizedString => Some(Builtin::String),
        Builtin::Token => Some(Builtin::String),
        Builtin::Language => Some(Builtin::String),
        Builtin::Name => Some(Builtin::String),
        Builtin::NmToken => Some(Builtin::String),
        Builtin::NcName => Some(Builtin::String),
        Builtin::Id => Some(Builtin::String),
        Builtin::IdRef => Some(Builtin::String),
        Builtin::Integer => Some(Builtin::Decimal),
        Builtin::Byte => Some(Builtin::Decimal),
        Builtin::Short => Some(Builtin::Decimal),
        Builtin::Int => Some(Builtin::Decimal),
        Builtin::Long => Some(Builtin::Decimal),
        Builtin::UnsignedByte => Some(Builtin::Decimal),
        Builtin::UnsignedShort => Some(Builtin::Decimal),
        Builtin::UnsignedInt => Some(Builtin::Decimal),
        Builtin::UnsignedLong => Some(Builtin::Decimal),
        Builtin::NonPositiveInteger => Some(Builtin::Decimal),
        Builtin::NegativeInteger => Some(Builtin::Decimal),
        Builtin::NonNegativeInteger => Some(Builtin::Decimal),
        Builtin::PositiveInteger => Some(Builtin::Decimal),
        _ => Some(kind),
    }
}
