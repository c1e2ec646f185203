ghost use Rattle.std.specs.Prelude.{◌≡◌, map};
ghost use Rattle.xs_codes.specs.Builtins as spec;

use crate::Builtin;

/// The built-in types with their names.
const NAMED: [(&str, Builtin); 40] = [
    ("string", Builtin::String),
    ("normalizedString", Builtin::NormalizedString),
    ("token", Builtin::Token),
    ("anyURI", Builtin::AnyUri),
    ("anySimpleType", Builtin::AnySimpleType),
    ("language", Builtin::Language),
    ("Name", Builtin::Name),
    ("NMTOKEN", Builtin::NmToken),
    ("NCName", Builtin::NcName),
    ("ID", Builtin::Id),
    ("IDREF", Builtin::IdRef),
    ("NMTOKENS", Builtin::NmTokens),
    ("IDREFS", Builtin::IdRefs),
    ("QName", Builtin::QName),
    ("boolean", Builtin::Boolean),
    ("decimal", Builtin::Decimal),
    ("integer", Builtin::Integer),
    ("byte", Builtin::Byte),
    ("short", Builtin::Short),
    ("int", Builtin::Int),
    ("long", Builtin::Long),
    ("unsignedByte", Builtin::UnsignedByte),
    ("unsignedShort", Builtin::UnsignedShort),
    ("unsignedInt", Builtin::UnsignedInt),
    ("unsignedLong", Builtin::UnsignedLong),
    ("nonPositiveInteger", Builtin::NonPositiveInteger),
    ("negativeInteger", Builtin::NegativeInteger),
    ("nonNegativeInteger", Builtin::NonNegativeInteger),
    ("positiveInteger", Builtin::PositiveInteger),
    ("hexBinary", Builtin::HexBinary),
    ("base64Binary", Builtin::Base64Binary),
    ("dateTime", Builtin::DateTime),
    ("date", Builtin::Date),
    ("time", Builtin::Time),
    ("gYearMonth", Builtin::GYearMonth),
    ("gYear", Builtin::GYear),
    ("gMonthDay", Builtin::GMonthDay),
    ("gDay", Builtin::GDay),
    ("gMonth", Builtin::GMonth),
    ("duration", Builtin::Duration),
];

// The type beside a name, if the name is there.
fn among(table: &[(&str, Builtin)], name: &str) -> Option<Builtin>
    ensures { result ≡ spec.among (map (λ entry. (entry.0.now, entry.1)) table.now) name.now }
{
    for entry in table {
        if name == entry.0 {
            return Some(entry.1);
        }
    }
    None
}

/// The built-in simple type of a local name in the namespace of schema documents (Datatypes 3); `None` where no type that is
/// supported has it.
pub fn builtin_named(local: &str) -> Option<Builtin>
    ensures of { result ≡ spec.builtin_named local.now }
{
    among(&NAMED, local)
}
