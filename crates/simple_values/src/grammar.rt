//! Which literals a built-in type has, and what it does with white space.
ghost use Rattle.std.specs.Prelude.{◌≡◌};
ghost use Rattle.simple_values.specs.Grammar as spec;

use time_value::MomentKind;
use xs_codes::Builtin;
use xs_names::WhiteSpace;

/// The literals of an atomic type, or of the items of a list type.
#[derive(Clone, Copy)]
pub enum Grammar {
    /// Every text, as a value of `anySimpleType`.
    Untyped,
    /// Every text, as a string.
    Text,
    /// Every text, as a URI (Datatypes 3.2.17).
    Uri,
    /// Language tags (Datatypes 3.3.3).
    Language,
    /// Names (Datatypes 3.3.6).
    Name,
    /// One or more characters of names (Datatypes 3.3.4).
    NmToken,
    /// Names without a colon (Datatypes 3.3.7 to 3.3.9).
    NcName,
    /// Names whose prefix, if they have one, is bound (Datatypes 3.2.18).
    QName,
    /// `true`, `false`, `1` and `0` (Datatypes 3.2.2).
    Boolean,
    /// Decimal numbers (Datatypes 3.2.3).
    Decimal,
    /// Integers, whatever the range of the type is, which is its bounds (Datatypes 3.3.13).
    Integer,
    /// Pairs of hexadecimal digits (Datatypes 3.2.15).
    Hex,
    /// Base64 (Datatypes 3.2.16).
    Base64,
    /// Dates and times (Datatypes 3.2.7 to 3.2.14).
    Moment(MomentKind),
    /// Durations (Datatypes 3.2.6).
    Duration,
}

/// The literals of a type; of a list type, those of its items.
pub fn grammar_of(kind: Builtin) -> Grammar
    ensures { result ≡ spec.grammar_of kind }
{
    match kind {
        Builtin::AnySimpleType => Grammar::Untyped,
        Builtin::String => Grammar::Text,
        Builtin::NormalizedString => Grammar::Text,
        Builtin::Token => Grammar::Text,
        Builtin::AnyUri => Grammar::Uri,
        Builtin::Language => Grammar::Language,
        Builtin::Name => Grammar::Name,
        Builtin::NmToken => Grammar::NmToken,
        Builtin::NmTokens => Grammar::NmToken,
        Builtin::NcName => Grammar::NcName,
        Builtin::Id => Grammar::NcName,
        Builtin::IdRef => Grammar::NcName,
        Builtin::IdRefs => Grammar::NcName,
        Builtin::QName => Grammar::QName,
        Builtin::Boolean => Grammar::Boolean,
        Builtin::Decimal => Grammar::Decimal,
        Builtin::HexBinary => Grammar::Hex,
        Builtin::Base64Binary => Grammar::Base64,
        Builtin::DateTime => Grammar::Moment(MomentKind::DateTime),
        Builtin::Date => Grammar::Moment(MomentKind::Date),
        Builtin::Time => Grammar::Moment(MomentKind::Time),
        Builtin::GYearMonth => Grammar::Moment(MomentKind::YearMonth),
        Builtin::GYear => Grammar::Moment(MomentKind::Year),
        Builtin::GMonthDay => Grammar::Moment(MomentKind::MonthDay),
        Builtin::GDay => Grammar::Moment(MomentKind::Day),
        Builtin::GMonth => Grammar::Moment(MomentKind::Month),
        Builtin::Duration => Grammar::Duration,
        Builtin::Integer => Grammar::Integer,
        Builtin::Byte => Grammar::Integer,
        Builtin::Short => Grammar::Integer,
        Builtin::Int => Grammar::Integer,
        Builtin::Long => Grammar::Integer,
        Builtin::UnsignedByte => Grammar::Integer,
        Builtin::UnsignedShort => Grammar::Integer,
        Builtin::UnsignedInt => Grammar::Integer,
        Builtin::UnsignedLong => Grammar::Integer,
        Builtin::NonPositiveInteger => Grammar::Integer,
        Builtin::NegativeInteger => Grammar::Integer,
        Builtin::NonNegativeInteger => Grammar::Integer,
        Builtin::PositiveInteger => Grammar::Integer,
    }
}

/// The type of the items of a list type; `None` where the type is atomic (Datatypes 3.3.5 and 3.3.10).
pub fn item_type(kind: Builtin) -> Option<Builtin>
    ensures { result ≡ spec.item_type kind }
{
    match kind {
        Builtin::NmTokens => Some(Builtin::NmToken),
        Builtin::IdRefs => Some(Builtin::IdRef),
        _ => None,
    }
}

/// What the type does with white space (Datatypes 4.3.6).
pub fn white_space_of(kind: Builtin) -> WhiteSpace
    ensures { result ≡ spec.white_space_of kind }
{
    match kind {
        Builtin::AnySimpleType => WhiteSpace::Preserve,
        Builtin::String => WhiteSpace::Preserve,
        Builtin::NormalizedString => WhiteSpace::Replace,
        _ => WhiteSpace::Collapse,
    }
}
