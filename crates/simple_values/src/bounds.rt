//! The bounds of the types of integers.
ghost use Rattle.std.specs.Prelude.{◌≡◌, ◌^◌, ◌<◌};
ghost use Rattle.std.specs.Int.RustNames.{unsigned_abs};
ghost use Rattle.simple_values.specs.Bounds as spec;

use dec_value::Dec;
use xs_codes::Builtin;

/// The least and the greatest value of a type, its facets `minInclusive` and `maxInclusive` (Datatypes 4.3.7 and 4.3.10);
/// an end that is missing is open.
#[derive(Clone, Copy)]
pub struct Bounds {
    pub least: Option<Dec>,
    pub greatest: Option<Dec>,
}

/// The bounds of a type: those of the types of integers, and none for any other (Datatypes 3.3.13 to 3.3.25).
///
/// They are facets: a literal past them is a literal, and has its value.
pub fn bounds_of(kind: Builtin) -> Bounds
    ensures { result ≡ spec.bounds_of kind }
{
    match kind {
        Builtin::Byte => between(i8::MIN as i128, i8::MAX as i128),
        Builtin::Short => between(i16::MIN as i128, i16::MAX as i128),
        Builtin::Int => between(i32::MIN as i128, i32::MAX as i128),
        Builtin::Long => between(i64::MIN as i128, i64::MAX as i128),
        Builtin::UnsignedByte => between(0, u8::MAX as i128),
        Builtin::UnsignedShort => between(0, u16::MAX as i128),
        Builtin::UnsignedInt => between(0, u32::MAX as i128),
        Builtin::UnsignedLong => between(0, u64::MAX as i128),
        Builtin::NonPositiveInteger => at_most(0),
        Builtin::NegativeInteger => at_most(-1),
        Builtin::NonNegativeInteger => at_least(0),
        Builtin::PositiveInteger => at_least(1),
        _ => Bounds {
            least: None,
            greatest: None,
        },
    }
}

fn between(least: i128, greatest: i128) -> Bounds
    requires least { unsigned_abs least < 10 ^ 38 }
    requires greatest { unsigned_abs greatest < 10 ^ 38 }
    ensures { result ≡ spec.between least greatest }
{
    Bounds {
        least: Some(Dec::from_integer(least)),
        greatest: Some(Dec::from_integer(greatest)),
    }
}

fn at_least(least: i128) -> Bounds
    requires { unsigned_abs least < 10 ^ 38 }
    ensures { result ≡ spec.from least }
{
    Bounds {
        least: Some(Dec::from_integer(least)),
        greatest: None,
    }
}

fn at_most(greatest: i128) -> Bounds
    requires { unsigned_abs greatest < 10 ^ 38 }
    ensures { result ≡ spec.up_to greatest }
{
    Bounds {
        least: None,
        greatest: Some(Dec::from_integer(greatest)),
    }
}
