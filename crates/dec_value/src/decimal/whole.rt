//! Integers as numbers.
ghost use Rattle.std.specs.Prelude.{◌≡◌, ◌^◌, ◌<◌};
ghost use Rattle.std.specs.Int.RustNames.{unsigned_abs};

use super::Dec;

impl Dec {
    /// The number that an integer of at most 38 digits is.
    pub fn from_integer(integer: i128) -> Dec
        requires narrow { unsigned_abs integer < 10 ^ 38 }
        ensures value { result ≡ record { unscaled = integer; scale = 0 } }
    {
        Dec {
            unscaled: integer,
            scale: 0,
        }
    }
}
