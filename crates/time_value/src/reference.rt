//! The four moments that durations are added to when they are compared.
ghost use Rattle.std.specs.Prelude.{◌≡◌, pos};
ghost use Rattle.jiff_core.specs.Calendar.{IsEpochDay, IsWithin};
ghost use Rattle.time_value.specs.Reference as spec;

use jiff_core::civil;

/// A moment that durations are added to, the first of its month at 00:00:00Z (Datatypes 3.2.6.2).
#[derive(Clone, Copy)]
pub(crate) enum Reference {
    September1696,
    February1697,
    March1903,
    July1903,
}

/// The four of them.
pub(crate) const REFERENCES: [Reference; 4] = [
    Reference::September1696,
    Reference::February1697,
    Reference::March1903,
    Reference::July1903,
];

impl Reference {
    // The months from January of the year 0.
    fn months(self) -> i32
        ensures value { result ≡ pos (spec.months_before self) }
        ensures bound { IsWithin 24_000 result }
    {
        match self {
            Reference::September1696 => 1696 * 12 + 8,
            Reference::February1697 => 1697 * 12 + 1,
            Reference::March1903 => 1903 * 12 + 2,
            Reference::July1903 => 1903 * 12 + 6,
        }
    }

    /// The day number that many months later, which is a first of a month again.
    pub(crate) fn day_after(self, months: i32) -> i32
        requires { IsWithin 48_000 months }
        ensures value { result ≡ spec.day_after self months }
        ensures bound { IsEpochDay result }
    {
        first_of_month(self.months() + months)
    }
}

// The day number of the first of a month, by its months from January of the year 0.
fn first_of_month(months: i32) -> i32
    requires { IsWithin 72_000 months }
    ensures value { result ≡ spec.first_of_month months }
    ensures bound { IsEpochDay result }
{
    let civil = civil::Date {
        year: months.div_euclid(12) as i16,
        month: (months.rem_euclid(12) + 1) as u8,
        day: 1,
    };
    civil.to_unix_epoch_day()
}
