//! Moments: the values of `dateTime`, `date`, `time`, `gYearMonth`, `gYear`, `gMonthDay`, `gDay` and
//! `gMonth` (Datatypes 3.2.7 to 3.2.14).
ghost use Rattle.std.specs.Prelude.{◌≡◌, ◌↔◌, ◌<◌, ◌+ℤ◌, ◌-ℤ◌, ◌*ℤ◌, IsTrue, Some, Err, pos};
ghost use Rattle.std.specs.declared.cmp.Ordering.TheVariants.{Less, Equal, Greater};
ghost use Rattle.time_value.specs.declared.fault.TimeFault.TheVariants.{NotLexical};
ghost use Rattle.jiff_core.specs.Calendar.{IsEpochDay, IsWithin, days_from_civil};
ghost use Rattle.time_value.specs.Moment as spec;
ghost use Rattle.time_value.specs.Spelling.{Written, IsWritten, IsLexical, text_of, literal_of};
ghost use Rattle.time_value.specs.Bounds.{IsYearNumber, IsFraction, IsOffset, IsLiteralDate, IsLiteralTime, IsLiteral};

use crate::fault::TimeFault;
use crate::literal::{Literal, LiteralDate, LiteralTime, MomentKind, fields};
use jiff_core::civil;
use std::cmp::Ordering;
use std::marker::Model;

/// A moment on the time line, with a zone or without.
///
/// Contracts see a `MomentValue`: whether there is a zone, and the nanoseconds from
/// 1970-01-01T00:00:00Z, where a moment without a zone is read as in UTC.
#[derive(Clone, Copy, PartialEq, Eq, Hash)]
pub struct Moment {
    zoned: bool,
    nanoseconds: i128,
}

impl Model for Moment {
    ghost use Rattle.std.specs.Prelude.{ℕ};
    ghost use Rattle.jiff_core.specs.Calendar.{IsWithin};
    ghost use Rattle.time_value.specs.Moment.{MomentValue};

    ghost Value = { MomentValue };

    ghost view = { λ a. record { zoned = a.zoned; nanoseconds = a.nanoseconds } };

    ghost invariant = { λ a. IsWithin 1_000_000_000_000_000_000_000 a.nanoseconds };

    ghost inverse = { λ v. record { zoned = v.zoned; nanoseconds = v.nanoseconds } };
}

/// Fourteen hours, in nanoseconds: no zone is farther from UTC.
const FOURTEEN_HOURS: i128 = 50_400_000_000_000;

const NANOSECONDS_PER_DAY: i128 = 86_400_000_000_000;

const NANOSECONDS_PER_MINUTE: i128 = 60_000_000_000;

const NANOSECONDS_PER_SECOND: u64 = 1_000_000_000;

impl Moment {
    /// Reads a literal of this type. White space around it makes it none.
    ///
    /// # Errors
    ///
    /// [`TimeFault::NoSuchDate`] where the text would be a literal if its month had its day,
    /// [`TimeFault::NotLexical`] where it is no literal for another reason, and
    /// [`TimeFault::OutOfRange`] where a literal has a sign, more than four digits of a year or more than
    /// nine of a fraction, or is 24:00:00 on 9999-12-31.
    pub fn read(kind: MomentKind, text: &str) -> Result<Moment, TimeFault>
        ensures value { result ≡ spec.moment kind text.now }

        // What is in the lexical form of the type is read to its fields, and nothing else is.
        ensures lexical { (w : Written) → IsWritten w → text.now ≡ text_of kind w
            → result ≡ spec.moment_of (literal_of kind w) }
        ensures not_lexical { (result ≡ Err NotLexical → ⊥) → IsLexical kind text.now }
    {
        match fields(kind, text.as_bytes()) {
            Some(literal) => Moment::of(literal),
            None => Err(TimeFault::NotLexical),
        }
    }

    // The moment of a literal whose day may not be there, and which may be past the limits.
    #[tactic(auto, unfolding(crate::specs::Moment::moment_of, crate::specs::Moment::placed))]
    fn of(literal: Literal) -> Result<Moment, TimeFault>
        requires { IsLiteral literal }
        ensures { result ≡ spec.moment_of literal }
    {
        if !has_day(literal.date) {
            return Err(TimeFault::NoSuchDate);
        }
        match (literal.date.year.within, literal.time.fraction) {
            (Some(year), Some(fraction)) => {
                if is_past_last_day(year, literal) {
                    return Err(TimeFault::OutOfRange);
                }
                Ok(Moment::at(year, fraction, literal))
            }
            _ => Err(TimeFault::OutOfRange),
        }
    }

    // The moment of a literal with this year and fraction.
    fn at(year: u16, fraction: u32, literal: Literal) -> Moment
        requires year { IsYearNumber literal.date.year.leap year }
        requires fraction { IsFraction fraction }
        requires literal { IsLiteral literal }
        requires day { IsTrue (spec.has_day literal.date) }
        ensures { result ≡ spec.moment_at year fraction literal }
    {
        let day = day_number(year, literal.date);
        let clock = clock(fraction, literal.time);
        let nanoseconds = on_time_line(day, clock, literal.zone.unwrap_or(0));
        Moment {
            zoned: literal.zone.is_some(),
            nanoseconds,
        }
    }

    /// The order of the moments. A moment with a zone is before one without where it is before it in
    /// UTC by more than fourteen hours, and likewise after it; between these there is no order.
    pub fn compare(&self, other: &Moment) -> Option<Ordering>
        ensures less { (result ≡ Some Less) ↔ IsTrue (spec.is_before self.now other.now) }
        ensures greater { (result ≡ Some Greater) ↔ IsTrue (spec.is_before other.now self.now) }
        ensures equal { (result ≡ Some Equal) ↔ (self.now ≡ other.now) }
        ensures value { result ≡ spec.order self.now other.now }
    {
        if self.is_before(other) {
            Some(Ordering::Less)
        } else if other.is_before(self) {
            Some(Ordering::Greater)
        } else if self.key() == other.key() {
            Some(Ordering::Equal)
        } else {
            None
        }
    }

    // Whether this moment is before the other one, wherever the one without a zone lies.
    fn is_before(&self, other: &Moment) -> bool
        ensures { result ≡ spec.is_before self.now other.now }
    {
        match (self.zoned, other.zoned) {
            (true, false) => self.nanoseconds < other.nanoseconds - FOURTEEN_HOURS,
            (false, true) => self.nanoseconds + FOURTEEN_HOURS < other.nanoseconds,
            _ => self.nanoseconds < other.nanoseconds,
        }
    }

    /// Whether there is a zone, and the nanoseconds from 1970-01-01T00:00:00Z, where a moment without a
    /// zone is read as in UTC. Two moments are the same exactly where their keys are equal.
    pub fn key(&self) -> (bool, i128)
        ensures { result ≡ (self.now.zoned, self.now.nanoseconds) }
    {
        (self.zoned, self.nanoseconds)
    }
}

// The place on the time line of a clock on a day, in a zone that is that many minutes ahead of UTC.
fn on_time_line(day: i32, clock: u64, offset: i16) -> i128
    requires day { IsEpochDay day }
    requires clock { clock < 90_000_000_000_000 }
    requires offset { IsOffset offset }
    ensures value { result ≡ day *ℤ pos 86_400_000_000_000 +ℤ pos clock -ℤ offset *ℤ pos 60_000_000_000 }
    ensures bound { IsWithin 1_000_000_000_000_000_000_000 result }
{
    day as i128 * NANOSECONDS_PER_DAY + clock as i128 - offset as i128 * NANOSECONDS_PER_MINUTE
}

// Whether the month of the date has its day.
fn has_day(date: LiteralDate) -> bool
    ensures { result ≡ spec.has_day date }
{
    date.day >= 1 && date.day <= month_length(date.year.leap, date.month)
}

// The days of a month, in a leap year or not.
fn month_length(leap: bool, month: u8) -> u8
    ensures { result ≡ spec.month_length leap month }
{
    match month {
        2 => if leap { 29 } else { 28 },
        4 | 6 | 9 | 11 => 30,
        _ => 31,
    }
}

// Whether the literal is 9999-12-31T24:00:00.
fn is_past_last_day(year: u16, literal: Literal) -> bool
    ensures { result ≡ spec.is_past_last_day year literal }
{
    year == 9999 && literal.date.month == 12 && literal.date.day == 31 && literal.time.hour == 24
}

// The number of the day from 1970-01-01.
fn day_number(year: u16, date: LiteralDate) -> i32
    requires year { IsYearNumber date.year.leap year }
    requires month { IsLiteralDate date }
    requires day { IsTrue (spec.has_day date) }
    ensures value { result ≡ days_from_civil (pos year) date.month date.day }
    ensures bound { IsEpochDay result }
{
    let civil = civil::Date {
        year: year as i16,
        month: date.month,
        day: date.day,
    };
    civil.to_unix_epoch_day()
}

// Nanoseconds since midnight.
fn clock(fraction: u32, time: LiteralTime) -> u64
    requires fraction { IsFraction fraction }
    requires time { IsLiteralTime time }
    ensures value { result ≡ spec.clock fraction time }
    ensures bound { result < 90_000_000_000_000 }
{
    let seconds = time.hour as u64 * 3_600 + time.minute as u64 * 60 + time.second as u64;
    seconds * NANOSECONDS_PER_SECOND + fraction as u64
}
