//! Spans: the values of `duration` (Datatypes 3.2.6).
ghost use Rattle.std.specs.Prelude.{◌≡◌, ◌↔◌, ◌≤◌, ◌+ℤ◌, ◌*ℤ◌, IsTrue, IfSome, Some, Err, pos};
ghost use Rattle.std.specs.declared.cmp.Ordering.TheVariants.{Less, Equal, Greater};
ghost use Rattle.jiff_core.specs.Calendar.{IsEpochDay, IsWithin};
ghost use Rattle.time_value.specs.declared.fault.TimeFault.TheVariants.{NotLexical};
ghost use Rattle.time_value.specs.DurationSpelling.{WrittenDuration, IsWrittenDuration, IsLexicalDuration, duration_text, parts_of_written};
ghost use Rattle.time_value.specs.Span as spec;

use crate::duration::{DurationLiteral, TimeParts, duration};
use crate::fault::TimeFault;
use crate::reference::{REFERENCES, Reference};
use std::cmp::Ordering;
use std::marker::Model;

/// A duration: a number of months and a number of nanoseconds, both of one sign.
///
/// Contracts see a `SpanValue`, which has the two numbers.
#[derive(Clone, Copy, PartialEq, Eq, Hash)]
pub struct Span {
    months: i32,
    nanoseconds: i128,
}

impl Model for Span {
    ghost use Rattle.std.specs.Prelude.{ℕ};
    ghost use Rattle.jiff_core.specs.Calendar.{IsWithin};
    ghost use Rattle.time_value.specs.Span.{SpanValue};

    ghost Value = { SpanValue };

    ghost view = { λ a. record { months = a.months; nanoseconds = a.nanoseconds } };

    ghost invariant = { λ a. IsWithin 48_000 a.months × IsWithin 126_230_400_000_000_000_000 a.nanoseconds };

    ghost inverse = { λ v. record { months = v.months; nanoseconds = v.nanoseconds } };
}

/// The most months of a duration.
const MOST_MONTHS: u128 = 48_000;

/// The most nanoseconds of a duration beside its months.
const MOST_NANOSECONDS: u128 = 126_230_400_000_000_000_000;

const NANOSECONDS_PER_DAY: i128 = 86_400_000_000_000;

const NANOSECONDS_PER_SECOND: u128 = 1_000_000_000;

impl Span {
    /// Reads a literal of `duration`. White space around it makes it none.
    ///
    /// # Errors
    ///
    /// [`TimeFault::NotLexical`] where the text is no literal, and [`TimeFault::OutOfRange`] where a
    /// literal has more than 48,000 months in its years and months, more than 126,230,400,000 seconds in
    /// its other parts, or more than nine digits of a fraction.
    pub fn read(text: &str) -> Result<Span, TimeFault>
        ensures value { result ≡ spec.span text.now }

        // What is in the lexical form of a duration is read to its parts, and nothing else is.
        ensures lexical { (w : WrittenDuration) → IsWrittenDuration w → text.now ≡ duration_text w
            → result ≡ spec.span_of (parts_of_written w) }
        ensures not_lexical { (result ≡ Err NotLexical → ⊥) → IsLexicalDuration text.now }
    {
        match duration(text.as_bytes()) {
            Some(literal) => Span::of(literal),
            None => Err(TimeFault::NotLexical),
        }
    }

    // The duration of a literal, which may be past the limits.
    fn of(literal: DurationLiteral) -> Result<Span, TimeFault>
        ensures { result ≡ spec.span_of literal }
    {
        let months = months_of(literal);
        let nanoseconds = nanoseconds_of(literal.days, literal.time);
        match (months, nanoseconds) {
            (Some(months), Some(nanoseconds)) => {
                Ok(Span::signed(literal.negative, months, nanoseconds))
            }
            _ => Err(TimeFault::OutOfRange),
        }
    }

    // The duration with this sign.
    fn signed(negative: bool, months: u32, nanoseconds: u128) -> Span
        requires months { months ≤ 48_000 }
        requires nanoseconds { nanoseconds ≤ 126_230_400_000_000_000_000 }
        ensures months { result.months ≡ spec.signed negative months }
        ensures nanoseconds { result.nanoseconds ≡ spec.signed negative nanoseconds }
    {
        let (months, nanoseconds) = (months as i32, nanoseconds as i128);
        if negative {
            Span {
                months: -months,
                nanoseconds: -nanoseconds,
            }
        } else {
            Span {
                months,
                nanoseconds,
            }
        }
    }

    /// The order of the durations. One is shorter than the other where it ends before the other from
    /// each of four moments, 1696-09-01, 1697-02-01, 1903-03-01 and 1903-07-01, each at 00:00:00Z.
    #[tactic(auto, using(crate::proofs::SpanOrder::never_both_shorter, crate::proofs::SpanOrder::never_shorter_than_itself))]
    pub fn compare(&self, other: &Span) -> Option<Ordering>
        ensures less { (result ≡ Some Less) ↔ IsTrue (spec.is_shorter self.now other.now) }
        ensures greater { (result ≡ Some Greater) ↔ IsTrue (spec.is_shorter other.now self.now) }
        ensures equal { (result ≡ Some Equal) ↔ (self.now ≡ other.now) }
        ensures value { result ≡ spec.order self.now other.now }
    {
        if self.is_shorter(other) {
            Some(Ordering::Less)
        } else if other.is_shorter(self) {
            Some(Ordering::Greater)
        } else if self.key() == other.key() {
            Some(Ordering::Equal)
        } else {
            None
        }
    }

    // Whether this duration ends before the other one from each of the four moments.
    #[tactic(auto, unfolding(crate::specs::Span::is_shorter))]
    fn is_shorter(&self, other: &Span) -> bool
        ensures { result ≡ spec.is_shorter self.now other.now }
    {
        REFERENCES.iter().all(|start| self.moment_after(*start) < other.moment_after(*start))
    }

    // The place on the time line where the duration ends that starts then.
    fn moment_after(&self, start: Reference) -> i128
        ensures { result ≡ spec.moment_after start self.now }
    {
        later(start.day_after(self.months), self.nanoseconds)
    }

    /// The months and the nanoseconds. Two durations are the same exactly where their keys are equal.
    pub fn key(&self) -> (i32, i128)
        ensures { result ≡ (self.now.months, self.now.nanoseconds) }
    {
        (self.months, self.nanoseconds)
    }
}

// The place on the time line that many nanoseconds after a day begins.
fn later(day: i32, nanoseconds: i128) -> i128
    requires day { IsEpochDay day }
    requires nanoseconds { IsWithin 126_230_400_000_000_000_000 nanoseconds }
    ensures { result ≡ day *ℤ pos 86_400_000_000_000 +ℤ nanoseconds }
{
    day as i128 * NANOSECONDS_PER_DAY + nanoseconds
}

// The months of the years and months, up to the limit.
#[tactic(auto, unfolding(crate::specs::Span::months_of))]
fn months_of(literal: DurationLiteral) -> Option<u32>
    ensures value { result ≡ spec.months_of literal }
    ensures bound { IfSome result (λ months. months ≤ 48_000) }
{
    let years = literal.years?;
    let months = literal.months?;
    let total = years as u128 * 12 + months as u128;
    if total <= MOST_MONTHS {
        Some(total as u32)
    } else {
        None
    }
}

// The nanoseconds of the other parts, up to the limit.
#[tactic(auto, unfolding(crate::specs::Span::nanoseconds_of))]
fn nanoseconds_of(days: Option<u64>, time: TimeParts) -> Option<u128>
    ensures value { result ≡ spec.nanoseconds_of days time }
    ensures bound { IfSome result (λ nanoseconds. nanoseconds ≤ 126_230_400_000_000_000_000) }
{
    let days = days?;
    let hours = time.hours?;
    let minutes = time.minutes?;
    let seconds = time.seconds.whole?;
    let fraction = time.seconds.fraction?;
    let total = days as u128 * 86_400
        + hours as u128 * 3_600
        + minutes as u128 * 60
        + seconds as u128;
    let nanoseconds = total * NANOSECONDS_PER_SECOND + fraction as u128;
    if nanoseconds <= MOST_NANOSECONDS {
        Some(nanoseconds)
    } else {
        None
    }
}
