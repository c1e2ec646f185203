//! The literals of the eight types of moments, taken apart into their fields.
ghost use Rattle.std.specs.Prelude.{◌≡◌, ◌<◌, ◌≤◌, ◌||◌, IfSome, IsTrue, length, pos};
ghost use Rattle.jiff_core.specs.Calendar as calendar;
ghost use Rattle.time_value.specs.Digits as pieces;
ghost use Rattle.time_value.specs.Literal as spec;
ghost use Rattle.time_value.specs.Bounds.{IsYearNumber, IsFraction, IsOffset, IsLiteralDate, IsLiteralTime, IsLiteral};

use crate::digits::{after, digits_at, fraction_at, minus_at, two_digits, year_number};
use jiff_core::civil::is_leap_year;

/// The types whose values are moments (Datatypes 3.2.7 to 3.2.14).
#[derive(Clone, Copy, PartialEq, Eq, Hash)]
pub enum MomentKind {
    /// `dateTime`, as `1999-10-20T13:20:00Z`.
    DateTime,
    /// `date`, as `1999-10-20`.
    Date,
    /// `time`, as `13:20:00`.
    Time,
    /// `gYearMonth`, as `1999-10`.
    YearMonth,
    /// `gYear`, as `1999`.
    Year,
    /// `gMonthDay`, as `--10-20`.
    MonthDay,
    /// `gDay`, as `---20`.
    Day,
    /// `gMonth`, as `--10`.
    Month,
}

/// A year as far as the calendar and the limits need it.
#[derive(Clone, Copy)]
pub(crate) struct Year {
    /// Whether the year has a 29 February.
    pub leap: bool,
    /// The year, from 1 to 9999, and none past the limits.
    pub within: Option<u16>,
}

/// The date of a literal, whose month may lack the day.
#[derive(Clone, Copy)]
pub(crate) struct LiteralDate {
    pub year: Year,
    /// From 1 to 12.
    pub month: u8,
    /// Any number of two digits.
    pub day: u8,
}

/// The time of a literal.
#[derive(Clone, Copy)]
pub(crate) struct LiteralTime {
    /// At most 24, which stands only as 24:00:00.
    pub hour: u8,
    pub minute: u8,
    pub second: u8,
    /// Nanoseconds, and none where the fraction has more than nine places.
    pub fraction: Option<u32>,
}

/// The fields of a literal.
#[derive(Clone, Copy)]
pub(crate) struct Literal {
    pub date: LiteralDate,
    pub time: LiteralTime,
    /// Minutes ahead of UTC, where there is a zone.
    pub zone: Option<i16>,
}

const YEAR_1972: Year = Year {
    leap: true,
    within: Some(1972),
};

const MIDNIGHT: LiteralTime = LiteralTime {
    hour: 0,
    minute: 0,
    second: 0,
    fraction: Some(0),
};

// Whether these digits name a year.
fn is_year(digits: &[u8]) -> bool
    requires { pieces.AreDigits digits.now }
    ensures { result ≡ spec.is_year digits.now }
{
    match digits.len() {
        4 => year_number(digits) != 0,
        5.. => digits[0] != b'0',
        _ => false,
    }
}

// Whether the year has a 29 February. The last four digits tell, since 400 divides 10,000.
fn is_leap(digits: &[u8]) -> bool
    requires long { 4 ≤ length digits.now }
    requires digits { pieces.AreDigits digits.now }
    ensures { result ≡ calendar.is_leap_year (pos (pieces.number digits.now)) }
{
    let year = year_number(&digits[digits.len() - 4..]);
    is_leap_year(year as i16)
}

// The year that these digits name, behind a minus sign or not.
#[tactic(auto, unfolding(crate::specs::Literal::year_of))]
fn year_of(negative: bool, digits: &[u8]) -> Option<Year>
    requires { pieces.AreDigits digits.now }
    ensures value { result ≡ spec.year_of negative digits.now }
    ensures bound { IfSome result (λ year. IfSome year.within (IsYearNumber year.leap)) }
{
    if !is_year(digits) {
        return None;
    }
    let within = if negative || digits.len() > 4 {
        None
    } else {
        Some(year_number(digits))
    };
    Some(Year {
        leap: is_leap(digits),
        within,
    })
}

#[tactic(auto, unfolding(crate::specs::Literal::year_at))]
fn year_at(text: &[u8]) -> Option<(Year, &[u8])>
    ensures value { pieces.seen result ≡ spec.year_at text.now }
    ensures bound { IfSome result (λ found. IfSome found.0.within (IsYearNumber found.0.leap)) }
{
    let (negative, rest) = minus_at(text);
    let (digits, rest) = digits_at(rest);
    let year = year_of(negative, digits)?;
    Some((year, rest))
}

#[tactic(auto, unfolding(crate::specs::Literal::month_at))]
fn month_at(text: &[u8]) -> Option<(u8, &[u8])>
    ensures value { pieces.seen result ≡ spec.month_at text.now }
    ensures bound { IfSome result (λ found. (1 ≤ found.0) × (found.0 ≤ 12)) }
{
    let (month, rest) = two_digits(text)?;
    if month >= 1 && month <= 12 {
        Some((month, rest))
    } else {
        None
    }
}

#[tactic(auto, unfolding(crate::specs::Literal::below_sixty))]
fn below_sixty(text: &[u8]) -> Option<(u8, &[u8])>
    ensures value { pieces.seen result ≡ spec.below_sixty text.now }
    ensures bound { IfSome result (λ found. found.0 < 60) }
{
    let (count, rest) = two_digits(text)?;
    if count < 60 {
        Some((count, rest))
    } else {
        None
    }
}

// Whether these are the hours of a time, before this text: hour 24 stands only in 24:00:00.
fn is_hour(hour: u8, minute: u8, second: u8, rest: &[u8]) -> bool
    ensures value { result ≡ spec.is_hour hour minute second rest.now }
    ensures bound { IsTrue result → hour ≤ 24 }
{
    hour < 24 || (hour == 24 && minute == 0 && second == 0 && !matches!(rest, [b'.', ..]))
}

#[tactic(auto, unfolding(crate::specs::Literal::time_at))]
fn time_at(text: &[u8]) -> Option<(LiteralTime, &[u8])>
    ensures value { pieces.seen result ≡ spec.time_at text.now }
    ensures bound { IfSome result (λ found. IsLiteralTime found.0) }
{
    let (hour, rest) = two_digits(text)?;
    let rest = after(rest, b':')?;
    let (minute, rest) = below_sixty(rest)?;
    let rest = after(rest, b':')?;
    let (second, rest) = below_sixty(rest)?;
    let (fraction, after_time) = fraction_at(rest)?;
    if !is_hour(hour, minute, second, rest) {
        return None;
    }
    let time = LiteralTime {
        hour,
        minute,
        second,
        fraction,
    };
    Some((time, after_time))
}

// The hours and minutes of a zone at the end of the text, in minutes.
#[tactic(auto, unfolding(crate::specs::Literal::zone_minutes))]
fn zone_minutes(text: &[u8]) -> Option<u16>
    ensures value { result ≡ spec.zone_minutes text.now }
    ensures bound { IfSome result (λ minutes. minutes ≤ 840) }
{
    let (hours, rest) = two_digits(text)?;
    let rest = after(rest, b':')?;
    let (minutes, rest) = below_sixty(rest)?;
    let total = hours as u16 * 60 + minutes as u16;
    if rest.is_empty() && total <= 840 {
        Some(total)
    } else {
        None
    }
}

// The zone at the end of the text, or none.
#[tactic(auto, unfolding(crate::specs::Literal::zone_of))]
fn zone_of(text: &[u8]) -> Option<Option<i16>>
    ensures value { result ≡ spec.zone_of text.now }
    ensures bound { IfSome result (λ zone. IfSome zone IsOffset) }
{
    match text {
        [] => Some(None),
        [b'Z'] => Some(Some(0)),
        [b'+', rest @ ..] => {
            let minutes = zone_minutes(rest)?;
            Some(Some(minutes as i16))
        }
        [b'-', rest @ ..] => {
            let minutes = zone_minutes(rest)?;
            Some(Some(-(minutes as i16)))
        }
        _ => None,
    }
}

// A date and a time, with the zone at the end of the text.
#[tactic(auto, unfolding(crate::specs::Literal::in_zone))]
fn in_zone(date: LiteralDate, time: LiteralTime, rest: &[u8]) -> Option<Literal>
    requires date { IsLiteralDate date }
    requires time { IsLiteralTime time }
    ensures value { result ≡ spec.in_zone date time rest.now }
    ensures bound { IfSome result IsLiteral }
{
    let zone = zone_of(rest)?;
    Some(Literal { date, time, zone })
}

// The time on the first day where it is 24:00:00.
fn first_midnight(time: LiteralTime) -> LiteralTime
    requires { IsLiteralTime time }
    ensures value { result ≡ spec.first_midnight time }
    ensures bound { IsLiteralTime result }
{
    if time.hour == 24 { MIDNIGHT } else { time }
}

/// Which fields the literals of a type write.
#[derive(Clone, Copy)]
struct Shape {
    year: bool,
    month: bool,
    day: bool,
    time: bool,
}

/// The fields of each type, in their order: year, month, day, time (Datatypes 3.2.7 to 3.2.14).
fn shape_of(kind: MomentKind) -> Shape
    ensures { result ≡ spec.shape_of kind }
{
    let (year, month, day, time) = match kind {
        MomentKind::DateTime => (true, true, true, true),
        MomentKind::Date => (true, true, true, false),
        MomentKind::Time => (false, false, false, true),
        MomentKind::YearMonth => (true, true, false, false),
        MomentKind::Year => (true, false, false, false),
        MomentKind::MonthDay => (false, true, true, false),
        MomentKind::Day => (false, false, true, false),
        MomentKind::Month => (false, true, false, false),
    };
    Shape {
        year,
        month,
        day,
        time,
    }
}

// The year, or a dash in its place before a month or a day. It is 1972 where it is not written.
#[tactic(auto, unfolding(crate::specs::Literal::year_part))]
fn year_part(shape: Shape, text: &[u8]) -> Option<(Year, &[u8])>
    ensures value { pieces.seen result ≡ spec.year_part shape.year (shape.month || shape.day) text.now }
    ensures bound { IfSome result (λ found. IfSome found.0.within (IsYearNumber found.0.leap)) }
{
    if shape.year {
        year_at(text)
    } else if shape.month || shape.day {
        let rest = after(text, b'-')?;
        Some((YEAR_1972, rest))
    } else {
        Some((YEAR_1972, text))
    }
}

// The month, or a dash in its place before a day. It is January where it is not written.
#[tactic(auto, unfolding(crate::specs::Literal::month_part))]
fn month_part(shape: Shape, text: &[u8]) -> Option<(u8, &[u8])>
    ensures value { pieces.seen result ≡ spec.month_part shape.month shape.day text.now }
    ensures bound { IfSome result (λ found. (1 ≤ found.0) × (found.0 ≤ 12)) }
{
    if shape.month {
        let rest = after(text, b'-')?;
        month_at(rest)
    } else if shape.day {
        let rest = after(text, b'-')?;
        Some((1, rest))
    } else {
        Some((1, text))
    }
}

// The day, which is the first where it is not written.
#[tactic(auto, unfolding(crate::specs::Literal::day_part))]
fn day_part(shape: Shape, text: &[u8]) -> Option<(u8, &[u8])>
    ensures value { pieces.seen result ≡ spec.day_part shape.day text.now }
    ensures bound { IfSome result (λ found. found.0 < 100) }
{
    if shape.day {
        let rest = after(text, b'-')?;
        two_digits(rest)
    } else {
        Some((1, text))
    }
}

// The time, which is midnight where it is not written.
#[tactic(auto, unfolding(crate::specs::Literal::time_part))]
fn time_part(shape: Shape, text: &[u8]) -> Option<(LiteralTime, &[u8])>
    ensures value { pieces.seen result ≡ spec.time_part shape.time shape.day text.now }
    ensures bound { IfSome result (λ found. IsLiteralTime found.0) }
{
    if !shape.time {
        return Some((MIDNIGHT, text));
    }
    if shape.day {
        let rest = after(text, b'T')?;
        time_at(rest)
    } else {
        let (time, rest) = time_at(text)?;
        Some((first_midnight(time), rest))
    }
}

/// The fields of a text as a literal of this type.
#[tactic(auto, unfolding(crate::specs::Literal::literal_at))]
pub(crate) fn fields(kind: MomentKind, text: &[u8]) -> Option<Literal>
    ensures value { result ≡ spec.literal kind text.now }
    ensures bound { IfSome result IsLiteral }
{
    let shape = shape_of(kind);
    let (year, rest) = year_part(shape, text)?;
    let (month, rest) = month_part(shape, rest)?;
    let (day, rest) = day_part(shape, rest)?;
    let (time, rest) = time_part(shape, rest)?;
    in_zone(LiteralDate { year, month, day }, time, rest)
}
