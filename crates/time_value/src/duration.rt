//! The literals of durations, taken apart into their parts.
ghost use Rattle.std.specs.Prelude.{◌≡◌, ◌<◌, IfSome};
ghost use Rattle.time_value.specs.Digits as pieces;
ghost use Rattle.time_value.specs.Duration as spec;

use crate::digits::{after, count_of, digits_at, fraction_at, minus_at};

/// The seconds of a duration.
#[derive(Clone, Copy)]
pub(crate) struct Seconds {
    /// None past the limit.
    pub whole: Option<u64>,
    /// Nanoseconds, and none where the fraction has more than nine places.
    pub fraction: Option<u32>,
}

/// The parts behind `T`.
#[derive(Clone, Copy)]
pub(crate) struct TimeParts {
    pub hours: Option<u64>,
    pub minutes: Option<u64>,
    pub seconds: Seconds,
}

/// The parts of a duration. A number is none where it is past every limit.
#[derive(Clone, Copy)]
pub(crate) struct DurationLiteral {
    pub negative: bool,
    pub years: Option<u64>,
    pub months: Option<u64>,
    pub days: Option<u64>,
    pub time: TimeParts,
}

const NO_SECONDS: Seconds = Seconds {
    whole: Some(0),
    fraction: Some(0),
};

const NO_TIME: TimeParts = TimeParts {
    hours: Some(0),
    minutes: Some(0),
    seconds: NO_SECONDS,
};

// A number of at least one digit and its letter.
#[tactic(auto, unfolding(crate::specs::Duration::part_at))]
fn part_at(text: &[u8], letter: u8) -> Option<(Option<u64>, &[u8])>
    ensures { pieces.seen result ≡ spec.part_at letter text.now }
{
    let (digits, rest) = digits_at(text);
    let rest = after(rest, letter)?;
    if digits.is_empty() {
        return None;
    }
    Some((count_of(digits), rest))
}

// The part with this letter, or 0 where it is missing.
#[tactic(auto, unfolding(crate::specs::Duration::part_or_zero))]
fn part_or_zero(text: &[u8], letter: u8) -> (Option<u64>, &[u8])
    ensures { pieces.seen_always result ≡ spec.part_or_zero letter text.now }
{
    match part_at(text, letter) {
        Some((count, rest)) => (count, rest),
        None => (Some(0), text),
    }
}

// The seconds, with a fraction or without.
#[tactic(auto, unfolding(crate::specs::Duration::seconds_at))]
fn seconds_at(text: &[u8]) -> Option<(Seconds, &[u8])>
    ensures value { pieces.seen result ≡ spec.seconds_at text.now }
{
    let (digits, rest) = digits_at(text);
    let (fraction, rest) = fraction_at(rest)?;
    let rest = after(rest, b'S')?;
    if digits.is_empty() {
        return None;
    }
    let seconds = Seconds {
        whole: count_of(digits),
        fraction,
    };
    Some((seconds, rest))
}

#[tactic(auto, unfolding(crate::specs::Duration::seconds_or_zero))]
fn seconds_or_zero(text: &[u8]) -> (Seconds, &[u8])
    ensures { pieces.seen_always result ≡ spec.seconds_or_zero text.now }
{
    match seconds_at(text) {
        Some((seconds, rest)) => (seconds, rest),
        None => (NO_SECONDS, text),
    }
}

// What follows `T`: at least one part, and nothing else.
#[tactic(auto, unfolding(crate::specs::Duration::time_parts))]
fn time_parts(text: &[u8]) -> Option<TimeParts>
    ensures { result ≡ spec.time_parts text.now }
{
    let (hours, rest) = part_or_zero(text, b'H');
    let (minutes, rest) = part_or_zero(rest, b'M');
    let (seconds, rest) = seconds_or_zero(rest);
    if text.is_empty() || !rest.is_empty() {
        return None;
    }
    Some(TimeParts {
        hours,
        minutes,
        seconds,
    })
}

// The end of the text, or `T` and what follows it.
#[tactic(auto, unfolding(crate::specs::Duration::time_of))]
fn time_of(text: &[u8]) -> Option<TimeParts>
    ensures { result ≡ spec.time_of text.now }
{
    match text {
        [] => Some(NO_TIME),
        [b'T', rest @ ..] => time_parts(rest),
        _ => None,
    }
}

// What follows `P`: at least one part, behind `T` or not.
#[tactic(auto, unfolding(crate::specs::Duration::parts_of))]
fn parts_of(negative: bool, text: &[u8]) -> Option<DurationLiteral>
    ensures { result ≡ spec.parts_of negative text.now }
{
    let (years, rest) = part_or_zero(text, b'Y');
    let (months, rest) = part_or_zero(rest, b'M');
    let (days, rest) = part_or_zero(rest, b'D');
    let time = time_of(rest)?;
    if text.is_empty() {
        return None;
    }
    Some(DurationLiteral {
        negative,
        years,
        months,
        days,
        time,
    })
}

/// The parts of a text as a literal of a duration.
#[tactic(auto, unfolding(crate::specs::Duration::duration))]
pub(crate) fn duration(text: &[u8]) -> Option<DurationLiteral>
    ensures { result ≡ spec.duration text.now }
{
    let (negative, rest) = minus_at(text);
    let parts = after(rest, b'P')?;
    parts_of(negative, parts)
}
