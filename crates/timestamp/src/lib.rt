// timestamp.rs: the forms of a timestamp, each read from a position of the line.
#![tactic(auto)]

ghost use Rattle.std.specs.Prelude.{◌≡◌, [], ◌∷◌, ◌+◌, ◌*◌, ◌≤◌, ◌<◌, length};
ghost use Rattle.std.proofs.Math.IntN.{sub_ℕ};
ghost use Rattle.calendar.specs.Calendar.{offset_limit};
ghost use Rattle.timestamp.specs.Month.{lower, month_of, month_from};
ghost use Rattle.timestamp.specs.Clock.{clock_from};
ghost use Rattle.timestamp.specs.Rfc3339.{fixed_from, either_from, date_from, time_from, nanos_from, minutes_from, east_of, west_of, zone_from, stamp_if, end_from, full_from, rfc3339_from};
ghost use Rattle.timestamp.specs.Timestamp.{day_from, without_year, utc_if, with_year, rfc3164_from};

use calendar::DateTime;
use record::Timestamp;

// Hour, minute and second.
#[derive(Clone, Copy)]
pub struct Clock {
    pub hour: u32,
    pub minute: u32,
    pub second: u32,
}

// Year, month and day.
#[derive(Clone, Copy)]
pub struct Date {
    pub year: u32,
    pub month: u32,
    pub day: u32,
}

// Month and day.
#[derive(Clone, Copy)]
pub struct Day {
    pub month: u32,
    pub day: u32,
}

fn lower(b: u8) -> u32
    ensures value { result ≡ lower b }
    ensures upper_bound { result < 256 }
{
    if base::in_range(b'A', b'Z', b) {
        return (b + 32) as u32;
    }
    b as u32
}

// The month with the name of these letters, or 0: they are looked up as one number, a byte each.
fn month_of(a: u8, b: u8, c: u8) -> u32
    ensures { result ≡ month_of (a ∷ b ∷ c ∷ []) }
{
    let key = lower(a) * 0x10000 + lower(b) * 0x100 + lower(c);
    match key {
        0x6A616E => 1, // jan
        0x666562 => 2, // feb
        0x6D6172 => 3, // mar
        0x617072 => 4, // apr
        0x6D6179 => 5, // may
        0x6A756E => 6, // jun
        0x6A756C => 7, // jul
        0x617567 => 8, // aug
        0x736570 => 9, // sep
        0x6F6374 => 10, // oct
        0x6E6F76 => 11, // nov
        0x646563 => 12, // dec
        _ => 0,
    }
}

pub fn month_from(s: &[u8], at: usize) -> Option<(u32, usize)>
    requires { at ≤ length s.now }
    ensures { result ≡ month_from s.now at }
{
    if s.len() - at < 3 {
        return None;
    }
    let month = month_of(s[at], s[at + 1], s[at + 2]);
    if month == 0 {
        return None;
    }
    Some((month, at + 3))
}

// hour:minute:second
pub fn clock_from(s: &[u8], at: usize) -> Option<(Clock, usize)>
    requires { at ≤ length s.now }
    ensures { result ≡ clock_from s.now at }
{
    let (hour, a) = parsers::number_from(s, at)?;
    let b = parsers::byte_from(s, a, b':')?;
    let (minute, c) = parsers::number_from(s, b)?;
    let d = parsers::byte_from(s, c, b':')?;
    let (second, e) = parsers::number_from(s, d)?;
    Some((
        Clock {
            hour,
            minute,
            second,
        },
        e,
    ))
}

fn two_from(s: &[u8], at: usize) -> Option<(u32, usize)>
    requires { at ≤ length s.now }
    ensures { result ≡ fixed_from 2 s.now at }
{
    parsers::moved(at, digits::two_digits(base::past(s, at)))
}

fn four_from(s: &[u8], at: usize) -> Option<(u32, usize)>
    requires { at ≤ length s.now }
    ensures { result ≡ fixed_from 4 s.now at }
{
    parsers::moved(at, digits::four_digits(base::past(s, at)))
}

fn either_from(s: &[u8], at: usize, a: u8, b: u8) -> Option<usize>
    requires { (0 < a) × (0 < b) }
    ensures { result ≡ either_from s.now at a b }
{
    if base::is_at(s, at, a) | base::is_at(s, at, b) {
        return Some(at + 1);
    }
    None
}

// YYYY-MM-DD
pub fn date_from(s: &[u8], at: usize) -> Option<(Date, usize)>
    requires { at ≤ length s.now }
    ensures { result ≡ date_from s.now at }
{
    let (year, a) = four_from(s, at)?;
    let b = parsers::byte_from(s, a, b'-')?;
    let (month, c) = two_from(s, b)?;
    let d = parsers::byte_from(s, c, b'-')?;
    let (day, e) = two_from(s, d)?;
    Some((Date { year, month, day }, e))
}

// hh:mm:ss
pub fn time_from(s: &[u8], at: usize) -> Option<(Clock, usize)>
    requires { at ≤ length s.now }
    ensures { result ≡ time_from s.now at }
{
    let (hour, a) = two_from(s, at)?;
    let b = parsers::byte_from(s, a, b':')?;
    let (minute, c) = two_from(s, b)?;
    let d = parsers::byte_from(s, c, b':')?;
    let (second, e) = two_from(s, d)?;
    Some((
        Clock {
            hour,
            minute,
            second,
        },
        e,
    ))
}

// The fraction of a second, in nanoseconds.
pub fn nanos_from(s: &[u8], at: usize) -> Option<(u32, usize)>
    requires { at ≤ length s.now }
    ensures { result ≡ nanos_from s.now at }
{
    if !base::is_at(s, at, b'.') {
        return Some((0, at));
    }
    let first = at + 1;
    parsers::moved(first, digits::fraction(base::past(s, first), 9))
}

// The hh:mm of an offset, in minutes.
pub fn minutes_from(s: &[u8], at: usize) -> Option<(u32, usize)>
    requires { at ≤ length s.now }
    ensures { result ≡ minutes_from s.now at }
{
    let (hour, a) = two_from(s, at)?;
    let b = parsers::byte_from(s, a, b':')?;
    let (minute, c) = two_from(s, b)?;
    if (hour <= 23) & (minute <= 59) {
        return Some((hour * 60 + minute, c));
    }
    None
}

// The offset of so many minutes east, less so many west.
fn offset_of(east: u32, west: u32) -> i32
    requires { (east ≤ offset_limit) × (west ≤ offset_limit) }
    ensures { result ≡ sub_ℕ east west }
{
    base::narrow(base::join(east as u64, west as u64))
}

fn east_from(s: &[u8], at: usize) -> Option<(i32, usize)>
    requires { at ≤ length s.now }
    ensures { result ≡ east_of (minutes_from s.now at) }
{
    let (minutes, next) = minutes_from(s, at)?;
    Some((offset_of(minutes, 0), next))
}

fn west_from(s: &[u8], at: usize) -> Option<(i32, usize)>
    requires { at ≤ length s.now }
    ensures { result ≡ west_of (minutes_from s.now at) }
{
    let (minutes, next) = minutes_from(s, at)?;
    Some((offset_of(0, minutes), next))
}

pub fn zone_from(s: &[u8], at: usize) -> Option<(i32, usize)>
    requires { at ≤ length s.now }
    ensures { result ≡ zone_from s.now at }
{
    if base::is_at(s, at, b'Z') | base::is_at(s, at, b'z') {
        return Some((0, at + 1));
    }
    if base::is_at(s, at, b'+') {
        return east_from(s, at + 1);
    }
    if base::is_at(s, at, b'-') {
        return west_from(s, at + 1);
    }
    None
}

// The instant of a local date and clock, where they are valid.
fn stamp_if(
    t: DateTime,
    nanos: u32,
    digits: u32,
    offset: i32,
    next: usize,
) -> Option<(Option<Timestamp>, usize)>
    ensures { result ≡ stamp_if t nanos digits offset next }
{
    if !calendar::is_valid(t) {
        return None;
    }
    let seconds = calendar::seconds_of(t, offset);
    Some((
        Some(Timestamp {
            seconds,
            nanos,
            digits,
            offset,
        }),
        next,
    ))
}

// After the clock: fraction, zone, and a space, which is not consumed.
pub fn end_from(s: &[u8], t: DateTime, at: usize) -> Option<(Option<Timestamp>, usize)>
    requires { at ≤ length s.now }
    ensures { result ≡ end_from s.now t at }
{
    let (nanos, a) = nanos_from(s, at)?;
    let (offset, b) = zone_from(s, a)?;
    if !base::is_at(s, b, b' ') {
        return None;
    }
    stamp_if(t, nanos, digits::after_point(a - at), offset, b)
}

// Date, letter and clock are 19 bytes; asked for at once, they need no test each.
pub fn full_from(s: &[u8], at: usize) -> Option<(Option<Timestamp>, usize)>
    requires { at ≤ length s.now }
    ensures { result ≡ full_from s.now at }
{
    if s.len() - at < 19 {
        return None;
    }
    let (Date { year, month, day }, a) = date_from(s, at)?;
    let b = either_from(s, a, b'T', b't')?;
    let (
        Clock {
            hour,
            minute,
            second,
        },
        c,
    ) = time_from(s, b)?;
    let t = DateTime {
        year,
        month,
        day,
        hour,
        minute,
        second,
    };
    end_from(s, t, c)
}

// Form (c), and RFC 5424's timestamp.
pub fn rfc3339_from(s: &[u8], at: usize) -> Option<(Option<Timestamp>, usize)>
    requires { at ≤ length s.now }
    ensures { result ≡ rfc3339_from s.now at }
{
    if base::is_at(s, at, b'-') {
        return Some((None, at + 1));
    }
    full_from(s, at)
}

// Month name, blanks, day, blanks.
pub fn day_from(s: &[u8], at: usize) -> Option<(Day, usize)>
    requires { at ≤ length s.now }
    ensures { result ≡ day_from s.now at }
{
    let (month, a) = month_from(s, at)?;
    let b = parsers::some_blanks_from(s, a)?;
    let (day, c) = parsers::number_from(s, b)?;
    let d = parsers::some_blanks_from(s, c)?;
    Some((Day { month, day }, d))
}

// Form (a): local time, in the given year and at the given offset.
pub fn without_year(
    s: &[u8],
    at: usize,
    year: u32,
    offset: i32,
) -> Option<(Option<Timestamp>, usize)>
    requires { at ≤ length s.now }
    ensures { result ≡ without_year year offset s.now at }
{
    let (Day { month, day }, a) = day_from(s, at)?;
    let (
        Clock {
            hour,
            minute,
            second,
        },
        b,
    ) = clock_from(s, a)?;
    let t = DateTime {
        year,
        month,
        day,
        hour,
        minute,
        second,
    };
    stamp_if(t, 0, 0, offset, parsers::colon_from(s, b))
}

// The instant of a date and a clock in UTC, shown at the offset, where they are valid and the year shown is one of 0 to 9999.
fn utc_if(t: DateTime, offset: i32, next: usize) -> Option<(Option<Timestamp>, usize)>
    ensures { result ≡ utc_if t offset next }
{
    if !calendar::is_valid(t) {
        return None;
    }
    let seconds = calendar::seconds_of(t, 0);
    if !calendar::is_shown(calendar::shown_at(seconds, offset)) {
        return None;
    }
    Some((
        Some(Timestamp {
            seconds,
            nanos: 0,
            digits: 0,
            offset,
        }),
        next,
    ))
}

// Form (b): the year stands after the day, and the clock is UTC's.
pub fn with_year(s: &[u8], at: usize, offset: i32) -> Option<(Option<Timestamp>, usize)>
    requires { at ≤ length s.now }
    ensures { result ≡ with_year offset s.now at }
{
    let (Day { month, day }, a) = day_from(s, at)?;
    let (year, b) = parsers::number_from(s, a)?;
    let c = parsers::some_blanks_from(s, b)?;
    let (
        Clock {
            hour,
            minute,
            second,
        },
        d,
    ) = clock_from(s, c)?;
    let t = DateTime {
        year,
        month,
        day,
        hour,
        minute,
        second,
    };
    utc_if(t, offset, parsers::colon_from(s, d))
}

// RFC 3164's timestamp: the first of the three forms that is a reading.
pub fn rfc3164_from(
    s: &[u8],
    at: usize,
    year: u32,
    offset: i32,
) -> Option<(Option<Timestamp>, usize)>
    requires { at ≤ length s.now }
    ensures { result ≡ rfc3164_from year offset s.now at }
{
    without_year(s, at, year, offset)
        .or_else(|| with_year(s, at, offset))
        .or_else(|| rfc3339_from(s, at))
}
