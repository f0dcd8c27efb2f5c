// The Gregorian calendar, seconds since 1970-01-01T00:00:00Z, and the date and clock that they show.
#![tactic(auto)]

ghost use Rattle.std.specs.Prelude.{◌≡◌, true, ◌≤◌, ◌<◌};
ghost use Rattle.calendar.specs.Calendar.{last_year, leap, row, month_days, valid_date, valid_time, valid_offset, valid, year_days, days_before_year, days_of_months, day_number};
ghost use Rattle.calendar.specs.Instant.{local_seconds, seconds_of, year_of, month_of, clock_of, all_seconds, shown, is_shown};

// The days of the twelve months, of a common year and of a leap year.
const MONTHS: [[u32; 12]; 2] = [
    [31, 28, 31, 30, 31, 30, 31, 31, 30, 31, 30, 31],
    [31, 29, 31, 30, 31, 30, 31, 31, 30, 31, 30, 31],
];

// The days of the first months, of 0 to 12 of them.
const BEFORE: [[u32; 13]; 2] = [
    [0, 31, 59, 90, 120, 151, 181, 212, 243, 273, 304, 334, 365],
    [0, 31, 60, 91, 121, 152, 182, 213, 244, 274, 305, 335, 366],
];

// The last year; the first is 0.
pub const LAST_YEAR: u32 = 9999;

// How far an offset may be from UTC, in minutes: less than a day.
pub const OFFSET_LIMIT: u64 = 1439;

// A local date and clock.
#[derive(Clone, Copy)]
pub struct DateTime {
    pub year: u32,
    pub month: u32,
    pub day: u32,
    pub hour: u32,
    pub minute: u32,
    pub second: u32,
}

// Whether the local year is one of 0 to 9999.
pub fn is_shown(x: Option<DateTime>) -> bool
    ensures { result ≡ is_shown x }
{
    x.is_some()
}

#[tactic(auto, unfolding(crate::specs::Calendar::leap))]
fn is_leap(y: u32) -> bool
    ensures { result ≡ leap y }
{
    y % 4 == 0 && (y % 100 != 0 || y % 400 == 0)
}

fn leap_row(y: u32) -> usize
    ensures { result ≡ row (leap y) }
{
    usize::from(is_leap(y))
}

fn month_days(y: u32, m: u32) -> u32
    requires { (1 ≤ m) × (m ≤ 12) }
    ensures { result ≡ month_days y m }
{
    MONTHS[leap_row(y)][(m - 1) as usize]
}

// Whether year `y` has such a month and such a day.
#[tactic(auto, unfolding(crate::specs::Calendar::valid_date))]
pub fn is_date(y: u32, m: u32, d: u32) -> bool
    ensures { result ≡ valid_date y m d }
{
    (1..=12).contains(&m) && (1..=month_days(y, m)).contains(&d)
}

// Whether a day has such a clock: no hour 24, no second 60.
#[tactic(auto, unfolding(crate::specs::Calendar::valid_time))]
pub fn is_time(h: u32, m: u32, s: u32) -> bool
    ensures { result ≡ valid_time h m s }
{
    (h < 24) & (m < 60) & (s < 60)
}

// Whether an offset is one of -1439 to 1439 minutes.
pub fn is_offset(offset: i32) -> bool
    ensures { result ≡ valid_offset offset }
{
    u64::from(offset.unsigned_abs()) <= OFFSET_LIMIT
}

// A date of the years 0 to 9999, and a clock.
#[tactic(auto, unfolding(crate::specs::Calendar::valid))]
pub fn is_valid(t: DateTime) -> bool
    ensures { result ≡ valid t }
{
    t.year <= LAST_YEAR && is_date(t.year, t.month, t.day) && is_time(t.hour, t.minute, t.second)
}

// The days of the years before `y`: of those every fourth is a leap year, but for the hundredth ones, of which every fourth is.
fn days_before_year(y: u32) -> u32
    requires { y ≤ 10000 }
    ensures { result ≡ days_before_year y }
{
    365 * y + (y + 3) / 4 + (y + 399) / 400 - (y + 99) / 100
}

// The days of the first `n` months of `y`.
fn days_of_months(y: u32, n: u32) -> u32
    requires { n ≤ 12 }
    ensures { result ≡ days_of_months y n }
{
    BEFORE[leap_row(y)][n as usize]
}

// Days since 0000-01-01.
fn day_number(y: u32, m: u32, d: u32) -> u32
    requires { (y ≤ last_year) × (1 ≤ m) × (m ≤ 12) × (1 ≤ d) × (d ≤ 31) }
    ensures { result ≡ day_number y m d }
{
    days_before_year(y) + days_of_months(y, m - 1) + (d - 1)
}

// Seconds since 0000-01-01T00:00:00 on the same clock.
fn local_seconds(t: DateTime) -> u64
    requires { valid t ≡ true }
    ensures { result ≡ local_seconds t }
{
    let days = u64::from(day_number(t.year, t.month, t.day));
    let clock = u64::from(t.hour * 3600 + t.minute * 60 + t.second);
    days * 86400 + clock
}

// From 0000-01-01T00:00:00 to 1970-01-01T00:00:00, in seconds.
const EPOCH: i64 = 62_167_219_200;

// The seconds of the years 0 to 9999.
const ALL_SECONDS: u64 = 315_569_520_000;

// Seconds since 1970-01-01T00:00:00Z of a date and a clock `offset` minutes east of UTC.
pub fn seconds_of(t: DateTime, offset: i32) -> i64
    requires { valid t ≡ true }
    ensures { result ≡ seconds_of t offset }
{
    local_seconds(t) as i64 - EPOCH - i64::from(offset) * 60
}

// The year of day `n` since 0000-01-01. Four years have at most 1461 days, so the guess is never late; it is at most four years early.
fn year_of(n: u32) -> u32
    requires { n < 3652425 }
    ensures { result ≡ year_of n }
{
    for y in n / 1461 * 4..LAST_YEAR {
        if n < days_before_year(y + 1) {
            return y;
        }
    }
    LAST_YEAR
}

// The month, from 0, of day `n` of the year.
fn month_of(y: u32, n: u32) -> u32
    requires { n < year_days y }
    ensures { result ≡ month_of y n }
{
    for m in 0..11 {
        if n < days_of_months(y, m + 1) {
            return m;
        }
    }
    11
}

// The date and the clock that `n` seconds since 0000-01-01T00:00:00 show.
fn clock_of(n: u64) -> DateTime
    requires { n < all_seconds }
    ensures { result ≡ clock_of n }
{
    let day = (n / 86400) as u32;
    let time = (n % 86400) as u32;
    let y = year_of(day);
    let left = day - days_before_year(y);
    let m = month_of(y, left);
    let first = days_of_months(y, m);
    DateTime {
        year: y,
        month: m + 1,
        day: left - first + 1,
        hour: time / 3600,
        minute: time / 60 % 60,
        second: time % 60,
    }
}

// What an instant shows `offset` minutes east of UTC.
pub fn shown_at(seconds: i64, offset: i32) -> Option<DateTime>
    ensures { result ≡ shown seconds offset }
{
    let local = seconds.checked_add(i64::from(offset) * 60 + EPOCH)?;
    let n = u64::try_from(local).ok()?;
    if n < ALL_SECONDS {
        Some(clock_of(n))
    } else {
        None
    }
}
