// The header of a strict line: priority, version, timestamp and the four names, each read from the part of the line that starts at it.
#![tactic(auto)]

ghost use Rattle.std.specs.Prelude.{◌≡◌, true, ◌+◌, ◌^◌, ◌≤◌, ◌<◌, pos, neg_ℤ, length, take, if◌then◌else◌};
ghost use Rattle.std.proofs.Math.Option.{some};
ghost use Rattle.base.specs.Runs.{run};
ghost use Rattle.calendar.specs.Calendar.{offset_limit};
ghost use Rattle.digits.specs.Digits.{decimal};
ghost use Rattle.grammar.specs.Abnf.{is_digit, print_us_ascii};
ghost use Rattle.grammar.specs.Parse as parse;
ghost use Rattle.grammar.specs.Reading.{place_of, nanos_of, offset_of, stamp_of};
ghost use Rattle.strict_header.specs.Pieces.{plain_to, value_of, minutes_of, pair, triple, ending, text_at, ids_at, names_at};
ghost use Rattle.strict_header.specs.Header.{heading};

use base::{is_at, past};
use calendar::DateTime;
use record::{Place, Timestamp};

// What a header holds, and where the structured data starts.
#[derive(Clone, Copy)]
pub struct HeaderAt {
    pub prival: u32,
    pub version: u32,
    pub timestamp: Option<Timestamp>,
    pub timestamp_text: Place,
    pub host: Place,
    pub app: Place,
    pub procid: Place,
    pub msgid: Place,
    pub next: usize,
}

// A number of at most `max`, with no zero in front of other digits.
fn number(s: &[u8], max: u32) -> Option<(u32, usize)>
    requires { max ≤ 999 }
    ensures { result ≡ value_of decimal (parse.only (plain_to max) (parse.repeat 3 is_digit) s.now) }
{
    let (value, len) = digits::digits(s, max)?;
    if is_at(s, 0, b'0') & (1 < len) {
        return None;
    }
    Some((value, len))
}

// `<`, the priority and `>`.
fn pri(s: &[u8]) -> Option<(u32, usize)>
    ensures { result ≡ value_of decimal (parse.pri s.now) }
{
    if !is_at(s, 0, b'<') {
        return None;
    }
    let t = past(s, 1);
    let (value, len) = number(t, 191)?;
    if !is_at(t, len, b'>') {
        return None;
    }
    Some((value, len + 2))
}

// The version and its space.
fn version(s: &[u8]) -> Option<(u32, usize)>
    ensures { result ≡ value_of decimal (parse.version s.now) }
{
    if is_at(s, 0, b'0') {
        return None;
    }
    let (value, len) = number(s, 999)?;
    if !is_at(s, len, b' ') {
        return None;
    }
    Some((value, len + 1))
}

fn pri_version(s: &[u8]) -> Option<((u32, u32), usize)>
    ensures { result ≡ value_of pair (parse.pri_version s.now) }
{
    let (prival, m) = pri(s)?;
    let (version, n) = version(past(s, m))?;
    Some(((prival, version), m + n))
}

// The byte `b` and two digits.
fn two(s: &[u8], b: u8) -> Option<(u32, usize)>
    requires { 0 < b }
    ensures { result ≡ value_of decimal (parse.two b s.now) }
{
    if !is_at(s, 0, b) {
        return None;
    }
    let (value, len) = digits::two_digits(past(s, 1))?;
    Some((value, len + 1))
}

// The byte `b` and two digits, twice.
fn pair(s: &[u8], b: u8) -> Option<((u32, u32), usize)>
    requires { 0 < b }
    ensures { result ≡ value_of pair (parse.◌next◌ (parse.two b) (parse.two b) s.now) }
{
    let (x, m) = two(s, b)?;
    let (y, n) = two(past(s, m), b)?;
    Some(((x, y), m + n))
}

fn date(s: &[u8]) -> Option<((u32, u32, u32), usize)>
    ensures { result ≡ value_of triple (parse.date s.now) }
{
    let (year, m) = digits::four_digits(s)?;
    let ((month, day), n) = pair(past(s, m), b'-')?;
    if !calendar::is_date(year, month, day) {
        return None;
    }
    Some(((year, month, day), m + n))
}

// `T` and the clock.
fn clock(s: &[u8]) -> Option<((u32, u32, u32), usize)>
    ensures { result ≡ value_of triple (parse.clock s.now) }
{
    let (hour, m) = two(s, b'T')?;
    let ((minute, second), n) = pair(past(s, m), b':')?;
    if !calendar::is_time(hour, minute, second) {
        return None;
    }
    Some(((hour, minute, second), m + n))
}

// The fraction in nanoseconds, 0 where there is none.
fn secfrac(s: &[u8]) -> Option<(u32, usize)>
    ensures { result ≡ value_of nanos_of (parse.secfrac s.now) }
{
    if !is_at(s, 0, b'.') {
        return Some((0, 0));
    }
    let (value, len) = digits::fraction(past(s, 1), 6)?;
    Some((value, len + 1))
}

// The hour and the minute of an offset, in minutes.
fn zone(s: &[u8]) -> Option<(u32, usize)>
    ensures { result ≡ value_of minutes_of (parse.zone s.now) }
{
    let (hour, m) = digits::two_digits(s)?;
    let (minute, n) = two(past(s, m), b':')?;
    if !((hour <= 23) & (minute <= 59)) {
        return None;
    }
    Some((hour * 60 + minute, m + n))
}

// Minutes east of UTC, or west of it.
fn minutes(east: bool, value: u32) -> i32
    requires { value ≤ offset_limit }
    ensures { result ≡ (if east then pos value else neg_ℤ (pos value)) }
{
    let minutes = value as i32;
    if east { minutes } else { -minutes }
}

// `Z`, or a sign and what it signs.
fn offset(s: &[u8]) -> Option<(i32, usize)>
    ensures { result ≡ value_of offset_of (parse.offset s.now) }
{
    if is_at(s, 0, b'Z') {
        return Some((0, 1));
    }
    let east = is_at(s, 0, b'+');
    if !(east | is_at(s, 0, b'-')) {
        return None;
    }
    let (value, len) = zone(past(s, 1))?;
    Some((minutes(east, value), len + 1))
}

// What ends a timestamp: the fraction in nanoseconds, the count of its digits, and the offset.
fn ending(s: &[u8]) -> Option<((u32, u32, i32), usize)>
    ensures { result ≡ value_of ending (parse.◌next◌ parse.secfrac parse.offset s.now) }
{
    let (nanos, m) = secfrac(s)?;
    let (minutes, n) = offset(past(s, m))?;
    Some(((nanos, digits::after_point(m), minutes), m + n))
}

// A date, a clock, and what ends them.
fn full(s: &[u8]) -> Option<(Option<Timestamp>, usize)>
    ensures { result ≡ value_of stamp_of (parse.into some parse.full s.now) }
{
    let ((year, month, day), a) = date(s)?;
    let t = past(s, a);
    let ((hour, minute, second), b) = clock(t)?;
    let ((nanos, digits, offset), c) = ending(past(t, b))?;
    let local = DateTime {
        year,
        month,
        day,
        hour,
        minute,
        second,
    };
    let stamp = Timestamp {
        seconds: calendar::seconds_of(local, offset),
        nanos,
        digits,
        offset,
    };
    Some((Some(stamp), a + (b + c)))
}

// The timestamp or `-`, and its space.
fn timestamp(s: &[u8]) -> Option<(Option<Timestamp>, usize)>
    ensures { result ≡ value_of stamp_of (parse.timestamp s.now) }
{
    if is_at(s, 0, b'-') {
        if !is_at(s, 1, b' ') {
            return None;
        }
        return Some((None, 2));
    }
    let (stamp, len) = full(s)?;
    if !is_at(s, len, b' ') {
        return None;
    }
    Some((stamp, len + 1))
}

// How many printable bytes stand in front.
fn print_run(s: &[u8]) -> usize
    ensures { result ≡ run print_us_ascii s.now }
{
    for (i, &b) in s.iter().enumerate() {
        if !((33 <= b) & (b <= 126)) {
            return i;
        }
    }
    s.len()
}

// The place `at` of the first `len` bytes of `s`; `-` is absent.
fn place_of(s: &[u8], at: usize, len: usize) -> Place
    requires { len ≤ length s.now }
    ensures { result ≡ place_of at (take len s.now) }
{
    if (len == 1) & is_at(s, 0, b'-') {
        record::absent()
    } else {
        record::place_at(at, len)
    }
}

// A field of at most `most` bytes, which starts at `at` of the line, and its space.
fn field(s: &[u8], at: usize, most: usize) -> Option<(Place, usize)>
    ensures { result ≡ value_of (place_of at) (parse.printable most s.now) }
{
    let n = print_run(s);
    if !((1 <= n) & (n <= most)) {
        return None;
    }
    if !is_at(s, n, b' ') {
        return None;
    }
    Some((place_of(s, at, n), n + 1))
}

// The process id, which starts at `at` of the line, the message id, and their spaces.
fn ids(s: &[u8], at: usize) -> Option<((Place, Place), usize)>
    requires { at + length s.now < 2 ^ 64 }
    ensures { result ≡ value_of (ids_at at) (parse.◌next◌ (parse.printable 128) (parse.printable 32) s.now) }
{
    let (procid, m) = field(s, at, 128)?;
    let (msgid, n) = field(past(s, m), at + m, 32)?;
    Some(((procid, msgid), m + n))
}

// The four names, the first of which starts at `at` of the line, and their spaces.
fn names(s: &[u8], at: usize) -> Option<((Place, Place, Place, Place), usize)>
    requires { at + length s.now < 2 ^ 64 }
    ensures { result ≡ value_of (names_at at) (parse.names s.now) }
{
    let (host, a) = field(s, at, 255)?;
    let t = past(s, a);
    let next = at + a;
    let (app, b) = field(t, next, 48)?;
    let ((procid, msgid), c) = ids(past(t, b), next + b)?;
    Some(((host, app, procid, msgid), a + (b + c)))
}

// The place of a timestamp's text, which starts at `at` and takes `len` bytes with its space.
fn text_place(stamp: Option<Timestamp>, at: usize, len: usize) -> Place
    requires { 1 ≤ len }
    ensures { result ≡ text_at stamp at len }
{
    match stamp {
        None => record::absent(),
        Some(_) => record::place_at(at, len - 1),
    }
}

// The header of a line, PRI to MSGID, with the space after it.
pub fn read_header(line: &[u8]) -> Option<HeaderAt>
    ensures { result ≡ heading (parse.header line.now) }
{
    let ((prival, version), at) = pri_version(line)?;
    let s = past(line, at);
    let (timestamp, len) = timestamp(s)?;
    let t = past(s, len);
    let ((host, app, procid, msgid), more) = names(t, at + len)?;
    let next = at + (len + more);
    Some(HeaderAt {
        prival,
        version,
        timestamp,
        timestamp_text: text_place(timestamp, at, len),
        host,
        app,
        procid,
        msgid,
        next,
    })
}
