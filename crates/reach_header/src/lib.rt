// How far the header of a line goes: each piece is walked from its place in the line, and answers the place after it, or the place where it breaks.
#![tactic(auto)]

ghost use Rattle.std.specs.Prelude.{◌≡◌, true, ◌+◌, ◌-◌, ◌≤◌, ◌<◌, length, get_or, take, drop};
ghost use Rattle.base.specs.Runs.{run};
ghost use Rattle.digits.specs.Digits.{decimal};
ghost use Rattle.calendar.specs.Calendar.{month_days};
ghost use Rattle.grammar.specs.Abnf.{is_digit, print_us_ascii};
ghost use Rattle.reach_header.specs.Pieces.{digits_at, is_over, prival_at, prival_end_at, pri_at, version_at, version_end_at, pri_version_at, ranged_at, two_at, date_at, minutes_at, clock_at, secfrac_at, zone_at, signed_at, offset_at, ending_at, time_at, full_at, stamp_at, timestamp_at, printed_at, field_at, ids_at, app_at, names_at, rest_at, header_at, Digits, Month};

use base::is_at;

// The byte at a place, or 0 past the end.
fn byte_at(s: &[u8], at: usize) -> u8
    ensures { result ≡ get_or s.now at 0 }
{
    if at < s.len() { s[at] } else { 0 }
}

fn is_digit(b: u8) -> bool
    ensures { result ≡ is_digit b }
{
    base::in_range(b'0', b'9', b)
}

// Where the digits from `at` on end.
fn digit_end(s: &[u8], at: usize) -> usize
    ensures { result ≡ at + run is_digit (drop at s.now) }
{
    let mut i = at;
    while i < s.len() {
        let b = s[i];
        if (b'0' <= b) & (b <= b'9') {
            i += 1;
        } else {
            return i;
        }
    }
    i
}

// What a digit writes.
fn digit_value(b: u8) -> u32
    requires { is_digit b ≡ true }
    ensures value { result ≡ b - 48 }
    ensures upper_bound { result ≤ 9 }
{
    (b - b'0') as u32
}

fn digit_at(s: &[u8], at: usize) -> u32
    requires { is_digit (get_or s.now at 0) ≡ true }
    ensures value { result ≡ get_or s.now at 0 - 48 }
    ensures upper_bound { result ≤ 9 }
{
    digit_value(s[at])
}

fn two_at(s: &[u8], at: usize) -> u32
    requires { Digits s.now at 2 }
    ensures { result ≡ decimal (take 2 (drop at s.now)) }
{
    digit_at(s, at) * 10 + digit_at(s, at + 1)
}

fn three_at(s: &[u8], at: usize) -> u32
    requires { Digits s.now at 3 }
    ensures { result ≡ decimal (take 3 (drop at s.now)) }
{
    digit_at(s, at) * 100 + digit_at(s, at + 1) * 10 + digit_at(s, at + 2)
}

fn four_at(s: &[u8], at: usize) -> u32
    requires { Digits s.now at 4 }
    ensures { result ≡ decimal (take 4 (drop at s.now)) }
{
    digit_at(s, at) * 1000
        + digit_at(s, at + 1) * 100
        + digit_at(s, at + 2) * 10
        + digit_at(s, at + 3)
}

// Up to `most` digits.
fn digits_to(s: &[u8], at: usize, most: usize) -> Result<usize, usize>
    ensures { result ≡ digits_at most s.now at }
{
    let end = digit_end(s, at);
    if end == at {
        return Err(at);
    }
    if most < end - at {
        return Err(at + most);
    }
    Ok(end)
}

// ---- PRI VERSION SP

// Whether three digits stand there that write more than 191.
fn is_over(s: &[u8], at: usize) -> bool
    ensures { result ≡ is_over s.now at }
{
    if digit_end(s, at) - at < 3 {
        return false;
    }
    191 < three_at(s, at)
}

// A priority: up to three digits, no zero in front of others, at most 191.
fn prival(s: &[u8], at: usize) -> Result<usize, usize>
    ensures { result ≡ prival_at s.now at }
{
    if is_at(s, at, b'0') {
        if is_digit(byte_at(s, at + 1)) {
            return Err(at + 1);
        }
        return Ok(at + 1);
    }
    if is_over(s, at) {
        return Err(at + 2);
    }
    digits_to(s, at, 3)
}

fn prival_end(s: &[u8], at: usize) -> Result<usize, usize>
    ensures { result ≡ prival_end_at s.now at }
{
    let n = prival(s, at)?;
    if !is_at(s, n, b'>') {
        return Err(n);
    }
    Ok(n + 1)
}

fn pri(s: &[u8], at: usize) -> Result<usize, usize>
    ensures { result ≡ pri_at s.now at }
{
    if !is_at(s, at, b'<') {
        return Err(at);
    }
    prival_end(s, at + 1)
}

// A version: up to three digits, the first no zero.
fn version(s: &[u8], at: usize) -> Result<usize, usize>
    ensures { result ≡ version_at s.now at }
{
    if is_at(s, at, b'0') {
        return Err(at);
    }
    digits_to(s, at, 3)
}

fn version_end(s: &[u8], at: usize) -> Result<usize, usize>
    ensures { result ≡ version_end_at s.now at }
{
    let n = version(s, at)?;
    if !is_at(s, n, b' ') {
        return Err(n);
    }
    Ok(n + 1)
}

fn pri_version(s: &[u8], at: usize) -> Result<usize, usize>
    ensures { result ≡ pri_version_at s.now at }
{
    let n = pri(s, at)?;
    version_end(s, n)
}

// ---- TIMESTAMP SP

// Two digits that write a number from `low` to `high`.
fn ranged(s: &[u8], at: usize, low: u8, high: u8) -> Result<usize, usize>
    ensures { result ≡ ranged_at low high s.now at }
{
    let b = byte_at(s, at);
    if !is_digit(b) {
        return Err(at);
    }
    let tens = (b - b'0') * 10;
    if (tens + 9 < low) | (high < tens) {
        return Err(at);
    }
    let c = byte_at(s, at + 1);
    if !is_digit(c) {
        return Err(at + 1);
    }
    let value = tens + (c - b'0');
    if (value < low) | (high < value) {
        return Err(at + 1);
    }
    Ok(at + 2)
}

// The byte `b` and two digits.
fn two(s: &[u8], at: usize, b: u8, low: u8, high: u8) -> Result<usize, usize>
    requires { 0 < b }
    ensures { result ≡ two_at b low high s.now at }
{
    if !is_at(s, at, b) {
        return Err(at);
    }
    ranged(s, at + 1, low, high)
}

// The last day of a month.
fn last_day(year: u32, month: u32) -> u8
    requires { Month month }
    ensures { result ≡ month_days year month }
{
    if calendar::is_date(year, month, 31) {
        return 31;
    }
    if calendar::is_date(year, month, 30) {
        return 30;
    }
    if calendar::is_date(year, month, 29) {
        return 29;
    }
    28
}

fn date(s: &[u8], at: usize) -> Result<usize, usize>
    ensures { result ≡ date_at s.now at }
{
    let end = digit_end(s, at);
    if end - at < 4 {
        return Err(end);
    }
    let n = two(s, at + 4, b'-', 1, 12)?;
    two(s, n, b'-', 1, last_day(four_at(s, at), two_at(s, at + 5)))
}

// Minute and second, each with its `:`.
fn minutes(s: &[u8], at: usize) -> Result<usize, usize>
    ensures { result ≡ minutes_at s.now at }
{
    let n = two(s, at, b':', 0, 59)?;
    two(s, n, b':', 0, 59)
}

// `T` and the clock.
fn clock(s: &[u8], at: usize) -> Result<usize, usize>
    ensures { result ≡ clock_at s.now at }
{
    let n = two(s, at, b'T', 0, 23)?;
    minutes(s, n)
}

// The fraction, where there is one.
fn secfrac(s: &[u8], at: usize) -> Result<usize, usize>
    ensures { result ≡ secfrac_at s.now at }
{
    if !is_at(s, at, b'.') {
        return Ok(at);
    }
    digits_to(s, at + 1, 6)
}

// The hour and the minute of an offset.
fn zone(s: &[u8], at: usize) -> Result<usize, usize>
    ensures { result ≡ zone_at s.now at }
{
    let n = ranged(s, at, 0, 23)?;
    two(s, n, b':', 0, 59)
}

// A sign and what it signs.
fn signed(s: &[u8], at: usize) -> Result<usize, usize>
    ensures { result ≡ signed_at s.now at }
{
    if is_at(s, at, b'+') {
        return zone(s, at + 1);
    }
    if is_at(s, at, b'-') {
        return zone(s, at + 1);
    }
    Err(at)
}

// `Z`, or what is signed.
fn offset(s: &[u8], at: usize) -> Result<usize, usize>
    ensures { result ≡ offset_at s.now at }
{
    if is_at(s, at, b'Z') {
        return Ok(at + 1);
    }
    signed(s, at)
}

fn ending(s: &[u8], at: usize) -> Result<usize, usize>
    ensures { result ≡ ending_at s.now at }
{
    let n = secfrac(s, at)?;
    offset(s, n)
}

fn time(s: &[u8], at: usize) -> Result<usize, usize>
    ensures { result ≡ time_at s.now at }
{
    let n = clock(s, at)?;
    ending(s, n)
}

fn full(s: &[u8], at: usize) -> Result<usize, usize>
    ensures { result ≡ full_at s.now at }
{
    let n = date(s, at)?;
    time(s, n)
}

// The timestamp or `-`.
fn stamp(s: &[u8], at: usize) -> Result<usize, usize>
    ensures { result ≡ stamp_at s.now at }
{
    if is_at(s, at, b'-') {
        return Ok(at + 1);
    }
    full(s, at)
}

fn timestamp(s: &[u8], at: usize) -> Result<usize, usize>
    ensures { result ≡ timestamp_at s.now at }
{
    let n = stamp(s, at)?;
    if !is_at(s, n, b' ') {
        return Err(n);
    }
    Ok(n + 1)
}

// ---- HOSTNAME SP APP-NAME SP PROCID SP MSGID SP

// Where the printable bytes from `at` on end.
fn print_end(s: &[u8], at: usize) -> usize
    ensures { result ≡ at + run print_us_ascii (drop at s.now) }
{
    let mut i = at;
    while i < s.len() {
        let b = s[i];
        if (33 <= b) & (b <= 126) {
            i += 1;
        } else {
            return i;
        }
    }
    i
}

// Up to `most` printable bytes.
fn printed(s: &[u8], at: usize, most: usize) -> Result<usize, usize>
    ensures { result ≡ printed_at most s.now at }
{
    let end = print_end(s, at);
    if end == at {
        return Err(at);
    }
    if most < end - at {
        return Err(at + most);
    }
    Ok(end)
}

fn field(s: &[u8], at: usize, most: usize) -> Result<usize, usize>
    ensures { result ≡ field_at most s.now at }
{
    let n = printed(s, at, most)?;
    if !is_at(s, n, b' ') {
        return Err(n);
    }
    Ok(n + 1)
}

fn ids(s: &[u8], at: usize) -> Result<usize, usize>
    ensures { result ≡ ids_at s.now at }
{
    let n = field(s, at, 128)?;
    field(s, n, 32)
}

fn app(s: &[u8], at: usize) -> Result<usize, usize>
    ensures { result ≡ app_at s.now at }
{
    let n = field(s, at, 48)?;
    ids(s, n)
}

fn names(s: &[u8], at: usize) -> Result<usize, usize>
    ensures { result ≡ names_at s.now at }
{
    let n = field(s, at, 255)?;
    app(s, n)
}

// ---- HEADER SP

fn rest(s: &[u8], at: usize) -> Result<usize, usize>
    ensures { result ≡ rest_at s.now at }
{
    let n = timestamp(s, at)?;
    names(s, n)
}

// How far the header of a line goes, PRI to MSGID, with the space after it.
pub fn header(line: &[u8]) -> Result<usize, usize>
    ensures { result ≡ header_at line.now 0 }
{
    let n = pri_version(line, 0)?;
    rest(line, n)
}
