// The header of a claimed reading, field after field, against the bytes where each is claimed to stand: the digits of the priority, the version and the instant, and
// the places of the texts.
#![tactic(auto)]

ghost use Rattle.std.specs.Prelude.{◌≡◌, true, ◌∷◌, ◌++◌, ◌+◌, ◌*◌, ◌≤◌, nat_abs, length};
ghost use Rattle.base.specs.Diff.{diff_of};
ghost use Rattle.calendar.specs.Calendar.{offset_limit};
ghost use Rattle.output.specs.Numerals.{fixed, width};
ghost use Rattle.record.specs.Limits.{line_limit};
ghost use Rattle.grammar.specs.Abnf.{print_us_ascii};
ghost use Rattle.suits.specs.Suits.{stamp_suits, record_suits};
ghost use Rattle.message_stamp.specs.Stamps.{date_text, time_text, clock_text, fraction_text};
ghost use Rattle.claims.specs.Texts.{fraction_len};
ghost use Rattle.claims.specs.Holds.{next_if, every, stands_at, head_text, head_next, stamp_holds, len_of, stamp_next, text_holds, text_next, names_next, header_next};
ghost use Rattle.claim_header.specs.Zones.{hours_text, zone_len, sign_at, zone_holds, Standing, stamp_stands};

use base::{Diff, is_at};
use calendar::DateTime;
use claims::byte_next;
use record::{Place, Protocol, StrictRecord, Timestamp};

// ---- digits, compared in place

// Whether the last `k` digits of `n` stand at `at`, from the back.
fn digits_at(line: &[u8], at: usize, k: usize, n: u32) -> bool
    requires { at + k ≤ length line.now }
    ensures { result ≡ stands_at line.now at (fixed k n) }
{
    let mut rest = n;
    for i in (0..k).rev() {
        if line[at + i] != (48 + rest % 10) as u8 {
            return false;
        }
        rest /= 10;
    }
    true
}

// The same behind a mark.
fn marked_at(line: &[u8], at: usize, mark: u8, k: usize, n: u32) -> bool
    requires { at + (1 + k) ≤ length line.now }
    ensures { result ≡ stands_at line.now at (mark ∷ fixed k n) }
{
    line[at] == mark && digits_at(line, at + 1, k, n)
}

// ---- the priority and the version

// `<`, the priority, `>`, the version and a space.
fn numbers(line: &[u8], priority: u32, version: u32) -> Option<usize>
    ensures { result ≡ next_if (stands_at line.now 0 (head_text priority version)) (width priority + width version + 3) }
{
    let m = output::digits_of(priority);
    let n = output::digits_of(version);
    let len = m + n + 3;
    if line.len() < len {
        return None;
    }
    if !marked_at(line, 0, b'<', m, priority) {
        return None;
    }
    if !marked_at(line, m + 1, b'>', n, version) {
        return None;
    }
    if !is_at(line, m + n + 2, b' ') {
        return None;
    }
    Some(len)
}

// What a facility and a severity make up.
fn priority_of(facility: u8, severity: u8) -> u32
    ensures { result ≡ facility * 8 + severity }
{
    u32::from(facility) * 8 + u32::from(severity)
}

fn head(
    line: &[u8],
    facility: Option<u8>,
    severity: Option<u8>,
    protocol: Protocol,
) -> Option<usize>
    ensures { result ≡ head_next line.now facility severity protocol }
{
    let f = facility?;
    let s = severity?;
    let Protocol::Rfc5424(v) = protocol else {
        return None;
    };
    if !((f <= 23) & (s <= 7) & ((1 <= v) & (v <= 999))) {
        return None;
    }
    numbers(line, priority_of(f, s), v)
}

// ---- the timestamp

fn date_at(line: &[u8], at: usize, t: DateTime) -> bool
    requires { at + 10 ≤ length line.now }
    ensures { result ≡ stands_at line.now at (date_text t) }
{
    digits_at(line, at, 4, t.year)
        & marked_at(line, at + 4, b'-', 2, t.month)
        & marked_at(line, at + 7, b'-', 2, t.day)
}

fn time_at(line: &[u8], at: usize, t: DateTime) -> bool
    requires { at + 9 ≤ length line.now }
    ensures { result ≡ stands_at line.now at (time_text t) }
{
    marked_at(line, at, b'T', 2, t.hour)
        & marked_at(line, at + 3, b':', 2, t.minute)
        & marked_at(line, at + 6, b':', 2, t.second)
}

fn clock_at(line: &[u8], at: usize, t: DateTime) -> bool
    requires { at + 19 ≤ length line.now }
    ensures { result ≡ stands_at line.now at (clock_text t) }
{
    date_at(line, at, t) & time_at(line, at + 10, t)
}

// How many bytes the point and the digits take.
fn fraction_len(digits: u32) -> usize
    requires { digits ≤ 9 }
    ensures { result ≡ fraction_len digits }
{
    if digits == 0 { 0 } else { digits as usize + 1 }
}

fn fraction_at(line: &[u8], at: usize, digits: u32, nanos: u32) -> bool
    requires { at + fraction_len digits ≤ length line.now }
    ensures { result ≡ stands_at line.now at (fraction_text digits nanos) }
{
    if digits == 0 {
        return true;
    }
    let k = digits as usize;
    marked_at(line, at, b'.', k, nanos / digits::unit(k))
}

// Hours and minutes.
fn hours_at(line: &[u8], at: usize, minutes: u32) -> bool
    requires { at + 5 ≤ length line.now }
    ensures { result ≡ stands_at line.now at (hours_text minutes) }
{
    digits_at(line, at, 2, minutes / 60) & marked_at(line, at + 2, b':', 2, minutes % 60)
}

// The minutes east and west of UTC.
fn offset_parts(t: Timestamp) -> Diff
    ensures { result ≡ diff_of t.offset }
{
    base::split(base::widen(t.offset))
}

// How many bytes the offset takes, by the first of them.
fn zone_len(line: &[u8], at: usize) -> usize
    ensures { result ≡ zone_len line.now at }
{
    if is_at(line, at, b'Z') { 1 } else { 6 }
}

// Whether minutes east or west of UTC stand at `at` with their sign, which is either for 0.
fn sign_at(line: &[u8], at: usize, east: u64, west: u64) -> bool
    requires at_in_bounds { at + 6 ≤ length line.now }
    requires west_bound { east + west ≤ offset_limit }
    ensures { result ≡ sign_at line.now at east west }
{
    let hours = hours_at(line, at + 1, (east + west) as u32);
    if is_at(line, at, b'-') {
        return (east == 0) & hours;
    }
    (west == 0) & is_at(line, at, b'+') & hours
}

// Whether the offset stands at `at`: with its sign, or as `Z` if it is 0.
fn zone_at(line: &[u8], at: usize, t: Timestamp) -> bool
    requires at_in_bounds { at + zone_len line.now at ≤ length line.now }
    requires offset_bound { nat_abs t.offset ≤ offset_limit }
    ensures { result ≡ zone_holds line.now at t.offset }
{
    let o = offset_parts(t);
    if is_at(line, at, b'Z') {
        return (o.up == 0) & (o.down == 0);
    }
    sign_at(line, at, o.up, o.down)
}

// Whether the timestamp's text stands at `at` as the claimed numbers are written, with its offset at `zone`.
fn stamp_stands(line: &[u8], at: usize, zone: usize, t: Timestamp) -> bool
    requires { Standing line.now at zone t }
    ensures { result ≡ stamp_stands line.now at t }
{
    let Some(clock) = calendar::shown_at(t.seconds, t.offset) else {
        return false;
    };
    clock_at(line, at, clock)
        & fraction_at(line, at + 19, t.digits, t.nanos)
        & zone_at(line, zone, t)
}

// The same where it is claimed to stand, with its length.
fn stamp_holds(line: &[u8], at: usize, p: Place, t: Timestamp) -> bool
    requires line_len_bound { length line.now ≤ line_limit }
    requires t_value { stamp_suits (Some t) ≡ true }
    requires len_in_bounds { p.start + p.len ≤ length line.now }
    ensures { result ≡ stamp_holds line.now at p (Some t) }
{
    if 6 < t.digits {
        return false;
    }
    if !p.present {
        return false;
    }
    if p.start != at {
        return false;
    }
    let front = 19 + fraction_len(t.digits);
    let zone = at + front;
    if p.len != front + zone_len(line, zone) {
        return false;
    }
    stamp_stands(line, at, zone, t)
}

// `-` and a space, where no timestamp is claimed.
fn no_stamp(line: &[u8], at: usize, p: Place) -> Option<usize>
    ensures { result ≡ stamp_next line.now at p None }
{
    if p.present {
        return None;
    }
    if !((p.start == 0) & (p.len == 0) & is_at(line, at, b'-')) {
        return None;
    }
    byte_next(line, at + 1, b' ')
}

// The timestamp or `-`, and a space.
fn stamp(line: &[u8], at: usize, p: Place, stamp: Option<Timestamp>) -> Option<usize>
    requires line_len_bound { length line.now ≤ line_limit }
    requires stamp_value { stamp_suits stamp ≡ true }
    requires len_in_bounds { p.start + p.len ≤ length line.now }
    ensures { result ≡ stamp_next line.now at p stamp }
{
    let Some(t) = stamp else {
        return no_stamp(line, at, p);
    };
    if !stamp_holds(line, at, p, t) {
        return None;
    }
    byte_next(line, at + p.len, b' ')
}

// ---- the texts

// Whether every byte is printable.
fn printable(t: &[u8]) -> bool
    ensures { result ≡ every print_us_ascii t.now }
{
    for b in t {
        if !((33 <= *b) & (*b <= 126)) {
            return false;
        }
    }
    true
}

// Whether a text of at most `most` bytes stands at `at` as it is claimed; an absent one is `-`.
fn text_holds(line: &[u8], most: usize, at: usize, p: Place) -> bool
    requires { p.start + p.len ≤ length line.now }
    ensures { result ≡ text_holds line.now most at p }
{
    if !p.present {
        return (p.start == 0) & (p.len == 0) & is_at(line, at, b'-');
    }
    p.start == at
        && 1 <= p.len
        && p.len <= most
        && printable(&line[at..at + p.len])
        && !(p.len == 1 && is_at(line, at, b'-'))
}

// How many bytes a place takes: that of an absent text is `-`.
fn len_of(p: Place) -> usize
    ensures { result ≡ len_of p }
{
    if p.present { p.len } else { 1 }
}

// A text and a space.
fn text(line: &[u8], most: usize, at: usize, p: Place) -> Option<usize>
    requires { p.start + p.len ≤ length line.now }
    ensures { result ≡ text_next line.now most at p }
{
    if !text_holds(line, most, at, p) {
        return None;
    }
    byte_next(line, at + len_of(p), b' ')
}

// App name, process id and message id, each with a space.
fn names(line: &[u8], at: usize, app: Place, procid: Place, msgid: Place) -> Option<usize>
    requires len_in_bounds { app.start + app.len ≤ length line.now }
    requires len_in_bounds_2 { procid.start + procid.len ≤ length line.now }
    requires len_in_bounds_3 { msgid.start + msgid.len ≤ length line.now }
    ensures { result ≡ names_next line.now at app procid msgid }
{
    let b = text(line, 48, at, app)?;
    let c = text(line, 128, b, procid)?;
    text(line, 32, c, msgid)
}

// The header and a space: where the structured data starts.
pub fn header(line: &[u8], r: StrictRecord) -> Option<usize>
    requires line_len_bound { length line.now ≤ line_limit }
    requires common_value { record_suits line.now r.common ≡ true }
    requires timestamp_text_in_bounds { r.timestamp_text.start + r.timestamp_text.len ≤ length line.now }
    ensures { result ≡ header_next line.now r }
{
    let c = r.common;
    let stamp_at = head(line, c.facility, c.severity, c.protocol)?;
    let host_at = stamp(line, stamp_at, r.timestamp_text, c.timestamp)?;
    let app_at = text(line, 255, host_at, c.host)?;
    names(line, app_at, c.app, c.procid, c.msgid)
}
