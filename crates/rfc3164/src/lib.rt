// rfc3164.rs: a line by the rules of RFC 3164.
#![tactic(auto)]

ghost use Rattle.std.specs.Prelude.{◌≡◌, ◌+◌, ◌≤◌, length, if◌then◌else◌};
ghost use Rattle.base.specs.Runs.{run};
ghost use Rattle.draft.specs.Drafts.{draft_of};
ghost use Rattle.rfc3164.specs.Names.{is_app, split_at, split_of, no_names, with_tag, only_field, host_and_tag};
ghost use Rattle.rfc3164.specs.Rfc3164.{spaced_host, spaced_tag, behind_field, tag_end, tagged_from, header_from, body_from, rfc3164};
ghost use Rattle.rfc3164.specs.Steps.{closes_at, FieldWithin, rest_from, record_of};

use draft::Draft;
use pri::Pri;
use record::{Place, Protocol, Record, Span, Timestamp};
use structured_data::Rules;

// What host and tag give.
#[derive(Clone, Copy)]
pub struct Names {
    pub host: Place,
    pub app: Place,
    pub procid: Place,
}

// What host and tag give, and the position after them.
#[derive(Clone, Copy)]
struct Header {
    names: Names,
    next: usize,
}

// The counts of elements and parameters, and the position of the message after them.
#[derive(Clone, Copy)]
struct Rest {
    elements: usize,
    params: usize,
    message: usize,
}

fn is_app(b: u8) -> bool
    ensures { result ≡ is_app b }
{
    !((b == b':') | (b == b'['))
}

// How many bytes at the front of `s` may be an app's.
fn app_run(s: &[u8]) -> usize
    ensures { result ≡ run is_app s.now }
{
    let mut i = 0;
    while i < s.len() {
        if !is_app(s[i]) {
            return i;
        }
        i += 1;
    }
    i
}

// Whether the byte at `end` is a `]` and the last one.
fn closes_at(s: &[u8], end: usize) -> bool
    ensures { result ≡ closes_at s.now end }
{
    if !base::is_at(s, end, b']') {
        return false;
    }
    end + 1 == s.len()
}

// Whether the whole field `s` is `app[pid]`.
fn split_at(s: &[u8]) -> Option<(usize, usize)>
    ensures { result ≡ split_at s.now }
{
    let app = app_run(s);
    if !base::is_at(s, app, b'[') {
        return None;
    }
    let start = app + 1;
    let pid = parsers::inside_run(base::past(s, start));
    if pid == 0 {
        return None;
    }
    if !closes_at(s, start + pid) {
        return None;
    }
    Some((app, pid))
}

// The same of a place of the line.
fn split_of(s: &[u8], p: Place) -> Option<(usize, usize)>
    requires { p.start + p.len ≤ length s.now }
    ensures { result ≡ split_of s.now p }
{
    let start = p.start;
    let end = start + p.len;
    split_at(&s[start..end])
}

fn no_names() -> Names
    ensures { result ≡ no_names }
{
    let absent = record::absent();
    Names {
        host: absent,
        app: absent,
        procid: absent,
    }
}

// Host as read, tag split if it can be. A tag `-`: all three absent.
fn with_tag(s: &[u8], host: Place, tag: Place) -> Names
    requires { tag.start + tag.len ≤ length s.now }
    ensures { result ≡ (if tag.present then with_tag host tag (split_of s.now tag) else no_names) }
{
    if !tag.present {
        return no_names();
    }
    let Some((app, pid)) = split_of(s, tag) else {
        return Names {
            host,
            app: tag,
            procid: record::absent(),
        };
    };
    let start = tag.start;
    Names {
        host,
        app: record::place_at(start, app),
        procid: record::place_at(start + app + 1, pid),
    }
}

// One field only: split, else it is the host. A field `-`: all three absent.
fn only_field(s: &[u8], field: Place) -> Names
    requires { field.start + field.len ≤ length s.now }
    ensures { result ≡ (if field.present then only_field field (split_of s.now field) else no_names) }
{
    if !field.present {
        return no_names();
    }
    let none = record::absent();
    let Some((app, pid)) = split_of(s, field) else {
        return Names {
            host: field,
            app: none,
            procid: none,
        };
    };
    let start = field.start;
    Names {
        host: none,
        app: record::place_at(start, app),
        procid: record::place_at(start + app + 1, pid),
    }
}

// What a host and the tag after it give.
fn host_and_tag(s: &[u8], host: Place, tag: Option<(Place, usize)>) -> Names
    requires len_in_bounds { host.start + host.len ≤ length s.now }
    requires field_within { FieldWithin s.now tag }
    ensures { result ≡ host_and_tag s.now host tag }
{
    match tag {
        Some((t, _)) => with_tag(s, host, t),
        None => only_field(s, host),
    }
}

// One space and a field.
fn spaced_host(s: &[u8], at: usize) -> Option<(Place, usize)>
    ensures { result ≡ spaced_host s.now at }
{
    let a = parsers::byte_from(s, at, b' ')?;
    parsers::host_from(s, a)
}

fn spaced_tag(s: &[u8], at: usize) -> Option<(Place, usize)>
    ensures { result ≡ spaced_tag s.now at }
{
    let a = parsers::byte_from(s, at, b' ')?;
    parsers::tag_from(s, a)
}

// Where reading goes on.
fn behind_field(at: usize, field: Option<(Place, usize)>) -> usize
    ensures { result ≡ behind_field at field }
{
    match field {
        None => at,
        Some((_, next)) => next,
    }
}

// Blanks, an optional `:`, blanks.
fn tag_end(s: &[u8], at: usize) -> usize
    requires { at ≤ length s.now }
    ensures { result ≡ tag_end s.now at }
{
    let colon = parsers::blanks_from(s, at);
    let next = parsers::colon_from(s, colon);
    parsers::blanks_from(s, next)
}

// After the host: the tag, and what both give.
fn tagged_from(s: &[u8], host: Place, at: usize) -> Header
    requires len_in_bounds { host.start + host.len ≤ length s.now }
    requires at_in_bounds { at ≤ length s.now }
    ensures { result ≡ tagged_from s.now host at }
{
    let tag = spaced_tag(s, at);
    let next = behind_field(at, tag);
    Header {
        names: host_and_tag(s, host, tag),
        next,
    }
}

// Host and tag. Where there is no host, no tag is tried.
fn header_from(s: &[u8], at: usize) -> Header
    requires { at ≤ length s.now }
    ensures { result ≡ header_from s.now at }
{
    let Some((host, next)) = spaced_host(s, at) else {
        return Header {
            names: no_names(),
            next: at,
        };
    };
    tagged_from(s, host, next)
}

// Optional structured data, blanks, message.
fn rest_from(s: &[u8], at: usize) -> Rest
    requires { at ≤ length s.now }
    ensures { result ≡ rest_from s.now at }
{
    let Some(counts) = structured_data::count_data(Rules::Rfc3164Rules, s, at) else {
        return Rest {
            elements: 0,
            params: 0,
            message: parsers::blanks_from(s, at),
        };
    };
    Rest {
        elements: counts.elements,
        params: counts.params,
        message: parsers::blanks_from(s, counts.next),
    }
}

fn record_of(pri: Pri, stamp: Option<Timestamp>, names: Names, message: Span) -> Record
    ensures { result ≡ record_of pri stamp names message }
{
    let facility = pri.facility;
    let severity = pri.severity;
    let host = names.host;
    let app = names.app;
    let procid = names.procid;
    Record {
        protocol: Protocol::Rfc3164,
        facility,
        severity,
        timestamp: stamp,
        host,
        app,
        procid,
        msgid: record::absent(),
        message,
    }
}

// After the timestamp.
fn body_from(pri: Pri, stamp: Option<Timestamp>, s: &[u8], at: usize) -> Option<Draft>
    requires { at ≤ length s.now }
    ensures { result ≡ draft_of (body_from pri stamp s.now at) }
{
    let header = header_from(s, at);
    let names = header.names;
    let data = tag_end(s, header.next);
    let rest = rest_from(s, data);
    let start = rest.message;
    let message = Span {
        start,
        len: s.len() - start,
    };
    let read = record_of(pri, stamp, names, message);
    Some(Draft {
        rules: Rules::Rfc3164Rules,
        read,
        at: data,
        elements: rest.elements,
        params: rest.params,
    })
}

// The line from `start` on.
pub fn rfc3164(s: &[u8], start: usize, year: u32, offset: i32) -> Option<Draft>
    requires { start ≤ length s.now }
    ensures { result ≡ draft_of (rfc3164 year offset s.now start) }
{
    let pri = pri::read_pri(base::past(s, start));
    let next = parsers::blanks_from(s, start + pri.next);
    let (stamp, at) = timestamp::rfc3164_from(s, next, year, offset)?;
    body_from(pri, stamp, s, at)
}
