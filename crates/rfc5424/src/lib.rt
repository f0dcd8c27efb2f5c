// rfc5424.rs: a line by the loose rules of RFC 5424.
#![tactic(auto)]

ghost use Rattle.std.specs.Prelude.{◌≡◌, ◌≤◌, length};
ghost use Rattle.draft.specs.Drafts.{draft_of};
ghost use Rattle.rfc5424.specs.Rfc5424.{blank_host, blank_plain, start_from, four_from, body_from, rfc5424};

use draft::Draft;
use pri::Pri;
use record::{Place, Protocol, Record, Span, Timestamp};
use structured_data::Rules;

// The version and the timestamp.
#[derive(Clone, Copy)]
pub struct Start {
    pub version: u32,
    pub timestamp: Option<Timestamp>,
}

// Host, app, process id and message id.
#[derive(Clone, Copy)]
pub struct Four {
    pub host: Place,
    pub app: Place,
    pub procid: Place,
    pub msgid: Place,
}

// At least one blank, and the host.
fn blank_host(s: &[u8], at: usize) -> Option<(Place, usize)>
    requires { at ≤ length s.now }
    ensures { result ≡ blank_host s.now at }
{
    let a = parsers::some_blanks_from(s, at)?;
    parsers::host_from(s, a)
}

// At least one blank, and a field that is no host.
fn blank_plain(s: &[u8], at: usize) -> Option<(Place, usize)>
    requires { at ≤ length s.now }
    ensures { result ≡ blank_plain s.now at }
{
    let a = parsers::some_blanks_from(s, at)?;
    parsers::plain_from(s, a)
}

// Version and timestamp.
fn start_from(s: &[u8], at: usize) -> Option<(Start, usize)>
    requires { at ≤ length s.now }
    ensures { result ≡ start_from s.now at }
{
    let (version, a) = parsers::number_from(s, at)?;
    let b = parsers::some_blanks_from(s, a)?;
    let (stamp, next) = timestamp::rfc3339_from(s, b)?;
    Some((
        Start {
            version,
            timestamp: stamp,
        },
        next,
    ))
}

// Host, app, process id, message id.
fn four_from(s: &[u8], at: usize) -> Option<(Four, usize)>
    requires { at ≤ length s.now }
    ensures { result ≡ four_from s.now at }
{
    let (host, a) = blank_host(s, at)?;
    let (app, b) = blank_plain(s, a)?;
    let (procid, c) = blank_plain(s, b)?;
    let (msgid, d) = blank_plain(s, c)?;
    Some((
        Four {
            host,
            app,
            procid,
            msgid,
        },
        d,
    ))
}

// After the timestamp.
fn body_from(pri: Pri, version: u32, stamp: Option<Timestamp>, s: &[u8], at: usize) -> Option<Draft>
    requires { at ≤ length s.now }
    ensures { result ≡ draft_of (body_from pri version stamp s.now at) }
{
    let (
        Four {
            host,
            app,
            procid,
            msgid,
        },
        a,
    ) = four_from(s, at)?;
    let b = parsers::blanks_from(s, a);
    let counts = structured_data::count_data(Rules::Rfc5424Rules, s, b)?;
    let message = parsers::blanks_from(s, counts.next);
    let read = Record {
        protocol: Protocol::Rfc5424(version),
        facility: pri.facility,
        severity: pri.severity,
        timestamp: stamp,
        host,
        app,
        procid,
        msgid,
        message: Span {
            start: message,
            len: s.len() - message,
        },
    };
    Some(Draft {
        rules: Rules::Rfc5424Rules,
        read,
        at: b,
        elements: counts.elements,
        params: counts.params,
    })
}

// The line from `start` on, where the trimmed line starts.
pub fn rfc5424(s: &[u8], start: usize) -> Option<Draft>
    requires { start ≤ length s.now }
    ensures { result ≡ draft_of (rfc5424 s.now start) }
{
    let pri = pri::read_pri(base::past(s, start));
    let (
        Start {
            version,
            timestamp: stamp,
        },
        a,
    ) = start_from(s, start + pri.next)?;
    body_from(pri, version, stamp, s, a)
}
