// The strict reader: RFC 5424 section 6, no trimming, into lent tables.
#![tactic(auto)]

ghost use Rattle.std.specs.Prelude.{◌≡◌, ◌≤◌, length};
ghost use Rattle.record.specs.Limits.{line_limit};
ghost use Rattle.grammar.specs.Parse as parse;
ghost use Rattle.grammar.specs.Reading.{StrictReads};
ghost use Rattle.record.specs.Params.{rows};
ghost use Rattle.strict.specs.Scan.{record_with, scan_of, judged, reading_of, answered};

use record::{Param, Protocol, Record, Refusal, Span, StrictReading, StrictRecord};
use strict_data::{Counts, Tail};
use strict_header::HeaderAt;

// What a line holds before its rows are stored: the record, where the structured data stands and how many bytes it takes, and both counts.
#[derive(Clone, Copy)]
struct Scan {
    reading: StrictRecord,
    at: usize,
    len: usize,
    elements: usize,
    params: usize,
}

// The record of a header and a message.
fn record_of(h: HeaderAt, message: Span, present: bool) -> StrictRecord
    requires { h.prival ≤ 191 }
    ensures { result ≡ record_with h message present }
{
    let timestamp = h.timestamp;
    let timestamp_text = h.timestamp_text;
    let host = h.host;
    let app = h.app;
    let procid = h.procid;
    let msgid = h.msgid;
    let common = Record {
        protocol: Protocol::Rfc5424(h.version),
        facility: Some((h.prival / 8) as u8),
        severity: Some((h.prival % 8) as u8),
        timestamp,
        host,
        app,
        procid,
        msgid,
        message,
    };
    StrictRecord {
        common,
        timestamp_text,
        has_message: present,
    }
}

// The first pass, which touches no table.
fn scan_line(line: &[u8]) -> Option<Scan>
    requires { length line.now ≤ line_limit }
    ensures { result ≡ scan_of (parse.parse line.now) }
{
    let h = strict_header::read_header(line)?;
    let at = h.next;
    let s = base::past(line, at);
    let Counts {
        len,
        elements,
        params,
    } = strict_data::count_data(s)?;
    let reading = match strict_data::read_tail(base::past(s, len)) {
        Tail::NoTail => return None,
        Tail::NoMessage => record_of(h, Span { start: 0, len: 0 }, false),
        Tail::IsMessage(n) => record_of(
            h,
            Span {
                start: at + len + 1,
                len: n,
            },
            true,
        ),
    };
    Some(Scan {
        reading,
        at,
        len,
        elements,
        params,
    })
}

// What is known of a line before a table is touched: the refusals in order, tables of `e` and `p` entries.
fn judge(line: &[u8], e: usize, p: usize) -> Result<Scan, Refusal>
    ensures { result ≡ judged line.now e p }
{
    if record::LINE_LIMIT < line.len() {
        return Err(Refusal::LineTooLong);
    }
    let Some(scan) = scan_line(line) else {
        return Err(Refusal::NoReading);
    };
    if e < scan.elements {
        return Err(Refusal::TooManyElements);
    }
    if p < scan.params {
        return Err(Refusal::TooManyParams);
    }
    Ok(scan)
}

fn reading_of(scan: Scan) -> StrictReading
    ensures { result ≡ reading_of scan }
{
    StrictReading {
        reading: scan.reading,
        elements: scan.elements,
        params: scan.params,
    }
}

// What reading answers to tables of `e` and `p` entries, with no table at hand.
pub fn answer(line: &[u8], e: usize, p: usize) -> Result<StrictReading, Refusal>
    ensures { result ≡ answered line.now e p }
{
    Ok(reading_of(judge(line, e, p)?))
}

// Reads a line strictly. On a refusal the tables keep their entries, and entries past the counts are kept always.
pub fn read(
    line: &[u8],
    elements: &mut [[usize; 2]],
    params: &mut [Param],
) -> Result<StrictReading, Refusal>
    ensures { StrictReads line.now elements.old (rows params.old) result elements.new (rows params.new) }
{
    let scan = judge(line, elements.len(), params.len())?;
    strict_data::fill_data(line, scan.at, scan.len, elements, params);
    Ok(reading_of(scan))
}
