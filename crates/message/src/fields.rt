// The head of a printed record, `<p>` to the host, and the names after it; each with its length.
ghost use Rattle.std.specs.Prelude.{◌≡◌, true, ◌++◌, ◌+◌, ◌*◌, ◌≤◌, length};
ghost use Rattle.base.specs.Bytes.{bytes};
ghost use Rattle.base.specs.Texts.{text_at};
ghost use Rattle.record.specs.Limits.{line_limit};
ghost use Rattle.suits.specs.Suits.{record_suits};
ghost use Rattle.output.specs.Fits.{Fits, Sized};
ghost use Rattle.output.specs.Output.{Wrote};
ghost use Rattle.message_stamp.specs.Stamps.{stamp_text};
ghost use Rattle.message.specs.Message.{level_or, pri_text, version_text, place_text, field_text, tag_text, names_text, head_text};

use output::{put, put_number, put_text};
use record::{Place, Protocol, Record};

// A text of the line.
fn text_at(line: &[u8], start: usize, len: usize) -> &[u8]
    requires { start + len ≤ length line.now }
    ensures { result.now ≡ text_at line.now start len }
{
    let end = start + len;
    &line[start..end]
}

// A part of the line.
pub fn put_part(out: &mut [u8], at: usize, line: &[u8], start: usize, len: usize) -> usize
    requires fits { Fits out.old at (text_at line.now start len) }
    requires len_in_bounds { start + len ≤ length line.now }
    ensures { Wrote out.old at (text_at line.now start len) result out.new }
{
    put_text(out, at, text_at(line, start, len))
}

fn level_or(other: u8, level: Option<u8>) -> u8
    ensures { result ≡ level_or other level }
{
    match level {
        None => other,
        Some(n) => n,
    }
}

fn pri_of(r: Record) -> u32
    ensures { result ≡ level_or 5 r.facility * 8 + level_or 7 r.severity }
{
    let facility = r.facility;
    let severity = r.severity;
    level_or(5, facility) as u32 * 8 + level_or(7, severity) as u32
}

fn put_pri(out: &mut [u8], r: Record) -> usize
    requires { Fits out.old 0 (pri_text r) }
    ensures { Wrote out.old 0 (pri_text r) result out.new }
{
    let p = pri_of(r);
    let a = put(out, 0, b'<');
    let b = put_number(out, a, p);
    put(out, b, b'>')
}

fn pri_len(r: Record) -> usize
    ensures { Sized (pri_text r) 12 result }
{
    2 + output::digits_of(pri_of(r))
}

fn put_version(out: &mut [u8], at: usize, r: Record) -> usize
    requires { Fits out.old at (version_text r.protocol) }
    ensures { Wrote out.old at (version_text r.protocol) result out.new }
{
    let protocol = r.protocol;
    match protocol {
        Protocol::Rfc3164 => at,
        Protocol::Rfc5424(version) => put_number(out, at, version),
    }
}

fn version_len(r: Record) -> usize
    ensures { Sized (version_text r.protocol) 10 result }
{
    let protocol = r.protocol;
    match protocol {
        Protocol::Rfc3164 => 0,
        Protocol::Rfc5424(version) => output::digits_of(version),
    }
}

fn put_place(out: &mut [u8], at: usize, line: &[u8], p: Place) -> usize
    requires fits { Fits out.old at (place_text line.now p) }
    requires len_in_bounds { p.start + p.len ≤ length line.now }
    ensures { Wrote out.old at (place_text line.now p) result out.new }
{
    if p.present {
        return put_part(out, at, line, p.start, p.len);
    }
    put(out, at, b'-')
}

fn place_len(line: &[u8], p: Place) -> usize
    requires line_len_bound { length line.now ≤ line_limit }
    requires len_in_bounds { p.start + p.len ≤ length line.now }
    ensures { Sized (place_text line.now p) line_limit result }
{
    if p.present {
        return text_at(line, p.start, p.len).len();
    }
    1
}

fn put_field(out: &mut [u8], at: usize, line: &[u8], p: Place) -> usize
    requires fits { Fits out.old at (field_text line.now p) }
    requires len_in_bounds { p.start + p.len ≤ length line.now }
    ensures { Wrote out.old at (field_text line.now p) result out.new }
{
    let a = put_place(out, at, line, p);
    put(out, a, b' ')
}

fn put_start(out: &mut [u8], r: Record) -> usize
    requires { Fits out.old 0 (pri_text r ++ version_text r.protocol ++ bytes " ") }
    ensures { Wrote out.old 0 (pri_text r ++ version_text r.protocol ++ bytes " ") result out.new }
{
    let a = put_pri(out, r);
    let b = put_version(out, a, r);
    put(out, b, b' ')
}

// The timestamp's printer gets the part of the output after the version's space.
fn put_stamp_at(out: &mut [u8], at: usize, r: Record) -> usize
    requires { Fits out.old at (stamp_text r.timestamp) }
    ensures { Wrote out.old at (stamp_text r.timestamp) result out.new }
{
    let timestamp = r.timestamp;
    at + message_stamp::put_stamp(&mut out[at..], timestamp)
}

fn put_stamped(out: &mut [u8], r: Record) -> usize
    requires { Fits out.old 0 (pri_text r ++ version_text r.protocol ++ bytes " " ++ stamp_text r.timestamp) }
    ensures { Wrote out.old 0 (pri_text r ++ version_text r.protocol ++ bytes " " ++ stamp_text r.timestamp) result out.new }
{
    let a = put_start(out, r);
    put_stamp_at(out, a, r)
}

fn put_head(out: &mut [u8], line: &[u8], r: Record) -> usize
    requires fits { Fits out.old 0 (head_text line.now r) }
    requires r_value { record_suits line.now r ≡ true }
    ensures { Wrote out.old 0 (head_text line.now r) result out.new }
{
    let host = r.host;
    let a = put_stamped(out, r);
    let b = put(out, a, b' ');
    put_field(out, b, line, host)
}

fn head_len(line: &[u8], r: Record) -> usize
    requires line_len_bound { length line.now ≤ line_limit }
    requires r_value { record_suits line.now r ≡ true }
    ensures { Sized (head_text line.now r) (line_limit + 60) result }
{
    let timestamp = r.timestamp;
    let host = r.host;
    pri_len(r) + version_len(r) + message_stamp::stamp_len(timestamp) + place_len(line, host) + 3
}

// `[pid]: `
fn put_pid(out: &mut [u8], at: usize, line: &[u8], procid: Place) -> usize
    requires fits { Fits out.old at (bytes "[" ++ place_text line.now procid ++ bytes "]: ") }
    requires len_in_bounds { procid.start + procid.len ≤ length line.now }
    ensures { Wrote out.old at (bytes "[" ++ place_text line.now procid ++ bytes "]: ") result out.new }
{
    let a = put(out, at, b'[');
    let b = put_place(out, a, line, procid);
    put_text(out, b, b"]: ")
}

fn put_tag(out: &mut [u8], at: usize, line: &[u8], app: Place, procid: Place) -> usize
    requires fits { Fits out.old at (tag_text line.now app procid) }
    requires len_in_bounds { app.start + app.len ≤ length line.now }
    requires len_in_bounds_2 { procid.start + procid.len ≤ length line.now }
    ensures { Wrote out.old at (tag_text line.now app procid) result out.new }
{
    if !app.present {
        return put_text(out, at, b": ");
    }
    let a = put_place(out, at, line, app);
    if !procid.present {
        return put_text(out, a, b": ");
    }
    put_pid(out, a, line, procid)
}

fn put_ids(out: &mut [u8], at: usize, line: &[u8], r: Record) -> usize
    requires fits { Fits out.old at (field_text line.now r.app ++ field_text line.now r.procid ++ field_text line.now r.msgid) }
    requires r_value { record_suits line.now r ≡ true }
    ensures { Wrote out.old at (field_text line.now r.app ++ field_text line.now r.procid ++ field_text line.now r.msgid) result out.new }
{
    let app = r.app;
    let procid = r.procid;
    let msgid = r.msgid;
    let a = put_field(out, at, line, app);
    let b = put_field(out, a, line, procid);
    put_field(out, b, line, msgid)
}

fn put_names(out: &mut [u8], at: usize, line: &[u8], r: Record) -> usize
    requires fits { Fits out.old at (names_text line.now r r.protocol) }
    requires r_value { record_suits line.now r ≡ true }
    ensures { Wrote out.old at (names_text line.now r r.protocol) result out.new }
{
    let app = r.app;
    let procid = r.procid;
    let protocol = r.protocol;
    match protocol {
        Protocol::Rfc3164 => put_tag(out, at, line, app, procid),
        Protocol::Rfc5424(_) => put_ids(out, at, line, r),
    }
}

fn tag_len(line: &[u8], app: Place, procid: Place) -> usize
    requires line_len_bound { length line.now ≤ line_limit }
    requires len_in_bounds { app.start + app.len ≤ length line.now }
    requires len_in_bounds_2 { procid.start + procid.len ≤ length line.now }
    ensures { Sized (tag_text line.now app procid) (2 * line_limit + 4) result }
{
    if !app.present {
        return 2;
    }
    if !procid.present {
        return place_len(line, app) + 2;
    }
    place_len(line, app) + place_len(line, procid) + 4
}

fn names_len(line: &[u8], r: Record) -> usize
    requires line_len_bound { length line.now ≤ line_limit }
    requires r_value { record_suits line.now r ≡ true }
    ensures { Sized (names_text line.now r r.protocol) (3 * line_limit + 3) result }
{
    let app = r.app;
    let procid = r.procid;
    let msgid = r.msgid;
    let protocol = r.protocol;
    match protocol {
        Protocol::Rfc3164 => tag_len(line, app, procid),
        Protocol::Rfc5424(_) => place_len(line, app)
            + place_len(line, procid)
            + place_len(line, msgid)
            + 3,
    }
}

// Head and names.
pub fn put_front(out: &mut [u8], line: &[u8], r: Record) -> usize
    requires fits { Fits out.old 0 (head_text line.now r ++ names_text line.now r r.protocol) }
    requires r_value { record_suits line.now r ≡ true }
    ensures { Wrote out.old 0 (head_text line.now r ++ names_text line.now r r.protocol) result out.new }
{
    let a = put_head(out, line, r);
    put_names(out, a, line, r)
}

// How many bytes head and names take.
pub fn front_len(line: &[u8], r: Record) -> usize
    requires line_len_bound { length line.now ≤ line_limit }
    requires r_value { record_suits line.now r ≡ true }
    ensures { Sized (head_text line.now r ++ names_text line.now r r.protocol) (4 * line_limit + 63) result }
{
    head_len(line, r) + names_len(line, r)
}
