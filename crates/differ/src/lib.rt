// What differs between two readings.
#![tactic(auto)]

ghost use Rattle.std.specs.Prelude.{◌≡◌, [], map, ◌+◌, ◌≤◌, ◌<◌, length, get_or, take};
ghost use Rattle.keyed.specs.Notes.{Listed};
ghost use Rattle.base.specs.Texts.{text_at, same_text};
ghost use Rattle.differ.specs.Seen.{text_of, time_of, id_of};
ghost use Rattle.differ.specs.Differences.{same_protocol, same_level, same_time, same_given};
ghost use Rattle.differ.specs.Steps.{same_eight, mark_of, Marks, level_marks, head_marks, text_marks, message_mark, RecordIn, IdIn, common_ids, pair_part, part_of, part_from, seen_by, Readable, Differs};

use pairs::Odd;
use record::{Place, Protocol, Record, Timestamp};

// Which of the ten fields differ: bit k of `fields` is the k-th. Where the elements do, the first position that differs and, where both lines have one id there,
// the line (1 or 2; else 0) and the entry of its parameter table whose pair does not occur as often in the other.
#[derive(Clone, Copy)]
pub struct Differences {
    pub fields: u32,
    pub position: usize,
    pub pair_line: u32,
    pub pair_entry: usize,
}

// ---- fields

fn same_protocol(a: Protocol, b: Protocol) -> bool
    ensures { result ≡ same_protocol a b }
{
    a == b
}

fn same_level(a: Option<u8>, b: Option<u8>) -> bool
    ensures { result ≡ same_level a b }
{
    a == b
}

// The instant and the offset; the digit count is none of it.
fn same_time(t: Timestamp, u: Timestamp) -> bool
    ensures { result ≡ same_time (time_of (Some t)) (time_of (Some u)) }
{
    t.seconds == u.seconds && t.nanos == u.nanos && t.offset == u.offset
}

fn same_stamp(a: Option<Timestamp>, b: Option<Timestamp>) -> bool
    ensures { result ≡ same_time (time_of a) (time_of b) }
{
    match (a, b) {
        (None, None) => true,
        (Some(t), Some(u)) => same_time(t, u),
        _ => false,
    }
}

// Eight bytes at a time: the compiler takes them as one number.
fn same_eight(a: &[u8], b: &[u8], i: usize) -> bool
    requires i_in_bounds { i + 8 ≤ length a.now }
    requires i_in_bounds_2 { i + 8 ≤ length b.now }
    ensures { result ≡ same_eight a.now b.now i }
{
    (a[i] == b[i])
        & (a[i + 1] == b[i + 1])
        & (a[i + 2] == b[i + 2])
        & (a[i + 3] == b[i + 3])
        & (a[i + 4] == b[i + 4])
        & (a[i + 5] == b[i + 5])
        & (a[i + 6] == b[i + 6])
        & (a[i + 7] == b[i + 7])
}

// For texts that may be long, as messages are.
fn same_long(a: &[u8], b: &[u8]) -> bool
    ensures { result ≡ same_text a.now b.now }
{
    let n = a.len();
    if n != b.len() {
        return false;
    }
    let mut i = 0;
    while 8 <= n - i {
        if !same_eight(a, b, i) {
            return false;
        }
        i += 8;
    }
    base::same_text(base::past(a, i), base::past(b, i))
}

fn part_at(line: &[u8], start: usize, len: usize) -> &[u8]
    requires { start + len ≤ length line.now }
    ensures { result.now ≡ text_at line.now start len }
{
    &line[start..start + len]
}

fn same_part(
    line1: &[u8],
    start1: usize,
    len1: usize,
    line2: &[u8],
    start2: usize,
    len2: usize,
) -> bool
    requires len1_in_bounds { start1 + len1 ≤ length line1.now }
    requires len2_in_bounds { start2 + len2 ≤ length line2.now }
    ensures { result ≡ same_text (text_at line1.now start1 len1) (text_at line2.now start2 len2) }
{
    base::same_text(part_at(line1, start1, len1), part_at(line2, start2, len2))
}

// Absent and empty differ.
fn same_place(line1: &[u8], p: Place, line2: &[u8], q: Place) -> bool
    requires len_in_bounds { p.start + p.len ≤ length line1.now }
    requires len_in_bounds_2 { q.start + q.len ≤ length line2.now }
    ensures { result ≡ same_given (text_of line1.now p) (text_of line2.now q) }
{
    if p.present & q.present {
        same_part(line1, p.start, p.len, line2, q.start, q.len)
    } else {
        !(p.present | q.present)
    }
}

fn mark(same: bool) -> u32
    ensures { Marks (mark_of same) 1 result }
{
    u32::from(!same)
}

// Facility and severity: a bit each.
fn level_marks(a: Record, b: Record) -> u32
    ensures { Marks (level_marks a b) 3 result }
{
    mark(same_level(a.facility, b.facility)) + 2 * mark(same_level(a.severity, b.severity))
}

// Protocol, facility, severity and timestamp.
fn head_marks(a: Record, b: Record) -> u32
    ensures { Marks (head_marks a b) 15 result }
{
    let protocol = mark(same_protocol(a.protocol, b.protocol));
    let timestamp = mark(same_stamp(a.timestamp, b.timestamp));
    protocol + 2 * level_marks(a, b) + 8 * timestamp
}

fn place_mark(line1: &[u8], p: Place, line2: &[u8], q: Place) -> u32
    requires len_in_bounds { p.start + p.len ≤ length line1.now }
    requires len_in_bounds_2 { q.start + q.len ≤ length line2.now }
    ensures { Marks (mark_of (same_given (text_of line1.now p) (text_of line2.now q))) 1 result }
{
    mark(same_place(line1, p, line2, q))
}

// Host, app, process id and message id.
fn text_marks(line1: &[u8], a: Record, line2: &[u8], b: Record) -> u32
    requires record_in { RecordIn line1.now a }
    requires record_in_2 { RecordIn line2.now b }
    ensures { Marks (text_marks line1.now a line2.now b) 15 result }
{
    let host = place_mark(line1, a.host, line2, b.host);
    let app = place_mark(line1, a.app, line2, b.app);
    let procid = place_mark(line1, a.procid, line2, b.procid);
    let msgid = place_mark(line1, a.msgid, line2, b.msgid);
    host + 2 * app + 4 * procid + 8 * msgid
}

// ---- elements

fn same_id(
    line1: &[u8],
    elements1: &[[usize; 2]],
    line2: &[u8],
    elements2: &[[usize; 2]],
    i: usize,
) -> bool
    requires id_in { IdIn line1.now elements1.now i }
    requires id_in_2 { IdIn line2.now elements2.now i }
    ensures { result ≡ same_text (id_of line1.now (get_or elements1.now i [])) (id_of line2.now (get_or elements2.now i [])) }
{
    let a = elements1[i];
    let b = elements2[i];
    same_part(line1, a[0], a[1], line2, b[0], b[1])
}

// How many ids in front are the same in both lines.
fn common_ids(
    line1: &[u8],
    elements1: &[[usize; 2]],
    n1: usize,
    line2: &[u8],
    elements2: &[[usize; 2]],
    n2: usize,
) -> usize
    requires listed { Listed line1.now elements1.now n1 }
    requires listed_2 { Listed line2.now elements2.now n2 }
    ensures { result ≡ common_ids (map (id_of line1.now) (take n1 elements1.now)) (map (id_of line2.now) (take n2 elements2.now)) }
{
    let n = n1.min(n2);
    for i in 0..n {
        if !same_id(line1, elements1, line2, elements2, i) {
            return i;
        }
    }
    n
}

// Where the elements differ, and the pair as `Differences` has it.
#[derive(Clone, Copy)]
struct Part {
    position: usize,
    line: u32,
    entry: usize,
}

fn pair_part(odd: Odd, m: usize) -> Part
    ensures { result ≡ pair_part odd m }
{
    let position = odd.element;
    if odd.entry < m {
        Part {
            position,
            line: 1,
            entry: odd.entry,
        }
    } else {
        Part {
            position,
            line: 2,
            entry: odd.entry - m,
        }
    }
}

// Where they do, from the ids that are the same, `k`, the longer list's length, and the pair that is odd, of `n` pairs of which `m` are the first line's.
fn part_of(k: usize, longer: usize, odd: Odd, m: usize, n: usize) -> Option<Part>
    ensures { result ≡ part_of k longer odd m n }
{
    if odd.entry < n && odd.element < k {
        Some(pair_part(odd, m))
    } else if k < longer {
        Some(Part {
            position: k,
            line: 0,
            entry: 0,
        })
    } else {
        None
    }
}

// A line that is read: its record, where the trimmed line ends, and the counts.
#[derive(Clone, Copy)]
pub struct Line {
    pub read: Record,
    pub end: usize,
    pub ids: usize,
    pub params: usize,
}

fn elements_part(
    line1: &[u8],
    a: Line,
    elements1: &[[usize; 2]],
    line2: &[u8],
    b: Line,
    elements2: &[[usize; 2]],
) -> Option<Part>
    requires readable { Readable line1.now a elements1.now }
    requires readable_2 { Readable line2.now b elements2.now }
    ensures { result ≡ part_from (seen_by line1.now a elements1.now) (seen_by line2.now b elements2.now) }
{
    let k = common_ids(line1, elements1, a.ids, line2, elements2, b.ids);
    let odd = keyed::first_odd(
        &line1[..a.end],
        elements1,
        a.ids,
        &line2[..b.end],
        elements2,
        b.ids,
    );
    part_of(k, a.ids.max(b.ids), odd, a.params, a.params + b.params)
}

fn message_mark(line1: &[u8], a: Record, line2: &[u8], b: Record) -> u32
    requires record_in { RecordIn line1.now a }
    requires record_in_2 { RecordIn line2.now b }
    ensures { Marks (message_mark line1.now a line2.now b) 1 result }
{
    let x = part_at(line1, a.message.start, a.message.len);
    let y = part_at(line2, b.message.start, b.message.len);
    mark(same_long(x, y))
}

// What differs between two lines that are read. (The elements' tables are lent on as they came, and are not changed.)
pub fn differ_in(
    line1: &[u8],
    a: Line,
    elements1: &mut [[usize; 2]],
    line2: &[u8],
    b: Line,
    elements2: &mut [[usize; 2]],
) -> Differences
    requires readable { Readable line1.now a elements1.old }
    requires readable_2 { Readable line2.now b elements2.old }
    ensures { Differs line1.now a elements1.old line2.now b elements2.old result elements1.new elements2.new }
{
    let part = elements_part(line1, a, elements1, line2, b, elements2);
    let head = head_marks(a.read, b.read);
    let texts = text_marks(line1, a.read, line2, b.read);
    let message = message_mark(line1, a.read, line2, b.read);
    let data = u32::from(part.is_some());
    let Part {
        position,
        line,
        entry,
    } = part.unwrap_or(Part {
        position: 0,
        line: 0,
        entry: 0,
    });
    Differences {
        fields: head + 16 * texts + 256 * data + 512 * message,
        position,
        pair_line: line,
        pair_entry: entry,
    }
}
