// How far the structured data and the message of a line go. Each piece is walked from its place in the line, and answers the place after it, or the place where it breaks.
#![tactic(auto)]

ghost use Rattle.std.specs.Prelude.{◌≡◌, not, [], ◌+◌, ◌-◌, ◌*◌, ◌^◌, ◌≤◌, ◌<◌, length, get_or, set, take, drop};
ghost use Rattle.base.specs.Runs.{run};
ghost use Rattle.grammar.specs.Abnf.{sd_name_byte};
ghost use Rattle.reach_data.specs.Rows.{each_at, len_of, Noted, Noting, Leaves, Named, Long, is_like, mark_of, marks_with, Clear, Marks, is_asked, is_unseen, shut_at, id_end, Judging, Judged, Spacious, Tells};
ghost use Rattle.reach_data.specs.Values.{utf8_at};
ghost use Rattle.record.specs.Limits.{line_limit};
ghost use Rattle.distinct.specs.Distinct.{id_of, Rows};
ghost use Rattle.viable.specs.Ids.{any_below};
ghost use Rattle.reach_data.specs.Pieces.{name_at, name_end_at, value_at, quoted_at, param_at, bracket_at, params_at, plain_at, data_at, is_mark, text_at, message_at};

use base::is_at;

// Where the bytes of a name from `at` on end.
fn name_end(s: &[u8], at: usize) -> usize
    ensures { result ≡ at + run sd_name_byte (drop at s.now) }
{
    let mut i = at;
    while i < s.len() {
        let b = s[i];
        if (33 <= b) & (b <= 126) & !((b == b'=') | (b == b']') | (b == b'"')) {
            i += 1;
        } else {
            return i;
        }
    }
    i
}

// A name of up to 32 bytes.
fn name(s: &[u8], at: usize) -> Result<usize, usize>
    ensures { result ≡ name_at s.now at }
{
    let end = name_end(s, at);
    if end == at {
        return Err(at);
    }
    if 32 < end - at {
        return Err(at + 32);
    }
    Ok(end)
}

// A parameter's name and its `=`.
fn name_equals(s: &[u8], at: usize) -> Result<usize, usize>
    ensures { result ≡ name_end_at s.now at }
{
    let n = name(s, at)?;
    if !is_at(s, n, b'=') {
        return Err(n);
    }
    Ok(n + 1)
}

// A value and its closing quote, byte by byte.
fn value(s: &[u8], at: usize) -> Result<usize, usize>
    ensures { result ≡ value_at s.now at }
{
    let mut paired = false;
    let mut more: usize = 0;
    let mut low: u8 = 0x80;
    let mut high: u8 = 0xBF;
    let mut i = at;
    while i < s.len() {
        let b = s[i];
        if more == 0 {
            if !paired & (b == b'"') {
                return Ok(i + 1);
            }
            if !paired & (b == b']') {
                return Err(i);
            }
            let l = utf8::lead_of(b);
            if l.len == 0 {
                return Err(i);
            }
            paired = !paired & (b == b'\\');
            more = l.len - 1;
            low = l.low;
            high = l.high;
            i += 1;
        } else {
            if (b < low) | (high < b) {
                return Err(i);
            }
            paired = false;
            more -= 1;
            low = 0x80;
            high = 0xBF;
            i += 1;
        }
    }
    Err(i)
}

// A value and both its quotes.
fn quoted(s: &[u8], at: usize) -> Result<usize, usize>
    ensures { result ≡ quoted_at s.now at }
{
    if !is_at(s, at, b'"') {
        return Err(at);
    }
    value(s, at + 1)
}

// A parameter, after its space.
fn param(s: &[u8], at: usize) -> Result<usize, usize>
    ensures { result ≡ param_at s.now at }
{
    let n = name_equals(s, at)?;
    quoted(s, n)
}

// The `]` of an element.
fn bracket(s: &[u8], at: usize) -> Result<usize, usize>
    ensures { result ≡ bracket_at s.now at }
{
    if is_at(s, at, b']') {
        Ok(at + 1)
    } else {
        Err(at)
    }
}

// The parameters of an element, and its `]`.
fn params(s: &[u8], at: usize) -> Result<usize, usize>
    ensures { result ≡ params_at s.now at }
{
    let mut i = at;
    while is_at(s, i, b' ') {
        i = param(s, i + 1)?;
    }
    bracket(s, i)
}

// An element after its `[`, whatever its id is, of which the bytes of a name end at `end`.
fn element(s: &[u8], at: usize, end: usize) -> Result<usize, usize>
    requires { end ≡ at + run sd_name_byte (drop at s.now) }
    ensures { result ≡ plain_at s.now at }
{
    if end == at {
        return Err(at);
    }
    if 32 < end - at {
        return Err(at + 32);
    }
    params(s, end)
}

// ---- the elements, whose ids have to differ

// How many bytes of an id stand between two places, 32 at most.
fn id_len(at: usize, end: usize) -> usize
    requires { at ≤ end }
    ensures { result ≡ len_of (end - at) }
{
    (end - at).min(32)
}

// Row `k`: where an id starts and how many bytes it has.
fn note(starts: &mut [u16], lens: &mut [u8], k: usize, start: usize, len: usize)
    requires { Noted starts.old lens.old k start len }
    ensures starts_after { starts.new ≡ set starts.old k start }
    ensures lens_after { lens.new ≡ set lens.old k len }
{
    starts[k] = start as u16;
    lens[k] = len as u8;
}

// Notes a row for each id: how many, and where the elements end or break, whatever their ids are; or nothing, where there are more than the tables have rows for.
fn note_all(
    s: &[u8],
    at: usize,
    starts: &mut [u16],
    lens: &mut [u8],
) -> Option<(usize, Result<usize, usize>)>
    requires { Noting s.now starts.old lens.old }
    ensures { Leaves s.now starts.old lens.old starts.new lens.new at result }
{
    let mut i = at;
    let mut k = 0;
    while is_at(s, i, b'[') {
        if k == starts.len() {
            return None;
        }
        let j = i + 1;
        let end = name_end(s, j);
        note(starts, lens, k, j, id_len(j, end));
        let w = element(s, j, end);
        k += 1;
        let Ok(n) = w else {
            return Some((k, w));
        };
        i = n;
    }
    Some((k, Ok(i)))
}

// The id of row `k`.
fn id_at<'a>(s: &'a [u8], starts: &'a [u16], lens: &'a [u8], k: usize) -> &'a [u8]
    requires { Rows s.now starts.now lens.now (k + 1) }
    ensures { result.now ≡ id_of s.now starts.now lens.now k }
{
    let start = usize::from(starts[k]);
    let end = start + usize::from(lens[k]);
    &s[start..end]
}

// Whether the other id begins with the first 31 bytes of this one.
fn is_like(own: &[u8], other: &[u8]) -> bool
    requires { 31 ≤ length own.now }
    ensures { result ≡ is_like (take 31 own.now) other.now }
{
    31 <= other.len() && base::same_text(&other[..31], &own[..31])
}

// The byte after the first 31, or 0 where there is none.
fn after_31(id: &[u8]) -> usize
    ensures value { result ≡ get_or id.now 31 0 }
    ensures upper_bound { result < 256 }
{
    id.get(31).map_or(0, |b| usize::from(*b))
}

fn mark_of(old: u8, like: bool) -> u8
    ensures { result ≡ mark_of old like }
{
    if like { 1 } else { old }
}

// Marks the byte after the first 31 of an id that is like.
fn mark_one(own: &[u8], other: &[u8], seen: &mut [u8])
    requires in_bounds { 31 ≤ length own.now }
    requires seen_len { length seen.old ≡ 256 }
    ensures { seen.new ≡ marks_with (take 31 own.now) other.now seen.old }
{
    let c = after_31(other);
    seen[c] = mark_of(seen[c], is_like(own, other));
}

// Marks the bytes that come after the first 31 of row `j` in the rows before it, and 0 where one of them is these 31 alone.
fn mark<'a>(s: &'a [u8], starts: &'a [u16], lens: &'a [u8], j: usize, seen: &mut [u8])
    requires long { Long s.now starts.now lens.now j }
    requires clear { Clear seen.old }
    ensures { Marks (id_of s.now starts.now lens.now) (take 31 (id_of s.now starts.now lens.now j)) j seen.new }
{
    let own = id_at(s, starts, lens, j);
    for i in 0..j {
        let other = id_at(s, starts, lens, i);
        mark_one(own, other, seen);
    }
}

fn is_asked(c: usize) -> bool
    ensures { result ≡ is_asked c }
{
    (c == 0) | ((33 <= c) & (c <= 126) & !((c == 61) | (c == 93) | (c == 34)))
}

// Whether all bytes of names are marked, and 0.
#[tactic(auto, using(crate::proofs::Shut::looking_laws))]
fn all_seen(seen: &[u8]) -> bool
    requires { length seen.now ≡ 256 }
    ensures { result ≡ not (any_below 127 (is_unseen seen.now)) }
{
    for c in 0..127 {
        if is_asked(c) & (seen[c] != 1) {
            return false;
        }
    }
    true
}

// Whether the first 31 bytes of row `j` shut: they are used, and so are all ids that are they and a byte more.
fn is_shut<'a>(s: &'a [u8], starts: &'a [u16], lens: &'a [u8], j: usize) -> bool
    requires { Long s.now starts.now lens.now j }
    ensures { result ≡ shut_at s.now starts.now lens.now j }
{
    let mut seen = [0u8; 256];
    mark(s, starts, lens, j, &mut seen);
    all_seen(&seen)
}

// Where the id of row `j` breaks, which is used.
fn id_end<'a>(s: &'a [u8], starts: &'a [u16], lens: &'a [u8], j: usize) -> usize
    requires { Named s.now starts.now lens.now j }
    ensures { result ≡ id_end s.now starts.now lens.now j }
{
    let start = usize::from(starts[j]);
    let n = usize::from(lens[j]);
    if n <= 30 {
        start + n
    } else if is_shut(s, starts, lens, j) {
        start + 30
    } else {
        start + 31
    }
}

// Where the elements end or break, by their rows: at the first id that repeats, if one does.
fn judge<'a>(
    s: &'a [u8],
    starts: &'a [u16],
    lens: &'a [u8],
    n: usize,
    w: Result<usize, usize>,
    depths: &mut [u8],
    kids: &mut [u16],
) -> Result<usize, usize>
    requires { Judging s.now starts.now lens.now depths.old kids.old n w }
    ensures { Judged s.now starts.now lens.now n w result }
{
    let j = distinct::first_repeat(s, starts, lens, n, depths, kids);
    if j == n {
        w
    } else {
        Err(id_end(s, starts, lens, j))
    }
}

// What tables tell of the elements, if they have rows enough.
fn tell(
    s: &[u8],
    at: usize,
    starts: &mut [u16],
    lens: &mut [u8],
    depths: &mut [u8],
    kids: &mut [u16],
) -> Option<Result<usize, usize>>
    requires { Spacious s.now starts.old lens.old depths.old kids.old }
    ensures { Tells s.now at (length starts.old) result }
{
    let (n, w) = note_all(s, at, starts, lens)?;
    Some(judge(s, starts, lens, n, w, depths, kids))
}

// The same by tables of a size. They are on the stack and are cleared, so that each text pays for a size that fits it: the large ones are not drawn into the caller.
#[inline(never)]
fn told<const ROWS: usize, const KIDS: usize>(s: &[u8], at: usize) -> Option<Result<usize, usize>>
    requires short { length s.now ≤ line_limit }
    requires rows { ROWS < 65536 }
    requires fits { KIDS < 2 ^ 62 }
    requires kids { 128 + 3 * ROWS ≤ KIDS }
    ensures { Tells s.now at ROWS result }
{
    let mut starts = [0u16; ROWS];
    let mut lens = [0u8; ROWS];
    let mut depths = [0u8; ROWS];
    let mut kids = [0u16; KIDS];
    tell(s, at, &mut starts, &mut lens, &mut depths, &mut kids)
}

// The elements, first by small tables. An element has three bytes or more: no text of 8,192 bytes has more than 2,731, the last of which may break.
fn elements(s: &[u8], at: usize) -> Result<usize, usize>
    requires { length s.now ≤ line_limit }
    ensures { result ≡ each_at [] s.now at }
{
    match told::<64, 320>(s, at) {
        Some(w) => w,
        None => told::<2731, 8321>(s, at).unwrap(),
    }
}

// How far structured data goes that stands at a place of the line.
#[tactic(auto, using(crate::proofs::Each::data_laws))]
pub fn data(s: &[u8], at: usize) -> Result<usize, usize>
    requires { length s.now ≤ line_limit }
    ensures { result ≡ data_at s.now at }
{
    if is_at(s, at, b'-') {
        Ok(at + 1)
    } else if is_at(s, at, b'[') {
        elements(s, at)
    } else {
        Err(at)
    }
}

// ---- the message

// UTF-8 to the end. An ASCII byte between characters needs no further test.
fn utf8_to_end(s: &[u8], at: usize) -> Result<usize, usize>
    ensures { result ≡ utf8_at s.now at }
{
    let mut more: usize = 0;
    let mut low: u8 = 0x80;
    let mut high: u8 = 0xBF;
    let mut i = at;
    while i < s.len() {
        let b = s[i];
        if more == 0 {
            if b < 0x80 {
                i += 1;
                continue;
            }
            let l = utf8::lead_of(b);
            if l.len == 0 {
                return Err(i);
            }
            more = l.len - 1;
            low = l.low;
            high = l.high;
            i += 1;
        } else {
            if (b < low) | (high < b) {
                return Err(i);
            }
            more -= 1;
            low = 0x80;
            high = 0xBF;
            i += 1;
        }
    }
    if more == 0 {
        return Ok(i);
    }
    Err(i)
}

// Whether a byte order mark stands in front.
fn is_mark(m: &[u8]) -> bool
    ensures { result ≡ is_mark m.now }
{
    is_at(m, 0, 0xEF) & is_at(m, 1, 0xBB) & is_at(m, 2, 0xBF)
}

// A message: any bytes, or a byte order mark and then UTF-8.
fn text(s: &[u8], at: usize) -> Result<usize, usize>
    requires { at ≤ length s.now }
    ensures { result ≡ text_at s.now at }
{
    if is_mark(base::past(s, at)) {
        utf8_to_end(s, at + 3)
    } else {
        Ok(s.len())
    }
}

// How far what is after the structured data goes: nothing, or a space and a message.
#[tactic(auto, using(crate::proofs::Messages::message_laws))]
pub fn message(s: &[u8], at: usize) -> Result<usize, usize>
    ensures { result ≡ message_at s.now at }
{
    if is_at(s, at, b' ') {
        text(s, at + 1)
    } else if at < s.len() {
        Err(at)
    } else {
        Ok(at)
    }
}
