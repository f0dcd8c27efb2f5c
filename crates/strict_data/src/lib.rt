// The structured data and the message of a strict line: a first pass that reads and counts, and a second that fills the lent tables.
#![tactic(auto)]

ghost use Rattle.std.specs.Prelude.{◌≡◌, false, ◌+◌, ◌≤◌, ◌<◌, length, set};
ghost use Rattle.base.specs.Runs.{run};
ghost use Rattle.base.specs.Fills.{filled};
ghost use Rattle.record.specs.Limits.{line_limit};
ghost use Rattle.record.specs.Params.{rows};
ghost use Rattle.grammar.specs.Abnf.{sd_name_byte};
ghost use Rattle.grammar.specs.Parse as parse;
ghost use Rattle.grammar.specs.Reading.{element_rows, param_rows};
ghost use Rattle.strict_data.specs.Counts.{counts_of, tail_of};
ghost use Rattle.strict_data.specs.Sizes.{size_of, block_of, item_of};
ghost use Rattle.strict_data.specs.Entries.{name_at, value_at, holding, entry_at, Lies};
ghost use Rattle.strict_data.specs.Ids.{Noted, Noting, Listed, Rowed, elements_in, Among, Spacious, first_differ};
ghost use Rattle.strict_data.specs.Steps.{Stepping, step_of, ids_of};
ghost use Rattle.strict_data.specs.Filling.{elements_at, Fillable};

use record::Param;

// The structured data at the front of a part: how many bytes, elements and parameters.
#[derive(Clone, Copy)]
pub struct Counts {
    pub len: usize,
    pub elements: usize,
    pub params: usize,
}

// What stands after the structured data: nothing, or a space and a message of so many bytes.
#[derive(Clone, Copy)]
pub enum Tail {
    NoTail,
    NoMessage,
    IsMessage(usize),
}

// What is after the id of an element: how many bytes and parameters.
#[derive(Clone, Copy)]
struct Block {
    len: usize,
    params: usize,
}

// An element: how many bytes and parameters, and how many bytes its id has.
#[derive(Clone, Copy)]
struct Item {
    len: usize,
    params: usize,
    id: usize,
}

// How many bytes of a name stand in front.
fn name_run(s: &[u8]) -> usize
    ensures { result ≡ run sd_name_byte s.now }
{
    let mut i = 0;
    while i < s.len() {
        let b = s[i];
        if (33 <= b) & (b <= 126) & !((b == b'=') | (b == b']') | (b == b'"')) {
            i += 1;
        } else {
            return i;
        }
    }
    i
}

fn name(s: &[u8]) -> Option<usize>
    ensures { result ≡ size_of (parse.sd_name s.now) }
{
    let n = name_run(s);
    if (1 <= n) & (n <= 32) { Some(n) } else { None }
}

// Where a value stops: at a bare '"' or ']', or at the end. A backslash is passed with what it takes.
fn stop(s: &[u8]) -> usize
    ensures { result ≡ parse.stop false s.now }
{
    let n = s.len();
    let mut i = 0;
    while i < n {
        let b = s[i];
        if (b == b'"') | (b == b']') {
            return i;
        }
        if b == b'\\' {
            if n - i < 2 {
                return n;
            }
            i += 2;
        } else {
            i += 1;
        }
    }
    i
}

// A value and its closing quote.
fn value(s: &[u8]) -> Option<usize>
    ensures { result ≡ size_of (parse.value s.now) }
{
    let n = stop(s);
    if !base::is_at(s, n, b'"') {
        return None;
    }
    if !utf8::is_utf8(&s[0..n]) {
        return None;
    }
    Some(n + 1)
}

// A value and both its quotes.
fn quoted(s: &[u8]) -> Option<usize>
    ensures { result ≡ size_of (parse.behind 34 parse.value s.now) }
{
    if !base::is_at(s, 0, b'"') {
        return None;
    }
    let n = value(base::past(s, 1))?;
    Some(n + 1)
}

// A parameter, after its space.
fn param(s: &[u8]) -> Option<usize>
    ensures { result ≡ size_of (parse.param s.now) }
{
    let n = name(s)?;
    if !base::is_at(s, n, b'=') {
        return None;
    }
    let j = n + 1;
    let m = quoted(base::past(s, j))?;
    Some(j + m)
}

// The parameters of an element, and its ']'.
fn params(s: &[u8]) -> Option<Block>
    ensures { result ≡ block_of length (parse.closed (parse.many 32 parse.param) 93 s.now) }
{
    let mut i = 0;
    let mut count = 0;
    while i < s.len() {
        let b = s[i];
        let j = i + 1;
        if b == b']' {
            return Some(Block {
                len: j,
                params: count,
            });
        }
        if b != b' ' {
            return None;
        }
        let n = param(base::past(s, j))?;
        i = j + n;
        count += 1;
    }
    None
}

// An element, after its '['.
fn element(s: &[u8]) -> Option<Item>
    ensures { result ≡ item_of (parse.element s.now) }
{
    let n = name(s)?;
    let Block { len, params } = params(base::past(s, n))?;
    Some(Item {
        len: n + len,
        params,
        id: n,
    })
}

// The place of the id of element `k`, where the tables have an entry for it.
fn note_id(starts: &mut [u16], lens: &mut [u8], k: usize, start: usize, len: usize)
    requires { Noted starts.old lens.old start len }
    ensures starts_after { starts.new ≡ set starts.old k start }
    ensures lens_after { lens.new ≡ set lens.old k len }
{
    if k < starts.len() {
        starts[k] = start as u16;
        lens[k] = len as u8;
    }
}

// The elements up to what is none, and the places of the first of their ids, as many as the tables have entries for.
fn elements(s: &[u8], starts: &mut [u16], lens: &mut [u8]) -> Option<Counts>
    requires { Noting s.now starts.old lens.old }
    ensures value { result ≡ counts_of (parse.many 91 parse.element s.now) }
    ensures listed { Listed s.now (parse.many 91 parse.element s.now) starts.old lens.old starts.new lens.new }
{
    let mut i = 0;
    let mut elements = 0;
    let mut all = 0;
    while i < s.len() {
        let b = s[i];
        let j = i + 1;
        if b != b'[' {
            return Some(Counts {
                len: i,
                elements,
                params: all,
            });
        }
        let Item { len, params, id } = element(base::past(s, j))?;
        note_id(starts, lens, elements, j, id);
        i = j + len;
        elements += 1;
        all += params;
    }
    Some(Counts {
        len: i,
        elements,
        params: all,
    })
}

// Whether the ids of the first `count` elements differ. Their places are noted in a second pass, and a tree of them is made, in tables that take all.
fn noted_differ(
    s: &[u8],
    count: usize,
    starts: &mut [u16],
    lens: &mut [u8],
    depths: &mut [u8],
    kids: &mut [u16],
) -> bool
    requires among { Among s.now count }
    requires spacious { Spacious count starts.old lens.old depths.old kids.old }
    ensures { result ≡ first_differ count s.now }
{
    elements(s, starts, lens);
    distinct::first_repeat(s, starts, lens, count, depths, kids) == count
}

// The tables are on the stack and are cleared, so that each text pays for a size that fits it.
fn some_differ(s: &[u8], count: usize) -> bool
    requires among { Among s.now count }
    requires count_bound { count ≤ 64 }
    ensures { result ≡ first_differ count s.now }
{
    let mut starts = [0u16; 64];
    let mut lens = [0u8; 64];
    let mut depths = [0u8; 64];
    let mut kids = [0u16; 320];
    noted_differ(s, count, &mut starts, &mut lens, &mut depths, &mut kids)
}

fn many_differ(s: &[u8], count: usize) -> bool
    requires among { Among s.now count }
    requires count_bound { count ≤ 512 }
    ensures { result ≡ first_differ count s.now }
{
    let mut starts = [0u16; 512];
    let mut lens = [0u8; 512];
    let mut depths = [0u8; 512];
    let mut kids = [0u16; 1664];
    noted_differ(s, count, &mut starts, &mut lens, &mut depths, &mut kids)
}

// An element has three bytes or more: no text of 8,192 bytes has more than 2,730.
fn most_differ(s: &[u8], count: usize) -> bool
    requires { Among s.now count }
    ensures { result ≡ first_differ count s.now }
{
    let mut starts = [0u16; 2730];
    let mut lens = [0u8; 2730];
    let mut depths = [0u8; 2730];
    let mut kids = [0u16; 8318];
    noted_differ(s, count, &mut starts, &mut lens, &mut depths, &mut kids)
}

// Whether the ids of the first `count` elements differ, of which some are noted. Those are compared first, and most texts have no more. (A function that calls itself is
// not drawn into its caller by the compiler, nor large tables into it: only texts with many elements pay for them.)
fn ids_differ<'a>(s: &'a [u8], count: usize, starts: &'a [u16], lens: &'a [u8]) -> bool
    requires among { Among s.now count }
    requires rowed { Rowed s.now (elements_in s.now) starts.now lens.now }
    ensures { result ≡ first_differ count s.now }
{
    let noted = starts.len();
    if count <= noted {
        return distinct::first_of_few(s, starts, lens, count) == count;
    }
    if !ids_differ(s, noted, starts, lens) {
        return false;
    }
    if count <= 64 {
        return some_differ(s, count);
    }
    if count <= 512 {
        return many_differ(s, count);
    }
    most_differ(s, count)
}

// Reads the structured data at the front of a part, and counts what is in it.
pub fn count_data(s: &[u8]) -> Option<Counts>
    requires { length s.now ≤ line_limit }
    ensures { result ≡ counts_of (parse.structured s.now) }
{
    if base::is_at(s, 0, b'-') {
        return Some(Counts {
            len: 1,
            elements: 0,
            params: 0,
        });
    }
    let mut starts = [0u16; 8];
    let mut lens = [0u8; 8];
    let Counts {
        len,
        elements,
        params,
    } = elements(s, &mut starts, &mut lens)?;
    if elements == 0 {
        return None;
    }
    if !ids_differ(s, elements, &starts, &lens) {
        return None;
    }
    Some(Counts {
        len,
        elements,
        params,
    })
}

// Whether the message is one of any bytes, or a byte order mark and then UTF-8.
fn is_message(m: &[u8]) -> bool
    ensures { result ≡ parse.is_message m.now }
{
    if !base::is_at(m, 0, 0xEF) {
        return true;
    }
    if !base::is_at(m, 1, 0xBB) {
        return true;
    }
    if !base::is_at(m, 2, 0xBF) {
        return true;
    }
    utf8::is_utf8(base::past(m, 3))
}

// Reads what is after the structured data, to the end.
pub fn read_tail(s: &[u8]) -> Tail
    ensures { result ≡ tail_of (parse.message s.now) }
{
    if s.len() == 0 {
        return Tail::NoMessage;
    }
    if !base::is_at(s, 0, b' ') {
        return Tail::NoTail;
    }
    let m = base::past(s, 1);
    if !is_message(m) {
        return Tail::NoTail;
    }
    Tail::IsMessage(m.len())
}

// What stands at a place of the structured data, by the byte there: an id after '[', a parameter after a space, or neither; and the place after it.
#[derive(Clone, Copy)]
struct Entry {
    opens: bool,
    holds: bool,
    name: usize,
    value: usize,
    next: usize,
}

// How many bytes of a name stand after the byte at `at`.
fn name_at(line: &[u8], at: usize) -> usize
    requires { at < length line.now }
    ensures { result ≡ name_at line.now at }
{
    name_run(base::past(line, at + 1))
}

// The parameter after the space at `at`.
fn held(line: &[u8], at: usize) -> Entry
    requires { at + name_at line.now at + value_at line.now at + 4 ≤ length line.now }
    ensures { result ≡ holding at (name_at line.now at) (value_at line.now at) }
{
    let n = name_at(line, at);
    let m = stop(base::past(line, at + n + 3));
    Entry {
        opens: false,
        holds: true,
        name: n,
        value: m,
        next: at + n + m + 4,
    }
}

fn next(line: &[u8], at: usize) -> Entry
    requires { Lies line.now at }
    ensures { result ≡ entry_at line.now at }
{
    if base::is_at(line, at, b'[') {
        let n = name_at(line, at);
        return Entry {
            opens: true,
            holds: false,
            name: n,
            value: 0,
            next: at + n + 1,
        };
    }
    if base::is_at(line, at, b' ') {
        return held(line, at);
    }
    Entry {
        opens: false,
        holds: false,
        name: 0,
        value: 0,
        next: at + 1,
    }
}

// A step of the second pass: the entry of a parameter, if it holds one, how many elements are open now, and the place after it.
#[derive(Clone, Copy)]
struct Step {
    row: Param,
    holds: bool,
    opened: usize,
    next: usize,
}

// The step at `at`, where `opened` elements are open. An id goes into the table at once.
fn take_step(line: &[u8], at: usize, opened: usize, elements: &mut [[usize; 2]]) -> Step
    requires { Stepping line.now at opened elements.old }
    ensures value { result ≡ step_of at opened (entry_at line.now at) }
    ensures elements_after { elements.new ≡ ids_of at opened (entry_at line.now at) elements.old }
{
    let s = next(line, at);
    let n = s.name;
    if s.opens {
        elements[opened] = [at + 1, n];
        return Step {
            row: record::blank(),
            holds: false,
            opened: opened + 1,
            next: s.next,
        };
    }
    if s.holds {
        let row = Param {
            element: opened - 1,
            name_start: at + 1,
            name_len: n,
            value_start: at + n + 3,
            value_len: s.value,
        };
        return Step {
            row,
            holds: true,
            opened,
            next: s.next,
        };
    }
    Step {
        row: record::blank(),
        holds: false,
        opened,
        next: s.next,
    }
}

// ---- for the prover alone: `fill_data` names the parameter table and so only calls, a copy of a field too

fn row_of(s: Step) -> Param
    ensures { result ≡ s.row }
{
    let row = s.row;
    row
}

// The rows of the structured data that stands at `at` and takes `len` bytes, into both tables.
pub fn fill_data(
    line: &[u8],
    at: usize,
    len: usize,
    elements: &mut [[usize; 2]],
    params: &mut [Param],
)
    requires { Fillable line.now at len elements.old (rows params.old) }
    ensures elements_after { elements.new ≡ filled (element_rows at (elements_at line.now at)) elements.old }
    ensures params_after { rows params.new ≡ filled (param_rows 0 at (elements_at line.now at)) (rows params.old) }
{
    let end = at + len;
    let mut i = at;
    let mut e = 0;
    let mut p = 0;
    while i < end {
        let s = take_step(line, i, e, elements);
        if s.holds {
            let row = row_of(s);
            entries::store(params, p, row);
            p += 1;
        }
        i = s.next;
        e = s.opened;
    }
}
