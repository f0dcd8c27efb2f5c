// The parameters of two lines as texts that are the same where the pairs are: the element's number, the length of the name, the name, the unescaped value. They are
// walked over in the lines, from the places of the elements' ids.
#![tactic(auto)]

ghost use Rattle.std.specs.Prelude.{◌≡◌, true, [], ◌∷◌, ◌+◌, ◌≤◌, ◌<◌, length};
ghost use Rattle.record.specs.Params.{row_of};
ghost use Rattle.output.specs.Fits.{Fits};
ghost use Rattle.output.specs.Output.{Wrote};
ghost use Rattle.lookup.specs.Unescape.{unescaped};
ghost use Rattle.keyed.specs.Odd.{FirstOdd, rows_of, Enough, Bounded};
ghost use Rattle.keyed.specs.Keys.{short, head_text, tail_text, key_text, Begun};
ghost use Rattle.keyed.specs.Notes.{Inside, Roomed, Notes, Steps, rows_at, rows_from, Listed};

use pairs::Odd;
use record::Param;

// A number in two bytes, the low one first.
fn put_short(out: &mut [u8], at: usize, x: usize) -> usize
    requires { Fits out.old at (short x) }
    ensures { Wrote out.old at (short x) result out.new }
{
    let next = output::put(out, at, (x % 256) as u8);
    output::put(out, next, (x / 256 % 256) as u8)
}

fn put_head(out: &mut [u8], at: usize, element: usize, len: usize) -> usize
    requires { Fits out.old at (head_text element len) }
    ensures { Wrote out.old at (head_text element len) result out.new }
{
    let next = put_short(out, at, element);
    put_short(out, next, len)
}

// A value up to its first backslash, byte by byte as it stands: how many bytes that is.
fn put_plain(out: &mut [u8], at: usize, v: &[u8]) -> usize
    requires { Fits out.old at (unescaped true v.now) }
    ensures { Begun v.now out.old at result out.new }
{
    for (i, b) in v.iter().enumerate() {
        if *b == b'\\' {
            return i;
        }
        out[at + i] = *b;
    }
    v.len()
}

// A value unescaped. Most have no backslash.
fn put_value(out: &mut [u8], at: usize, v: &[u8]) -> usize
    requires { Fits out.old at (unescaped true v.now) }
    ensures { Wrote out.old at (unescaped true v.now) result out.new }
{
    let n = put_plain(out, at, v);
    lookup::put_unescaped(out, at + n, base::past(v, n), true)
}

fn put_tail(out: &mut [u8], at: usize, name: &[u8], value: &[u8]) -> usize
    requires { Fits out.old at (tail_text name.now value.now) }
    ensures { Wrote out.old at (tail_text name.now value.now) result out.new }
{
    let next = output::put_text(out, at, name);
    put_value(out, next, value)
}

// The text of a pair.
fn put_key(out: &mut [u8], at: usize, s: &[u8], p: Param) -> usize
    requires inside { Inside s.now p }
    requires fits { Fits out.old at (key_text s.now (row_of p)) }
    ensures { Wrote out.old at (key_text s.now (row_of p)) result out.new }
{
    let name = &s[p.name_start..p.name_start + p.name_len];
    let value = &s[p.value_start..p.value_start + p.value_len];
    let next = put_head(out, at, p.element, p.name_len);
    put_tail(out, next, name, value)
}

// A line, and the places of its elements' ids in it.
#[derive(Clone, Copy)]
struct Line<'a> {
    text: &'a [u8],
    ids: &'a [[usize; 2]],
    ghost inside: { Listed text.now ids.now (length ids.now) },
}

// Texts of pairs, one after the other: `count` of them, up to `at`, and where each ends.
#[derive(Drop)]
struct Texts<'t> {
    text: &'t mut [u8],
    ends: &'t mut [u16],
    count: usize,
    at: usize,
}

impl<'t> Texts<'t> {
    // Notes a pair's text.
    fn note(&mut self, s: &[u8], p: Param)
        requires inside { Inside s.now p }
        requires roomed { Roomed (row_of p ∷ []) self.old }
        ensures { Notes s.now (row_of p ∷ []) self.old self.new }
    {
        let next = put_key(self.text, self.at, s, p);
        self.ends[self.count + 1] = next as u16;
        self.count += 1;
        self.at = next;
    }

    // Notes the parameter of element `e` at `start`, if there is one: the position after it.
    fn note_one(&mut self, s: &[u8], e: usize, start: usize) -> Option<usize>
        requires start_in_bounds { start ≤ length s.now }
        requires roomed { Roomed (rows_at s.now e start) self.old }
        ensures { Steps s.now e start self.old result self.new }
    {
        let p = structured_data::param_at(base::past(s, start))?;
        let row = Param {
            element: e,
            name_start: start,
            name_len: p.name,
            value_start: start + p.value,
            value_len: p.value_len,
        };
        self.note(s, row);
        Some(start + p.len)
    }

    // Notes the parameters of element `e`, which start at `from`.
    fn note_params(&mut self, s: &[u8], e: usize, from: usize)
        requires from_in_bounds { from ≤ length s.now }
        requires roomed { Roomed (rows_at s.now e from) self.old }
        ensures { Notes s.now (rows_at s.now e from) self.old self.new }
    {
        let mut start = from;
        while let Some(next) = self.note_one(s, e, start) {
            if !base::is_at(s, next, b' ') {
                return;
            }
            start = next + 1;
        }
    }

    // Notes the parameters of all elements. Those of one start behind its id, and the blanks there.
    fn note_elements(&mut self, line: Line)
        requires roomed { Roomed (rows_from line.text.now 0 line.ids.now) self.old }
        ensures { Notes line.entry.text.now (rows_from line.entry.text.now 0 line.entry.ids.now) self.old self.new }
    {
        for (i, id) in line.ids.iter().enumerate() {
            let from = parsers::blanks_from(line.text, id[0] + id[1]);
            self.note_params(line.text, i, from);
        }
    }
}

// Of the pairs that do not occur as often in both lines, the first one of the least element, the first line's before the second's, in tables for `SIZE` bytes and for
// fewer texts than `ENDS`. They are on the stack and are cleared, so that short lines pay for short ones.
fn odd_of<const SIZE: usize, const ENDS: usize>(a: Line, b: Line) -> Odd
    requires small { SIZE < 65536 }
    requires few { ENDS ≤ 3277 }
    requires enough { Enough (rows_from a.text.now 0 a.ids.now) (rows_from b.text.now 0 b.ids.now) SIZE ENDS }
    ensures { FirstOdd a.entry.text.now (rows_from a.entry.text.now 0 a.entry.ids.now) b.entry.text.now (rows_from b.entry.text.now 0 b.entry.ids.now) result }
{
    let mut text = [0u8; SIZE];
    let mut ends = [0u16; ENDS];
    let mut texts = Texts {
        text: &mut text,
        ends: &mut ends,
        count: 0,
        at: 0,
    };
    texts.note_elements(a);
    let first = texts.count;
    texts.note_elements(b);
    let Texts {
        text,
        ends,
        count,
        ..
    } = texts;
    pairs::first_odd(text, ends, first, count)
}

// Of the pairs that do not occur as often in both lines, the first one of the least element, the first line's before the second's. Its number counts the pairs of both.
// A line takes at least five bytes for a parameter, and seven for eight of its text.
pub fn first_odd(
    s1: &[u8],
    elements1: &[[usize; 2]],
    n1: usize,
    s2: &[u8],
    elements2: &[[usize; 2]],
    n2: usize,
) -> Odd
    requires s2_len_bound { length s1.now + length s2.now ≤ 16384 }
    requires bounded { Bounded s1.now elements1.now n1 s2.now elements2.now n2 (length s1.now + length s2.now) }
    ensures { FirstOdd s1.now (rows_of s1.now elements1.now n1) s2.now (rows_of s2.now elements2.now n2) result }
{
    let a = Line {
        text: s1,
        ids: &elements1[..n1],
    };
    let b = Line {
        text: s2,
        ids: &elements2[..n2],
    };
    if s1.len() + s2.len() <= 840 {
        odd_of::<960, 169>(a, b)
    } else {
        odd_of::<18725, 3277>(a, b)
    }
}
