// The structured data and the message of a claimed reading against the bytes where they are claimed to stand: an entry of a table at a time, whether ids differ, and
// what is left of the line.
#![tactic(auto)]

ghost use Rattle.std.specs.Prelude.{◌≡◌, true, false, ◌+◌, ◌-◌, ◌≤◌, ◌<◌, length, get_or, take, drop};
ghost use Rattle.base.specs.Texts.{all_different};
ghost use Rattle.record.specs.Limits.{line_limit};
ghost use Rattle.record.specs.Params.{row_of};
ghost use Rattle.grammar.specs.Abnf.{sd_name_byte};
ghost use Rattle.grammar.specs.Parse.{is_message};
ghost use Rattle.suits.specs.Suits.{elements_suit};
ghost use Rattle.claims.specs.Claims.{pair_of};
ghost use Rattle.claims.specs.Holds.{every, class_at, well_escaped, name_holds, value_holds, param_next, id_next, ids_at, message_holds};
ghost use Rattle.claim_data.specs.Walks.{first_next, open_next, opens_next, turn_next, last_next};
ghost use Rattle.claim_data.specs.Ids.{Ids, Notable, Noted, Spacious};

use base::is_at;
use claims::byte_next;
use record::{Param, Span};

// ---- names and values

// Whether every byte is one of a name.
fn name_bytes(t: &[u8]) -> bool
    ensures { result ≡ every sd_name_byte t.now }
{
    for b in t {
        if !((33 <= *b) & (*b <= 126) & !((*b == b'=') | (*b == b']') | (*b == b'"'))) {
            return false;
        }
    }
    true
}

// Whether a name of `len` bytes stands at `at`.
fn name_at(line: &[u8], at: usize, len: usize) -> bool
    requires { at + len ≤ length line.now }
    ensures { result ≡ class_at line.now 32 sd_name_byte at len }
{
    1 <= len && len <= 32 && name_bytes(&line[at..at + len])
}

// The same with `=` and a quote.
fn name_holds(line: &[u8], at: usize, len: usize) -> bool
    requires line_len_bound { length line.now ≤ line_limit }
    requires len_in_bounds { at + len ≤ length line.now }
    ensures { result ≡ name_holds line.now at len }
{
    name_at(line, at, len) && is_at(line, at + len, b'=') && is_at(line, at + len + 1, b'"')
}

// Whether backslash pairs are taken from the left, with no quote and no bracket bare and no backslash left alone.
fn well_escaped(t: &[u8]) -> bool
    ensures { result ≡ well_escaped false t.now }
{
    let mut paired = false;
    for b in t {
        if !paired & ((*b == b'"') | (*b == b']')) {
            return false;
        }
        paired = !paired & (*b == b'\\');
    }
    !paired
}

// Whether a value of `len` bytes and a quote stand at `at`.
fn value_holds(line: &[u8], at: usize, len: usize) -> bool
    requires { at + len ≤ length line.now }
    ensures { result ≡ value_holds line.now at len }
{
    let value = &line[at..at + len];
    utf8::is_utf8(value) && well_escaped(value) && is_at(line, at + len, b'"')
}

// ---- entries

// A parameter, whose space is at `at`.
fn param(line: &[u8], at: usize, p: Param) -> Option<usize>
    requires line_len_bound { length line.now ≤ line_limit }
    requires name_len_in_bounds { p.name_start + p.name_len ≤ length line.now }
    requires value_len_in_bounds { p.value_start + p.value_len ≤ length line.now }
    ensures { result ≡ param_next line.now p.element at (row_of p) }
{
    let n = p.name_len;
    let m = p.value_len;
    if !is_at(line, at, b' ') {
        return None;
    }
    if p.name_start != at + 1 {
        return None;
    }
    if p.value_start != at + n + 3 {
        return None;
    }
    if !name_holds(line, at + 1, n) {
        return None;
    }
    if !value_holds(line, at + n + 3, m) {
        return None;
    }
    Some(at + n + m + 4)
}

// An element, whose `[` is at `at`: it goes on behind the id.
fn id(line: &[u8], at: usize, row: [usize; 2]) -> Option<usize>
    requires line_len_bound { length line.now ≤ line_limit }
    requires row_in_bounds { get_or row 0 0 + get_or row 1 0 ≤ length line.now }
    ensures { result ≡ id_next line.now at (pair_of row) }
{
    let n = row[1];
    if !is_at(line, at, b'[') {
        return None;
    }
    if row[0] != at + 1 {
        return None;
    }
    if !name_at(line, at + 1, n) {
        return None;
    }
    Some(at + n + 1)
}

// ---- one entry after another

// The first element, if there is one.
pub fn first(line: &[u8], at: usize, ids: &[[usize; 2]]) -> Option<usize>
    requires line_len_bound { length line.now ≤ line_limit }
    requires ids_value { elements_suit line.now ids.now ≡ true }
    ensures { result ≡ first_next line.now at ids.now }
{
    if ids.len() == 0 {
        return Some(at);
    }
    let row = ids[0];
    id(line, at, row)
}

// `]` and the next element.
fn open(line: &[u8], at: usize, row: [usize; 2]) -> Option<usize>
    requires line_len_bound { length line.now ≤ line_limit }
    requires row_in_bounds { get_or row 0 0 + get_or row 1 0 ≤ length line.now }
    ensures { result ≡ open_next line.now at row }
{
    let b = byte_next(line, at, b']')?;
    id(line, b, row)
}

// From element `k`, which is open, to element `last`.
fn opens(line: &[u8], at: usize, ids: &[[usize; 2]], k: usize, last: usize) -> Option<usize>
    requires line_len_bound { length line.now ≤ line_limit }
    requires ids_value { elements_suit line.now ids.now ≡ true }
    requires last_in_bounds { last < length ids.now }
    requires k_le_last { k ≤ last }
    ensures { result ≡ opens_next line.now at (take (last - k) (drop (k + 1) ids.now)) }
{
    let mut pos = at;
    for j in k..last {
        pos = open(line, pos, ids[j + 1])?;
    }
    Some(pos)
}

// A parameter, where element `k` is open.
pub fn turn(line: &[u8], at: usize, ids: &[[usize; 2]], k: usize, p: Param) -> Option<usize>
    requires line_len_bound { length line.now ≤ line_limit }
    requires ids_value { elements_suit line.now ids.now ≡ true }
    requires element_in_bounds { p.element < length ids.now }
    requires k_le_element { k ≤ p.element }
    requires name_len_in_bounds { p.name_start + p.name_len ≤ length line.now }
    requires value_len_in_bounds { p.value_start + p.value_len ≤ length line.now }
    ensures { result ≡ turn_next line.now at ids.now k (row_of p) }
{
    let b = opens(line, at, ids, k, p.element)?;
    param(line, b, p)
}

// What is behind the last parameter, where element `k` is open.
pub fn last(line: &[u8], at: usize, ids: &[[usize; 2]], k: usize) -> Option<usize>
    requires line_len_bound { length line.now ≤ line_limit }
    requires ids_value { elements_suit line.now ids.now ≡ true }
    requires k_in_bounds { k ≤ length ids.now - 1 }
    ensures { result ≡ last_next line.now at ids.now k }
{
    if ids.len() == 0 {
        return byte_next(line, at, b'-');
    }
    let b = opens(line, at, ids, k, ids.len() - 1)?;
    byte_next(line, b, b']')
}

// ---- the message

// Whether the message is one of any bytes, or a byte order mark and then UTF-8.
fn is_message(m: &[u8]) -> bool
    ensures { result ≡ is_message m.now }
{
    if is_at(m, 0, 0xEF) && is_at(m, 1, 0xBB) && is_at(m, 2, 0xBF) {
        utf8::is_utf8(base::past(m, 3))
    } else {
        true
    }
}

// Whether a space and the message stand at `at` and no byte is left over; or nothing, where none is claimed.
pub fn message_holds(line: &[u8], at: usize, has: bool, m: Span) -> bool
    requires line_len_bound { length line.now ≤ line_limit }
    requires len_in_bounds { m.start + m.len ≤ length line.now }
    ensures { result ≡ message_holds line.now at has m }
{
    if !has {
        return m.start == 0 && m.len == 0 && at == line.len();
    }
    is_at(line, at, b' ')
        && m.start == at + 1
        && at + 1 + m.len == line.len()
        && is_message(base::past(line, at + 1))
}

// ---- the ids

// The places of the ids, for `distinct`.
fn note(ids: &[[usize; 2]], starts: &mut [u16], lens: &mut [u8])
    requires { Notable ids.now starts.old lens.old }
    ensures { Noted ids.now (length ids.now) starts.old lens.old starts.new lens.new }
{
    for (i, row) in ids.iter().enumerate() {
        starts[i] = row[0] as u16;
        lens[i] = row[1] as u8;
    }
}

// Whether the ids differ, each compared with all before it.
fn few_noted(line: &[u8], ids: &[[usize; 2]], starts: &mut [u16], lens: &mut [u8]) -> bool
    requires ids { Ids line.now ids.now }
    requires notable { Notable ids.now starts.old lens.old }
    ensures { result ≡ all_different (ids_at line.now ids.now) }
{
    note(ids, starts, lens);
    let n = ids.len();
    distinct::first_of_few(line, starts, lens, n) == n
}

fn few_differ(line: &[u8], ids: &[[usize; 2]]) -> bool
    requires ids { Ids line.now ids.now }
    requires ids_len_bound { length ids.now ≤ 8 }
    ensures { result ≡ all_different (ids_at line.now ids.now) }
{
    let mut starts = [0u16; 8];
    let mut lens = [0u8; 8];
    few_noted(line, ids, &mut starts, &mut lens)
}

// Whether the ids differ, by a tree of them.
fn tree_noted(
    line: &[u8],
    ids: &[[usize; 2]],
    starts: &mut [u16],
    lens: &mut [u8],
    depths: &mut [u8],
    kids: &mut [u16],
) -> bool
    requires ids { Ids line.now ids.now }
    requires spacious { Spacious ids.now starts.old lens.old depths.old kids.old }
    ensures { result ≡ all_different (ids_at line.now ids.now) }
{
    note(ids, starts, lens);
    let n = ids.len();
    distinct::first_repeat(line, starts, lens, n, depths, kids) == n
}

// The tables are on the stack and are cleared, so that each claim pays for a size that fits it: none is drawn into the caller.
#[inline(never)]
fn some_differ(line: &[u8], ids: &[[usize; 2]]) -> bool
    requires ids { Ids line.now ids.now }
    requires ids_len_bound { length ids.now ≤ 64 }
    ensures { result ≡ all_different (ids_at line.now ids.now) }
{
    let mut starts = [0u16; 64];
    let mut lens = [0u8; 64];
    let mut depths = [0u8; 64];
    let mut kids = [0u16; 320];
    tree_noted(line, ids, &mut starts, &mut lens, &mut depths, &mut kids)
}

#[inline(never)]
fn many_differ(line: &[u8], ids: &[[usize; 2]]) -> bool
    requires ids { Ids line.now ids.now }
    requires ids_len_bound { length ids.now ≤ 512 }
    ensures { result ≡ all_different (ids_at line.now ids.now) }
{
    let mut starts = [0u16; 512];
    let mut lens = [0u8; 512];
    let mut depths = [0u8; 512];
    let mut kids = [0u16; 1664];
    tree_noted(line, ids, &mut starts, &mut lens, &mut depths, &mut kids)
}

// An element has three bytes or more: no line of 8,192 bytes has more than 2,730.
#[inline(never)]
fn most_differ(line: &[u8], ids: &[[usize; 2]]) -> bool
    requires { Ids line.now ids.now }
    ensures { result ≡ all_different (ids_at line.now ids.now) }
{
    let mut starts = [0u16; 2730];
    let mut lens = [0u8; 2730];
    let mut depths = [0u8; 2730];
    let mut kids = [0u16; 8318];
    tree_noted(line, ids, &mut starts, &mut lens, &mut depths, &mut kids)
}

// Whether the ids differ. The first eight are compared first, and most lines have no more: only those with more elements pay for tables.
pub fn ids_differ(line: &[u8], ids: &[[usize; 2]]) -> bool
    requires { Ids line.now ids.now }
    ensures { result ≡ all_different (ids_at line.now ids.now) }
{
    let n = ids.len();
    if n <= 8 {
        return few_differ(line, ids);
    }
    if !ids_differ(line, &ids[0..8]) {
        return false;
    }
    if n <= 64 {
        return some_differ(line, ids);
    }
    if n <= 512 {
        return many_differ(line, ids);
    }
    most_differ(line, ids)
}
