// The elements and their parameters: what they leave of a room, and the pieces of their text.
ghost use Rattle.std.specs.Prelude.{◌≡◌, true, ◌++◌, ◌+◌, ◌-◌, ◌*◌, ◌≤◌, ◌<◌, length, get_or, take, drop};
ghost use Rattle.base.specs.Bytes.{bytes};
ghost use Rattle.base.specs.Texts.{text_at};
ghost use Rattle.record.specs.Limits.{line_limit};
ghost use Rattle.record.specs.Params.{row_of};
ghost use Rattle.suits.specs.Suits.{elements_suit, param_suits};
ghost use Rattle.output.specs.Fits.{Fits};
ghost use Rattle.output.specs.Output.{Wrote};
ghost use Rattle.message.specs.Message.{open_text, param_text};
ghost use Rattle.message.specs.Opens.{first_text, opens_text, close_text};
ghost use Rattle.message.specs.Rooms.{room_for, room_after, element_size, param_size, total};

use crate::fields::put_part;
use output::{put, put_text};
use record::Param;

// The first `count` rows.
pub fn counted(elements: &[[usize; 2]], count: usize) -> &[[usize; 2]]
    requires { count ≤ length elements.now }
    ensures { result.now ≡ take count elements.now }
{
    &elements[0..count]
}

// What is left of a room once `n` bytes are taken from it.
#[tactic(auto, unfolding(crate::specs::Rooms::room_for))]
pub fn room_for(left: usize, n: usize) -> Option<usize>
    ensures { result ≡ room_for left n }
{
    left.checked_sub(n)
}

fn element_room(left: usize, row: [usize; 2]) -> Option<usize>
    ensures { result ≡ room_for left (element_size row) }
{
    let a = room_for(left, row[1])?;
    room_for(a, 2)
}

// The same once the brackets and ids of all elements are taken.
pub fn elements_room(room: usize, ids: &[[usize; 2]]) -> Option<usize>
    ensures { result ≡ room_for room (total element_size ids.now) }
{
    let mut left = room;
    for row in ids {
        left = element_room(left, *row)?;
    }
    Some(left)
}

// The same once a parameter is taken: a space, the name, `=` and the value in quotes.
pub fn param_room(room: Option<usize>, p: Param) -> Option<usize>
    requires { p.name_len + p.value_len ≤ 2 * line_limit }
    ensures { result ≡ room_after room (param_size (row_of p)) }
{
    let left = room?;
    room_for(left, p.name_len + p.value_len + 4)
}

// `[id`
fn put_open(out: &mut [u8], at: usize, line: &[u8], row: [usize; 2]) -> usize
    requires fits { Fits out.old at (open_text line.now row) }
    requires row_in_bounds { get_or row 0 0 + get_or row 1 0 ≤ length line.now }
    ensures { Wrote out.old at (open_text line.now row) result out.new }
{
    let a = put(out, at, b'[');
    put_part(out, a, line, row[0], row[1])
}

// That of the first element, if there is one.
pub fn put_first(out: &mut [u8], at: usize, line: &[u8], ids: &[[usize; 2]]) -> usize
    requires fits { Fits out.old at (first_text line.now ids.now) }
    requires ids_value { elements_suit line.now ids.now ≡ true }
    ensures { Wrote out.old at (first_text line.now ids.now) result out.new }
{
    if ids.len() == 0 {
        return at;
    }
    let first = ids[0];
    put_open(out, at, line, first)
}

// `][id`
fn put_next(out: &mut [u8], at: usize, line: &[u8], row: [usize; 2]) -> usize
    requires fits { Fits out.old at (bytes "]" ++ open_text line.now row) }
    requires row_in_bounds { get_or row 0 0 + get_or row 1 0 ≤ length line.now }
    ensures { Wrote out.old at (bytes "]" ++ open_text line.now row) result out.new }
{
    let a = put(out, at, b']');
    put_open(out, a, line, row)
}

// From element `k`, which is open, to element `last`.
fn put_opens(
    out: &mut [u8],
    at: usize,
    line: &[u8],
    ids: &[[usize; 2]],
    k: usize,
    last: usize,
) -> usize
    requires fits { Fits out.old at (opens_text line.now (take (last - k) (drop (k + 1) ids.now))) }
    requires last_in_bounds { last < length ids.now }
    requires k_le_last { k ≤ last }
    requires ids_value { elements_suit line.now ids.now ≡ true }
    ensures { Wrote out.old at (opens_text line.now (take (last - k) (drop (k + 1) ids.now))) result out.new }
{
    let mut pos = at;
    let mut j = k;
    while j < last {
        j += 1;
        let row = ids[j];
        pos = put_next(out, pos, line, row);
    }
    pos
}

// ` name="`
fn put_name(out: &mut [u8], at: usize, line: &[u8], p: Param) -> usize
    requires fits { Fits out.old at (bytes " " ++ text_at line.now p.name_start p.name_len ++ bytes "=\"") }
    requires name_len_in_bounds { p.name_start + p.name_len ≤ length line.now }
    ensures { Wrote out.old at (bytes " " ++ text_at line.now p.name_start p.name_len ++ bytes "=\"") result out.new }
{
    let a = put(out, at, b' ');
    let b = put_part(out, a, line, p.name_start, p.name_len);
    put_text(out, b, b"=\"")
}

fn put_param(out: &mut [u8], at: usize, line: &[u8], p: Param) -> usize
    requires fits { Fits out.old at (param_text line.now (row_of p)) }
    requires name_len_in_bounds { p.name_start + p.name_len ≤ length line.now }
    requires value_len_in_bounds { p.value_start + p.value_len ≤ length line.now }
    ensures { Wrote out.old at (param_text line.now (row_of p)) result out.new }
{
    let a = put_name(out, at, line, p);
    let b = put_part(out, a, line, p.value_start, p.value_len);
    put(out, b, b'"')
}

// A parameter, and before it the elements from `k`, which is open, to its own.
pub fn put_turn(
    out: &mut [u8],
    at: usize,
    line: &[u8],
    count: usize,
    elements: &[[usize; 2]],
    k: usize,
    p: Param,
) -> usize
    requires fits { Fits out.old at (opens_text line.now (take (p.element - k) (drop (k + 1) (take count elements.now))) ++ param_text line.now (row_of p)) }
    requires count_in_bounds { count ≤ length elements.now }
    requires elements_value { elements_suit line.now (take count elements.now) ≡ true }
    requires p_value { param_suits line.now count k (row_of p) ≡ true }
    ensures { Wrote out.old at (opens_text line.now (take (p.element - k) (drop (k + 1) (take count elements.now))) ++ param_text line.now (row_of p)) result out.new }
{
    if k < p.element {
        let ids = counted(elements, count);
        let a = put_opens(out, at, line, ids, k, p.element);
        return put_param(out, a, line, p);
    }
    put_param(out, at, line, p)
}

// The elements after `k`, which is open, and the last one's end. (Where there is no element, `k` is 0.)
pub fn put_close(out: &mut [u8], at: usize, line: &[u8], ids: &[[usize; 2]], k: usize) -> usize
    requires fits { Fits out.old at (close_text line.now ids.now k) }
    requires k_in_bounds { k ≤ length ids.now - 1 }
    requires ids_value { elements_suit line.now ids.now ≡ true }
    ensures { Wrote out.old at (close_text line.now ids.now k) result out.new }
{
    if ids.len() == 0 {
        return at;
    }
    let a = put_opens(out, at, line, ids, k, ids.len() - 1);
    put(out, a, b']')
}
