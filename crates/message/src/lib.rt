// message.rs: printing a record into a lent output.
#![tactic(auto)]

mod elements;
mod fields;

ghost use Rattle.std.specs.Prelude.{◌≡◌, true, ◌++◌, ◌+◌, ◌-◌, ◌≤◌, leb, ltb, length, take};
ghost use Rattle.record.specs.Limits.{line_limit};
ghost use Rattle.record.specs.Params.{rows};
ghost use Rattle.record.specs.declared.Refusal.TheVariants.{LineTooLong, OutputShort};
ghost use Rattle.suits.specs.Suits.{record_suits, elements_suit, suits};
ghost use Rattle.output.specs.Fits.{Fits, Sized};
ghost use Rattle.output.specs.Output.{Wrote};
ghost use Rattle.message.specs.Message.{head_text, names_text, printed};
ghost use Rattle.message.specs.Opens.{first_text, close_text, end_text, back_text};
ghost use Rattle.message.specs.Prints.{Prints};
ghost use Rattle.message.specs.Rooms.{other_size, fits_in};

use crate::elements::{
    counted, elements_room, param_room, put_close, put_first, put_turn, room_for,
};
use crate::fields::{front_len, put_front, put_part};
use output::{put, put_text};
use record::{Param, Protocol, Record, Refusal};

fn put_end(out: &mut [u8], at: usize, r: Record, count: usize) -> usize
    requires { Fits out.old at (end_text r.protocol count) }
    ensures { Wrote out.old at (end_text r.protocol count) result out.new }
{
    if count != 0 {
        return put(out, at, b' ');
    }
    let protocol = r.protocol;
    match protocol {
        Protocol::Rfc3164 => at,
        Protocol::Rfc5424(_) => put_text(out, at, b"- "),
    }
}

fn end_len(r: Record, count: usize) -> usize
    ensures { Sized (end_text r.protocol count) 2 result }
{
    if count != 0 {
        return 1;
    }
    let protocol = r.protocol;
    match protocol {
        Protocol::Rfc3164 => 0,
        Protocol::Rfc5424(_) => 2,
    }
}

// What stands after the elements.
fn put_back(out: &mut [u8], at: usize, line: &[u8], r: Record, count: usize) -> usize
    requires fits { Fits out.old at (back_text line.now r count) }
    requires len_in_bounds { r.message.start + r.message.len ≤ length line.now }
    ensures { Wrote out.old at (back_text line.now r count) result out.new }
{
    let a = put_end(out, at, r, count);
    put_part(out, a, line, r.message.start, r.message.len)
}

// Whether all but the parameters fits into `left` bytes.
fn others_fit(left: usize, line: &[u8], r: Record, ids: &[[usize; 2]]) -> bool
    requires line_len_bound { length line.now ≤ line_limit }
    requires r_value { record_suits line.now r ≡ true }
    ensures { result ≡ leb (other_size line.now r ids.now) left }
{
    let size = front_len(line, r) + end_len(r, ids.len()) + r.message.len;
    let Some(a) = room_for(left, size) else {
        return false;
    };
    elements_room(a, ids).is_some()
}

// Whether it fits into what the parameters leave.
fn rest_fits(
    room: Option<usize>,
    line: &[u8],
    r: Record,
    count: usize,
    elements: &[[usize; 2]],
) -> bool
    requires line_len_bound { length line.now ≤ line_limit }
    requires r_value { record_suits line.now r ≡ true }
    requires count_in_bounds { count ≤ length elements.now }
    ensures { result ≡ fits_in room (other_size line.now r (take count elements.now)) }
{
    let Some(left) = room else {
        return false;
    };
    others_fit(left, line, r, counted(elements, count))
}

// Whether the record fits into `room` bytes.
fn fits(
    line: &[u8],
    r: Record,
    element_count: usize,
    param_count: usize,
    elements: &[[usize; 2]],
    params: &[Param],
    room: usize,
) -> bool
    requires line_len_bound { length line.now ≤ line_limit }
    requires params_value { suits line.now r element_count param_count elements.now (rows params.now) ≡ true }
    ensures { result ≡ leb (length (printed line.now r (take element_count elements.now) (take param_count (rows params.now)))) room }
{
    let mut left = Some(room);
    for p in &params[..param_count] {
        left = param_room(left, *p);
    }
    rest_fits(left, line, r, element_count, elements)
}

// All before the parameters: head and names, and the opening of the first element.
fn put_before(
    out: &mut [u8],
    line: &[u8],
    r: Record,
    count: usize,
    elements: &[[usize; 2]],
) -> usize
    requires fits { Fits out.old 0 (head_text line.now r ++ names_text line.now r r.protocol ++ first_text line.now (take count elements.now)) }
    requires r_value { record_suits line.now r ≡ true }
    requires count_in_bounds { count ≤ length elements.now }
    requires elements_value { elements_suit line.now (take count elements.now) ≡ true }
    ensures { Wrote out.old 0 (head_text line.now r ++ names_text line.now r r.protocol ++ first_text line.now (take count elements.now)) result out.new }
{
    let a = put_front(out, line, r);
    put_first(out, a, line, counted(elements, count))
}

// All after the parameters, of which the last is one of element `k`.
fn put_behind(
    out: &mut [u8],
    at: usize,
    line: &[u8],
    r: Record,
    count: usize,
    elements: &[[usize; 2]],
    k: usize,
) -> usize
    requires fits { Fits out.old at (close_text line.now (take count elements.now) k ++ back_text line.now r count) }
    requires r_value { record_suits line.now r ≡ true }
    requires count_in_bounds { count ≤ length elements.now }
    requires elements_value { elements_suit line.now (take count elements.now) ≡ true }
    requires k_bound { k ≤ count - 1 }
    ensures { Wrote out.old at (close_text line.now (take count elements.now) k ++ back_text line.now r count) result out.new }
{
    let a = put_close(out, at, line, counted(elements, count), k);
    put_back(out, a, line, r, count)
}

// The record. The numbers of the parameters' elements never fall, so one walk over the parameters opens each element in its turn.
fn put_record(
    out: &mut [u8],
    line: &[u8],
    r: Record,
    element_count: usize,
    param_count: usize,
    elements: &[[usize; 2]],
    params: &[Param],
) -> usize
    requires fits { Fits out.old 0 (printed line.now r (take element_count elements.now) (take param_count (rows params.now))) }
    requires params_value { suits line.now r element_count param_count elements.now (rows params.now) ≡ true }
    ensures { Wrote out.old 0 (printed line.now r (take element_count elements.now) (take param_count (rows params.now))) result out.new }
{
    let mut at = put_before(out, line, r, element_count, elements);
    let mut k = 0;
    for p in &params[..param_count] {
        at = put_turn(out, at, line, element_count, elements, k, *p);
        k = p.element;
    }
    put_behind(out, at, line, r, element_count, elements, k)
}

// The service: the record as text, into `out`.
pub fn print(
    line: &[u8],
    r: Record,
    element_count: usize,
    param_count: usize,
    elements: &[[usize; 2]],
    params: &[Param],
    out: &mut [u8],
) -> Result<usize, Refusal>
    ensures { Prints line.now r element_count param_count elements.now (rows params.now) out.old result out.new }
{
    if record::LINE_LIMIT < line.len() {
        return Err(Refusal::LineTooLong);
    }
    if !suits::is_suitable(line, r, element_count, param_count, elements, params) {
        return Err(Refusal::Unsuitable);
    }
    if !fits(
        line,
        r,
        element_count,
        param_count,
        elements,
        params,
        out.len(),
    ) {
        return Err(Refusal::OutputShort);
    }
    let end = put_record(out, line, r, element_count, param_count, elements, params);
    Ok(end)
}
