// The elements of a strict line, a step at a time: the next parameter of the element that is open, or its end and the opening of the next one. Each step is measured
// and written.
#![tactic(auto)]

ghost use Rattle.std.specs.Prelude.{◌≡◌, true, false, [], ◌+◌, ◌≤◌, ◌<◌, length, get_or, take};
ghost use Rattle.record.specs.Limits.{line_limit};
ghost use Rattle.record.specs.Params.{row_of};
ghost use Rattle.suits.specs.Suits.{elements_suit};
ghost use Rattle.output.specs.Fits.{Fits, Sized};
ghost use Rattle.output.specs.Output.{Wrote};
ghost use Rattle.writes.specs.Written.{escape};
ghost use Rattle.fitting.specs.Heads.{row_fits};
ghost use Rattle.writer_data.specs.Sizes.{Capped};
ghost use Rattle.writer_data.specs.Walks.{open_text, name_text, param_text, next_text, first_text, id_fits, is_own, stopped_at, step_text, Puts, Measures};

use output::{put, put_text};
use record::Param;

// How far a walk over the elements and their parameters is: the element that is open, the next parameter, the bytes so far, and whether all of it fits.
#[derive(Clone, Copy)]
pub struct Walk {
    pub element: usize,
    pub next: usize,
    pub at: usize,
    pub fits: bool,
}

// The rows of the elements that count.
pub fn counted(elements: &[[usize; 2]], count: usize) -> &[[usize; 2]]
    requires { count ≤ length elements.now }
    ensures { result.now ≡ take count elements.now }
{
    &elements[0..count]
}

// ---- sizes, none of them over 8,193

fn cap(n: usize) -> usize
    ensures { Capped n result }
{
    if record::LINE_LIMIT < n {
        return record::LINE_LIMIT + 1;
    }
    n
}

pub fn add(a: usize, b: usize) -> usize
    requires a_bound { a ≤ line_limit + 1 }
    requires b_bound { b ≤ line_limit + 1 }
    ensures { Capped (a + b) result }
{
    cap(a + b)
}

// A value with its escapes has as many bytes or more.
fn value_size(v: &[u8]) -> usize
    ensures { Capped (length (escape v.now)) result }
{
    if record::LINE_LIMIT < v.len() {
        return record::LINE_LIMIT + 1;
    }
    cap(escaping::escaped_len(v))
}

// ---- a parameter

// How many bytes one takes that fits.
fn param_size(text: &[u8], p: Param) -> usize
    requires name_len_in_bounds { p.name_start + p.name_len ≤ length text.now }
    requires value_len_in_bounds { p.value_start + p.value_len ≤ length text.now }
    requires p_value { row_fits text.now (row_of p) ≡ true }
    ensures { Capped (length (param_text text.now (row_of p))) result }
{
    let name = fitting::text_at(text, p.name_start, p.name_len).len();
    let value = value_size(fitting::text_at(text, p.value_start, p.value_len));
    cap(name + value + 4)
}

// ` name="`
fn put_name(out: &mut [u8], at: usize, text: &[u8], p: Param) -> usize
    requires fits { Fits out.old at (name_text text.now (row_of p)) }
    requires name_len_in_bounds { p.name_start + p.name_len ≤ length text.now }
    ensures { Wrote out.old at (name_text text.now (row_of p)) result out.new }
{
    let name = fitting::text_at(text, p.name_start, p.name_len);
    let a = put(out, at, b' ');
    let b = put_text(out, a, name);
    put_text(out, b, b"=\"")
}

fn put_param(out: &mut [u8], at: usize, text: &[u8], p: Param) -> usize
    requires fits { Fits out.old at (param_text text.now (row_of p)) }
    requires name_len_in_bounds { p.name_start + p.name_len ≤ length text.now }
    requires value_len_in_bounds { p.value_start + p.value_len ≤ length text.now }
    ensures { Wrote out.old at (param_text text.now (row_of p)) result out.new }
{
    let value = fitting::text_at(text, p.value_start, p.value_len);
    let a = put_name(out, at, text, p);
    let b = escaping::put_escaped(out, a, value);
    put(out, b, b'"')
}

// ---- an element

// Whether the id of element `k` is an SD-NAME, if there is one.
pub fn id_fits<'a>(text: &'a [u8], rows: &'a [[usize; 2]], k: usize) -> bool
    requires { elements_suit text.now rows.now ≡ true }
    ensures { result ≡ id_fits text.now rows.now k }
{
    if rows.len() <= k {
        return true;
    }
    fitting::class_fits(ids::id_at(text, rows, k), 32, true)
}

// How many bytes the end of element `k` and the opening of the next one take.
fn next_size<'a>(text: &'a [u8], rows: &'a [[usize; 2]], k: usize) -> usize
    requires rows_value { elements_suit text.now rows.now ≡ true }
    requires k_in_bounds { k < length rows.now }
    requires k_value { id_fits text.now rows.now (k + 1) ≡ true }
    ensures { Sized (next_text text.now rows.now k) 34 result }
{
    let next = k + 1;
    if rows.len() <= next {
        return 1;
    }
    ids::id_at(text, rows, next).len() + 2
}

// `[id`
fn put_open<'a>(
    out: &mut [u8],
    at: usize,
    text: &'a [u8],
    rows: &'a [[usize; 2]],
    k: usize,
) -> usize
    requires fits { Fits out.old at (open_text text.now (get_or rows.now k [])) }
    requires rows_value { elements_suit text.now rows.now ≡ true }
    requires k_in_bounds { k < length rows.now }
    ensures { Wrote out.old at (open_text text.now (get_or rows.now k [])) result out.new }
{
    let id = ids::id_at(text, rows, k);
    let a = put(out, at, b'[');
    put_text(out, a, id)
}

// The end of element `k`, and the opening of the next one, if there is one.
fn put_next<'a>(
    out: &mut [u8],
    at: usize,
    text: &'a [u8],
    rows: &'a [[usize; 2]],
    k: usize,
) -> usize
    requires fits { Fits out.old at (next_text text.now rows.now k) }
    requires rows_value { elements_suit text.now rows.now ≡ true }
    requires k_in_bounds { k < length rows.now }
    ensures { Wrote out.old at (next_text text.now rows.now k) result out.new }
{
    let a = put(out, at, b']');
    let next = k + 1;
    if rows.len() <= next {
        return a;
    }
    put_open(out, a, text, rows, next)
}

// How many bytes the opening of the first element takes, or `-`.
pub fn first_size<'a>(text: &'a [u8], rows: &'a [[usize; 2]]) -> usize
    requires rows_value { elements_suit text.now rows.now ≡ true }
    requires rows_value_2 { id_fits text.now rows.now 0 ≡ true }
    ensures { Sized (first_text text.now rows.now) 33 result }
{
    if rows.len() == 0 {
        return 1;
    }
    ids::id_at(text, rows, 0).len() + 1
}

// The opening of the first element, or `-`.
pub fn put_first<'a>(out: &mut [u8], at: usize, text: &'a [u8], rows: &'a [[usize; 2]]) -> usize
    requires fits { Fits out.old at (first_text text.now rows.now) }
    requires rows_value { elements_suit text.now rows.now ≡ true }
    ensures { Wrote out.old at (first_text text.now rows.now) result out.new }
{
    if rows.len() == 0 {
        return put(out, at, b'-');
    }
    put_open(out, at, text, rows, 0)
}

// ---- a step

fn is_own(w: Walk, count: usize, p: Param) -> bool
    ensures { result ≡ is_own w count p }
{
    (w.next < count) & (p.element == w.element)
}

// The walk is over: something of `n` elements does not fit.
pub fn stopped(n: usize) -> Walk
    ensures { result ≡ stopped_at n }
{
    Walk {
        element: n,
        next: 0,
        at: 0,
        fits: false,
    }
}

fn measure_param<'a>(
    w: Walk,
    text: &'a [u8],
    count: usize,
    rows: &'a [[usize; 2]],
    p: Param,
) -> Walk
    requires name_len_in_bounds { p.name_start + p.name_len ≤ length text.now }
    requires value_len_in_bounds { p.value_start + p.value_len ≤ length text.now }
    requires at_bound { w.at ≤ line_limit + 1 }
    requires p_value { is_own w count p ≡ true }
    ensures { Measures text.now rows.now count w p result }
{
    if !fitting::param_fits(text, p) {
        return stopped(rows.len());
    }
    let at = add(w.at, param_size(text, p));
    Walk {
        element: w.element,
        next: w.next + 1,
        at,
        fits: true,
    }
}

fn measure_next<'a>(w: Walk, text: &'a [u8], count: usize, rows: &'a [[usize; 2]], p: Param) -> Walk
    requires rows_value { elements_suit text.now rows.now ≡ true }
    requires element_in_bounds { w.element < length rows.now }
    requires at_bound { w.at ≤ line_limit + 1 }
    requires p_value { is_own w count p ≡ false }
    ensures { Measures text.now rows.now count w p result }
{
    let next = w.element + 1;
    if !id_fits(text, rows, next) {
        return stopped(rows.len());
    }
    let at = add(w.at, next_size(text, rows, w.element));
    Walk {
        element: next,
        next: w.next,
        at,
        fits: true,
    }
}

// The entry `p` is the next parameter, if there is one.
pub fn measure_step<'a>(
    w: Walk,
    text: &'a [u8],
    count: usize,
    rows: &'a [[usize; 2]],
    p: Param,
) -> Walk
    requires rows_value { elements_suit text.now rows.now ≡ true }
    requires name_len_in_bounds { p.name_start + p.name_len ≤ length text.now }
    requires value_len_in_bounds { p.value_start + p.value_len ≤ length text.now }
    requires element_in_bounds { w.element < length rows.now }
    requires at_bound { w.at ≤ line_limit + 1 }
    ensures { Measures text.now rows.now count w p result }
{
    if is_own(w, count, p) {
        return measure_param(w, text, count, rows, p);
    }
    measure_next(w, text, count, rows, p)
}

pub fn put_step<'a>(
    out: &mut [u8],
    w: Walk,
    text: &'a [u8],
    count: usize,
    rows: &'a [[usize; 2]],
    p: Param,
) -> Walk
    requires fits { Fits out.old w.at (step_text text.now rows.now count w p) }
    requires rows_value { elements_suit text.now rows.now ≡ true }
    requires name_len_in_bounds { p.name_start + p.name_len ≤ length text.now }
    requires value_len_in_bounds { p.value_start + p.value_len ≤ length text.now }
    requires element_in_bounds { w.element < length rows.now }
    ensures { Puts text.now rows.now count w p out.old result out.new }
{
    if is_own(w, count, p) {
        let at = put_param(out, w.at, text, p);
        return Walk {
            element: w.element,
            next: w.next + 1,
            at,
            fits: true,
        };
    }
    let at = put_next(out, w.at, text, rows, w.element);
    Walk {
        element: w.element + 1,
        next: w.next,
        at,
        fits: true,
    }
}
