// The writer of strict lines. What is handed in is judged and measured in one walk over both tables, and written in a second one.
#![tactic(auto)]

ghost use Rattle.std.specs.Prelude.{◌≡◌, true, ◌++◌, ◌+◌, ◌≤◌, ◌<◌, length, take};
ghost use Rattle.record.specs.Limits.{line_limit};
ghost use Rattle.record.specs.Params.{rows};
ghost use Rattle.suits.specs.Suits.{record_suits, elements_suit, suits};
ghost use Rattle.output.specs.Fits.{Fits};
ghost use Rattle.output.specs.Output.{Wrote};
ghost use Rattle.grammar.specs.Line.{message_text};
ghost use Rattle.writes.specs.Written.{written};
ghost use Rattle.writes.specs.Writes.{part_in, place_in, record_in, fields_in, Writes};
ghost use Rattle.writer_header.specs.Fronts.{front_text};
ghost use Rattle.writer_data.specs.Sizes.{Capped};
ghost use Rattle.writer_data.specs.Walks.{first_text, step_text, Puts, Measures};
ghost use Rattle.writer.specs.Serves.{ServesWrite};
ghost use Rattle.writer.specs.Steps.{Rows, Entry, Begins, Named, settled, Opens, entry_or, is_written, answer_of, Measured};

use record::{OutputAnswer, Param, Place, Protocol, Record, Refusal, Span};
use writer_data::Walk;
use writes::{Handed, Part};

fn place_in(p: Part) -> Place
    ensures { result ≡ place_in p }
{
    Place {
        present: p.present != 0,
        start: p.start,
        len: p.len,
    }
}

// Timestamp and places, for refusal 7.
fn record_in(h: Handed) -> Record
    ensures { result ≡ record_in h }
{
    let host = h.host;
    let app = h.app;
    let procid = h.procid;
    let msgid = h.msgid;
    Record {
        protocol: Protocol::Rfc5424(h.version),
        facility: None,
        severity: None,
        timestamp: fitting::stamp_in(h),
        host: place_in(host),
        app: place_in(app),
        procid: place_in(procid),
        msgid: place_in(msgid),
        message: Span {
            start: h.message.start,
            len: h.message.len,
        },
    }
}

// ---- measuring

// `n` bytes and those of the message.
fn with_message(text: &[u8], n: usize, p: Part) -> usize
    requires n_le_line_limit { n ≤ line_limit }
    requires len_in_bounds { p.start + p.len ≤ length text.now }
    ensures { Capped (n + length (message_text (part_in text.now p))) result }
{
    if p.present == 0 {
        return n;
    }
    let len = fitting::text_at(text, p.start, p.len).len();
    if record::LINE_LIMIT < len {
        return record::LINE_LIMIT + 1;
    }
    writer_data::add(n + 1, len)
}

// All but the elements and their parameters, with the opening of the first element.
fn start<'a>(text: &'a [u8], h: Handed, rows: &'a [[usize; 2]]) -> Walk
    requires h_value { record_suits text.now (record_in h) ≡ true }
    requires rows_value { elements_suit text.now rows.now ≡ true }
    ensures { Begins text.now h rows.now result }
{
    let message = h.message;
    if !fitting::head_fits(text, h) {
        return writer_data::stopped(rows.len());
    }
    if !writer_data::id_fits(text, rows, 0) {
        return writer_data::stopped(rows.len());
    }
    let n = writer_header::front_len(text, h) + writer_data::first_size(text, rows);
    let at = with_message(text, n, message);
    Walk {
        element: 0,
        next: 0,
        at,
        fits: true,
    }
}

// Whether the ids differ, where all else fits.
fn settle<'a>(w: Walk, text: &'a [u8], rows: &'a [[usize; 2]]) -> Walk
    requires rows_value { elements_suit text.now rows.now ≡ true }
    requires named { Named text.now rows.now w }
    ensures { result ≡ settled text.now rows.now w }
{
    if !w.fits {
        return w;
    }
    if ids::ids_differ(text, rows) {
        return w;
    }
    writer_data::stopped(rows.len())
}

// ---- the same over the element table, of which some rows count; for `measure` and `put_line`, which name the parameter table and so only call

fn measure_start<'a>(text: &'a [u8], h: Handed, elements: &'a [[usize; 2]]) -> Walk
    requires h_value { record_suits text.now (record_in h) ≡ true }
    requires rows { Rows text.now h.element_count elements.now }
    ensures { Begins text.now h (take h.element_count elements.now) result }
{
    start(text, h, writer_data::counted(elements, h.element_count))
}

fn measure_turn<'a>(
    w: Walk,
    text: &'a [u8],
    h: Handed,
    elements: &'a [[usize; 2]],
    p: Param,
) -> Walk
    requires rows { Rows text.now h.element_count elements.now }
    requires entry { Entry text.now p }
    requires element_bound { w.element < h.element_count }
    requires at_bound { w.at ≤ line_limit + 1 }
    ensures { Measures text.now (take h.element_count elements.now) h.param_count w p result }
{
    let rows = writer_data::counted(elements, h.element_count);
    writer_data::measure_step(w, text, h.param_count, rows, p)
}

fn measure_end<'a>(w: Walk, text: &'a [u8], h: Handed, elements: &'a [[usize; 2]]) -> Walk
    requires rows { Rows text.now h.element_count elements.now }
    requires named { Named text.now (take h.element_count elements.now) w }
    ensures { result ≡ settled text.now (take h.element_count elements.now) w }
{
    settle(w, text, writer_data::counted(elements, h.element_count))
}

// The front and the opening of the first element.
fn put_start<'a>(out: &mut [u8], text: &'a [u8], h: Handed, elements: &'a [[usize; 2]]) -> Walk
    requires fits { Fits out.old 0 (front_text text.now h ++ first_text text.now (take h.element_count elements.now)) }
    requires h_value { record_suits text.now (record_in h) ≡ true }
    requires rows { Rows text.now h.element_count elements.now }
    ensures { Opens (front_text text.now h ++ first_text text.now (take h.element_count elements.now)) out.old result out.new }
{
    let rows = writer_data::counted(elements, h.element_count);
    let a = writer_header::put_front(out, text, h);
    let at = writer_data::put_first(out, a, text, rows);
    Walk {
        element: 0,
        next: 0,
        at,
        fits: true,
    }
}

fn put_turn<'a>(
    out: &mut [u8],
    w: Walk,
    text: &'a [u8],
    h: Handed,
    elements: &'a [[usize; 2]],
    p: Param,
) -> Walk
    requires fits { Fits out.old w.at (step_text text.now (take h.element_count elements.now) h.param_count w p) }
    requires rows { Rows text.now h.element_count elements.now }
    requires entry { Entry text.now p }
    requires element_bound { w.element < h.element_count }
    ensures { Puts text.now (take h.element_count elements.now) h.param_count w p out.old result out.new }
{
    let rows = writer_data::counted(elements, h.element_count);
    writer_data::put_step(out, w, text, h.param_count, rows, p)
}

fn put_end(out: &mut [u8], w: Walk, text: &[u8], h: Handed) -> usize
    requires fits { Fits out.old w.at (message_text (part_in text.now h.message)) }
    requires h_value { record_suits text.now (record_in h) ≡ true }
    ensures { Wrote out.old w.at (message_text (part_in text.now h.message)) result out.new }
{
    let message = h.message;
    writer_header::put_message(out, w.at, text, message)
}

// Refusals 17, 1 and 8, or the length.
fn answer(w: Walk, room: usize) -> Result<usize, Refusal>
    ensures { result ≡ answer_of w room }
{
    if !w.fits {
        return Err(Refusal::Unwritable);
    }
    if record::LINE_LIMIT < w.at {
        return Err(Refusal::LineTooLong);
    }
    if room < w.at {
        return Err(Refusal::OutputShort);
    }
    Ok(w.at)
}

fn is_written(w: Walk, room: usize) -> bool
    ensures { result ≡ is_written w room }
{
    w.fits & (w.at <= record::LINE_LIMIT) & (w.at <= room)
}

// ---- over the parameter table

// The entry `i`, where it is one of the first `count`.
fn entry_or(params: &[Param], i: usize, count: usize) -> Param
    requires { count ≤ length params.now }
    ensures { result ≡ entry_or params.now i count }
{
    if i < count {
        return entries::fetch(params, i);
    }
    record::blank()
}

// Whether all fits, and the length of the line, or 8,193 where it is longer.
fn measure<'a>(text: &'a [u8], h: Handed, elements: &'a [[usize; 2]], params: &[Param]) -> Walk
    requires { suits text.now (record_in h) h.element_count h.param_count elements.now (rows params.now) ≡ true }
    ensures { Measured text.now h elements.now (rows params.now) result }
{
    let count = h.element_count;
    let param_count = h.param_count;
    let mut w = measure_start(text, h, elements);
    while w.element < count {
        let i = w.next;
        let p = entry_or(params, i, param_count);
        w = measure_turn(w, text, h, elements, p);
    }
    measure_end(w, text, h, elements)
}

// The line.
fn put_line<'a>(
    out: &mut [u8],
    text: &'a [u8],
    h: Handed,
    elements: &'a [[usize; 2]],
    params: &[Param],
) -> usize
    requires fits { Fits out.old 0 (written (fields_in text.now h elements.now (rows params.now))) }
    requires params_value { suits text.now (record_in h) h.element_count h.param_count elements.now (rows params.now) ≡ true }
    ensures { Wrote out.old 0 (written (fields_in text.now h elements.now (rows params.now))) result out.new }
{
    let count = h.element_count;
    let param_count = h.param_count;
    let mut w = put_start(out, text, h, elements);
    while w.element < count {
        let i = w.next;
        let p = entry_or(params, i, param_count);
        w = put_turn(out, w, text, h, elements, p);
    }
    put_end(out, w, text, h)
}

// The service: the strict line of what is handed in, into `output`.
pub fn write<'a>(
    text: &'a [u8],
    h: Handed,
    elements: &'a [[usize; 2]],
    params: &[Param],
    output: &mut [u8],
) -> Result<usize, Refusal>
    ensures { Writes text.now h elements.now (rows params.now) output.old result output.new }
{
    let r = record_in(h);
    let count = h.element_count;
    let param_count = h.param_count;
    if suits::is_suitable(text, r, count, param_count, elements, params) {
        let w = measure(text, h, elements, params);
        let room = output.len();
        if is_written(w, room) {
            put_line(output, text, h, elements, params);
            return answer(w, room);
        }
        return answer(w, room);
    }
    suits::unsuitable()
}

// The service as a C caller has it: number and length.
pub fn khamdoriem_write_strict<'a>(
    text: &'a [u8],
    handed: Handed,
    elements: &'a [[usize; 2]],
    params: &[Param],
    output: &mut [u8],
) -> OutputAnswer
    ensures { ServesWrite text.now handed elements.now (rows params.now) output.old result output.new }
{
    let w = write(text, handed, elements, params, output);
    record::output_answer_of(w)
}
