// The comparison of standard input: the settings record of a gate, and behind it lines, two by two; a line is written for each pair. Where the record is
// refused, reading or writing fails, or a line is left without a second, that is said on standard error.
#![tactic(auto)]

ghost use Rattle.std.specs.Prelude.{◌≡◌, ◌+◌, ◌≤◌, ◌<◌, length, IfSome};
ghost use Rattle.output.specs.Output.{Wrote};
ghost use Rattle.base.specs.Texts.{text_at};
ghost use Rattle.comparer.specs.Text.{is_odd, shown_of, name_text, spaced, levels_text, places_text, ids_text, names_text, named_text, quoted_text, pair_text, elements_text, fields_text, refused_text, done_text, answer_text, line_text};
ghost use Rattle.comparer.specs.Turns.{line_of, sought, Within, Onward};

use compare::Refused;
use differ::Differences;
use frames::{Options, State, Task};
use program::{Process, Status, Takes};
use record::{Param, Refusal};
use settings::Settings;

// Where the program stands: with the frames of its input, and how many bytes of its buffer the first line of a pair is, where it is there, and the second.
#[derive(Clone, Copy)]
pub struct Turn {
    pub state: State,
    pub first: Option<usize>,
    pub second: Option<usize>,
}

// ---- pairs of lines

// How many bytes of a buffer of `room` bytes are the line, where one has ended. One that is too long is all of them, which is more than a line may have: the
// comparison refuses it, whatever they are, in its place.
fn line_of(task: Task, room: usize) -> Option<usize>
    ensures { result ≡ line_of task room }
{
    match task {
        Task::Read(n) => Some(n),
        Task::Refuse(_) => Some(room),
        _ => None,
    }
}

// One turn, in the buffer of the line that is sought. Says why the input has ended too early, if it has.
fn advance(
    process: &mut Process,
    line1: &mut [u8],
    line2: &mut [u8],
    chunk: &mut [u8],
    t: Turn,
) -> Turn
    requires within { Within (length line1.old) (length line2.old) (length chunk.old) t }
    requires left_nonzero { 0 < t.state.left }
    ensures within_2 { Within (length line1.old) (length line2.old) (length chunk.old) result }
    ensures left_lt_left { result.state.left < t.state.left }
    ensures lines { result ≡ sought t.first result.state (length line1.old) (length line2.old) }
{
    match t.first {
        Some(_) => {
            let state = frames::advance(process, line2, chunk, t.state);
            frames::report(process, b"compare", state.task);
            Turn {
                state,
                first: t.first,
                second: line_of(state.task, line2.len()),
            }
        }
        None => {
            let state = frames::advance(process, line1, chunk, t.state);
            frames::report(process, b"compare", state.task);
            Turn {
                state,
                first: line_of(state.task, line1.len()),
                second: None,
            }
        }
    }
}

// ---- the text of an answer

fn is_odd(n: u32) -> bool
    ensures { result ≡ is_odd n }
{
    n % 2 == 1
}

// A count as it is written. (A line has 8,192 bytes: no count reaches the remainder.)
fn shown(count: usize) -> u32
    ensures { result ≡ shown_of count }
{
    (count % 0x1_0000_0000) as u32
}

// A word behind a blank, where it is to be written.
fn put_name(out: &mut [u8], at: usize, differs: bool, name: &[u8]) -> usize
    requires at_in_bounds { at + 10 ≤ length out.old }
    requires name_len_bound { length name.now ≤ 9 }
    ensures wrote { Wrote out.old at (name_text differs name.now) result out.new }
    ensures upper_bound { result ≤ at + 10 }
    ensures out_len_unchanged { length out.new ≡ length out.old }
{
    if differs {
        let next = output::put(out, at, b' ');
        output::put_text(out, next, name)
    } else {
        at
    }
}

// A number behind a blank.
fn put_spaced(out: &mut [u8], at: usize, n: u32) -> usize
    requires { at + 11 ≤ length out.old }
    ensures wrote { Wrote out.old at (spaced n) result out.new }
    ensures upper_bound { result ≤ at + 11 }
    ensures out_len_unchanged { length out.new ≡ length out.old }
{
    let next = output::put(out, at, b' ');
    output::put_number(out, next, n)
}

fn put_levels(out: &mut [u8], at: usize, fields: u32) -> usize
    requires { at + 30 ≤ length out.old }
    ensures wrote { Wrote out.old at (levels_text fields) result out.new }
    ensures upper_bound { result ≤ at + 30 }
    ensures out_len_unchanged { length out.new ≡ length out.old }
{
    let a = put_name(out, at, is_odd(fields), b"protocol");
    let b = put_name(out, a, is_odd(fields / 2), b"facility");
    put_name(out, b, is_odd(fields / 4), b"severity")
}

fn put_places(out: &mut [u8], at: usize, fields: u32) -> usize
    requires { at + 30 ≤ length out.old }
    ensures wrote { Wrote out.old at (places_text fields) result out.new }
    ensures upper_bound { result ≤ at + 30 }
    ensures out_len_unchanged { length out.new ≡ length out.old }
{
    let a = put_name(out, at, is_odd(fields / 8), b"timestamp");
    let b = put_name(out, a, is_odd(fields / 16), b"host");
    put_name(out, b, is_odd(fields / 32), b"app")
}

fn put_ids(out: &mut [u8], at: usize, fields: u32) -> usize
    requires { at + 30 ≤ length out.old }
    ensures wrote { Wrote out.old at (ids_text fields) result out.new }
    ensures upper_bound { result ≤ at + 30 }
    ensures out_len_unchanged { length out.new ≡ length out.old }
{
    let a = put_name(out, at, is_odd(fields / 64), b"procid");
    put_name(out, a, is_odd(fields / 128), b"msgid")
}

// The fields before the elements.
fn put_names(out: &mut [u8], at: usize, fields: u32) -> usize
    requires { at + 90 ≤ length out.old }
    ensures wrote { Wrote out.old at (names_text fields) result out.new }
    ensures upper_bound { result ≤ at + 90 }
    ensures out_len_unchanged { length out.new ≡ length out.old }
{
    let a = put_levels(out, at, fields);
    let b = put_places(out, a, fields);
    put_ids(out, b, fields)
}

// A parameter's name behind a blank, and what stands before its value.
fn put_named(out: &mut [u8], at: usize, name: &[u8]) -> usize
    requires at_in_bounds { at + 8196 ≤ length out.old }
    requires name_len_bound { length name.now ≤ 8193 }
    ensures wrote { Wrote out.old at (named_text name.now) result out.new }
    ensures upper_bound { result ≤ at + 8196 }
    ensures out_len_unchanged { length out.new ≡ length out.old }
{
    let a = output::put(out, at, b' ');
    let b = output::put_text(out, a, name);
    output::put_text(out, b, b"=\"")
}

// A value, and what stands behind it.
fn put_quoted(out: &mut [u8], at: usize, value: &[u8]) -> usize
    requires at_in_bounds { at + 8194 ≤ length out.old }
    requires value_len_bound { length value.now ≤ 8193 }
    ensures wrote { Wrote out.old at (quoted_text value.now) result out.new }
    ensures upper_bound { result ≤ at + 8194 }
    ensures out_len_unchanged { length out.new ≡ length out.old }
{
    let a = output::put_text(out, at, value);
    output::put(out, a, b'"')
}

// The pair that the lines do not have as often, where one is named: the line that it stands in, and the pair.
fn put_pair(out: &mut [u8], at: usize, number: u32, name: &[u8], value: &[u8]) -> usize
    requires at_in_bounds { at + 16401 ≤ length out.old }
    requires name_len_bound { length name.now ≤ 8193 }
    requires value_len_bound { length value.now ≤ 8193 }
    ensures wrote { Wrote out.old at (pair_text number name.now value.now) result out.new }
    ensures upper_bound { result ≤ at + 16401 }
    ensures out_len_unchanged { length out.new ≡ length out.old }
{
    if number == 0 {
        at
    } else {
        let a = put_spaced(out, at, number);
        let b = put_named(out, a, name);
        put_quoted(out, b, value)
    }
}

fn put_elements(out: &mut [u8], at: usize, d: Differences, name: &[u8], value: &[u8]) -> usize
    requires at_in_bounds { at + 16422 ≤ length out.old }
    requires name_len_bound { length name.now ≤ 8193 }
    requires value_len_bound { length value.now ≤ 8193 }
    ensures wrote { Wrote out.old at (elements_text d name.now value.now) result out.new }
    ensures upper_bound { result ≤ at + 16422 }
    ensures out_len_unchanged { length out.new ≡ length out.old }
{
    if is_odd(d.fields / 256) {
        let a = put_name(out, at, true, b"elements");
        let b = put_spaced(out, a, shown(d.position));
        put_pair(out, b, d.pair_line, name, value)
    } else {
        at
    }
}

fn put_fields(out: &mut [u8], at: usize, d: Differences, name: &[u8], value: &[u8]) -> usize
    requires at_in_bounds { at + 16522 ≤ length out.old }
    requires name_len_bound { length name.now ≤ 8193 }
    requires value_len_bound { length value.now ≤ 8193 }
    ensures wrote { Wrote out.old at (fields_text d name.now value.now) result out.new }
    ensures upper_bound { result ≤ at + 16522 }
    ensures out_len_unchanged { length out.new ≡ length out.old }
{
    let a = put_names(out, at, d.fields);
    let b = put_elements(out, a, d, name, value);
    put_name(out, b, is_odd(d.fields / 512), b"message")
}

fn put_refused(out: &mut [u8], at: usize, line: u32, refusal: Refusal) -> usize
    requires { at + 32 ≤ length out.old }
    ensures wrote { Wrote out.old at (refused_text line refusal) result out.new }
    ensures upper_bound { result ≤ at + 32 }
    ensures out_len_unchanged { length out.new ≡ length out.old }
{
    let a = put_name(out, at, true, b"refuse");
    let b = put_spaced(out, a, line);
    put_spaced(out, b, u32::from(refusal))
}

fn put_done(out: &mut [u8], at: usize, d: Differences, name: &[u8], value: &[u8]) -> usize
    requires at_in_bounds { at + 16522 ≤ length out.old }
    requires name_len_bound { length name.now ≤ 8193 }
    requires value_len_bound { length value.now ≤ 8193 }
    ensures wrote { Wrote out.old at (done_text d name.now value.now) result out.new }
    ensures upper_bound { result ≤ at + 16522 }
    ensures out_len_unchanged { length out.new ≡ length out.old }
{
    if d.fields == 0 {
        put_name(out, at, true, b"same")
    } else {
        put_fields(out, at, d, name, value)
    }
}

fn put_answer(out: &mut [u8], c: Result<Differences, Refused>, name: &[u8], value: &[u8]) -> usize
    requires in_bounds { 16522 ≤ length out.old }
    requires name_len_bound { length name.now ≤ 8193 }
    requires value_len_bound { length value.now ≤ 8193 }
    ensures wrote { Wrote out.old 0 (answer_text c name.now value.now) result out.new }
    ensures upper_bound { result ≤ 16522 }
    ensures out_len_unchanged { length out.new ≡ length out.old }
{
    match c {
        Err(refused) => put_refused(out, 0, refused.line, refused.refusal),
        Ok(d) => put_done(out, 0, d, name, value),
    }
}

// The line of a pair of lines, with a blank before it.
fn put_line(out: &mut [u8], c: Result<Differences, Refused>, name: &[u8], value: &[u8]) -> usize
    requires in_bounds { 16523 ≤ length out.old }
    requires name_len_bound { length name.now ≤ 8193 }
    requires value_len_bound { length value.now ≤ 8193 }
    ensures wrote { Wrote out.old 0 (line_text c name.now value.now) result out.new }
    ensures lower_bound { 1 ≤ result }
    ensures upper_bound { result ≤ 16523 }
    ensures out_len_unchanged { length out.new ≡ length out.old }
{
    let n = put_answer(out, c, name, value);
    output::put(out, n, b'\n')
}

// ---- the program

// A part of a line, as much of it as there is.
fn part(line: &[u8], start: usize, len: usize) -> &[u8]
    ensures { result.now ≡ text_at line.now start len }
{
    let rest = base::past(line, start.min(line.len()));
    &rest[..len.min(rest.len())]
}

// Whether the pair that an answer names stands in the second line.
fn is_second(c: Result<Differences, Refused>) -> bool {
    matches!(c, Ok(d) if d.pair_line == 2)
}

// Writes the line of a pair, which may name the parameter `p` of the first line or `q` of the second. Answers whether it could be written.
fn write_line(
    process: &Process,
    c: Result<Differences, Refused>,
    line1: &[u8],
    p: Param,
    line2: &[u8],
    q: Param,
) -> bool
    requires line1_len_bound { length line1.now ≤ 8193 }
    requires line2_len_bound { length line2.now ≤ 8193 }
{
    let (line, pair) = if is_second(c) { (line2, q) } else { (line1, p) };
    write_text(
        process,
        c,
        part(line, pair.name_start, pair.name_len),
        part(line, pair.value_start, pair.value_len),
    )
}

fn write_text(process: &Process, c: Result<Differences, Refused>, name: &[u8], value: &[u8]) -> bool
    requires name_len_bound { length name.now ≤ 8193 }
    requires value_len_bound { length value.now ≤ 8193 }
{
    let mut text = [0u8; 16523];
    let n = put_line(&mut text, c, name, value);
    frames::write(process, b"compare", &text[1..n])
}

// The entry of the pair that an answer names, in a table of 256 entries; the first one where it names none.
fn entry_of(c: Result<Differences, Refused>) -> usize
    ensures { result < 256 }
{
    match c {
        Ok(d) if d.pair_entry < 256 => d.pair_entry,
        _ => 0,
    }
}

// Compares a pair of lines and writes the answer, with parameter tables of its own. Answers whether it could be written.
fn compare_pair(
    process: &Process,
    line1: &[u8],
    line2: &[u8],
    settings: Settings,
    elements1: &mut [[usize; 2]],
    elements2: &mut [[usize; 2]],
) -> bool
    requires line1_len_bound { length line1.now ≤ 8193 }
    requires line2_len_bound { length line2.now ≤ 8193 }
{
    let blank = record::blank();
    let mut params1 = [blank; 256];
    let mut params2 = [blank; 256];
    let c = compare::compare(
        line1,
        line2,
        settings.variant,
        settings.year,
        settings.offset,
        elements1,
        &mut params1,
        elements2,
        &mut params2,
    );
    let i = entry_of(c);
    let p = entries::fetch(&params1, i);
    let q = entries::fetch(&params2, i);
    write_line(process, c, line1, p, line2, q)
}

// Behind a pair the first line of the next one is sought. Where its answer could not be written, all is done.
fn answered(t: Turn, ok: bool) -> Turn
    ensures { Onward t result }
{
    Turn {
        state: frames::kept(t.state, ok),
        first: None, // sought anew
        second: None,
    }
}

// At the beginning the first line of a pair is sought.
fn begin() -> Turn
    ensures { Within 0 0 0 result }
{
    Turn {
        state: frames::start(Options {
            crlf: false,
            counted: false,
        }),
        first: None,
        second: None,
    }
}

// Says that a line has no second, where nothing has failed before. Answers whether nothing has failed.
fn ended(process: &Process, t: Turn) -> bool {
    if t.state.ok && t.first.is_some() {
        program::complain(
            process,
            b"compare",
            b"standard input ends behind the first line of a pair",
        );
        return false;
    }
    t.state.ok
}

// A turn, and the answer where it has made a pair whole.
fn step(
    process: &mut Process,
    line1: &mut [u8],
    line2: &mut [u8],
    chunk: &mut [u8],
    elements1: &mut [[usize; 2]],
    elements2: &mut [[usize; 2]],
    settings: Settings,
    t: Turn,
) -> Turn
    requires line1_len_bound { length line1.old ≤ 8193 }
    requires line2_len_bound { length line2.old ≤ 8193 }
    requires within { Within (length line1.old) (length line2.old) (length chunk.old) t }
    requires left_nonzero { 0 < t.state.left }
    ensures within_2 { Within (length line1.old) (length line2.old) (length chunk.old) result }
    ensures left_lt_left { result.state.left < t.state.left }
    ensures no_pair_is_held { IfSome result.first (λ n. result.second ≡ None) }
{
    let u = advance(process, line1, line2, chunk, t);
    let (Some(n), Some(m)) = (u.first, u.second) else {
        return u;
    };
    let ok = compare_pair(
        process,
        &line1[..n],
        &line2[..m],
        settings,
        elements1,
        elements2,
    );
    answered(u, ok)
}

// Compares all pairs of the input. Answers whether nothing failed.
fn run(
    process: &mut Process,
    line1: &mut [u8],
    line2: &mut [u8],
    chunk: &mut [u8],
    elements1: &mut [[usize; 2]],
    elements2: &mut [[usize; 2]],
    settings: Settings,
) -> bool
    requires line1_len_bound { length line1.old ≤ 8193 }
    requires line2_len_bound { length line2.old ≤ 8193 }
{
    let mut t = begin();
    while 0 < t.state.left {
        t = step(
            process, line1, line2, chunk, elements1, elements2, settings, t,
        );
    }
    ended(process, t)
}

// The gate that a record names.
fn gate_of(record: &[u8; 32]) -> u32 {
    u32::from(record[6]) + 256 * u32::from(record[7])
}

// Says why there are no settings: under 32 bytes came, or reading failed, or the record is refused.
fn report(process: &mut Process, n: usize, refusal: Refusal) {
    if n == settings::RECORD_SIZE {
        frames::complain(
            process,
            b"compare",
            b": the settings record in front is refused with ",
            u32::from(refusal),
            b"\n",
        );
    } else if program::is_at_end(process, b"compare") {
        program::complain(
            process,
            b"compare",
            b"standard input has under 32 bytes: a settings record stands in front",
        );
    }
}

// The settings record in front of standard input, and how the lines behind it are read.
fn settings_in_front(process: &mut Process) -> Result<Settings, Refusal> {
    let mut record = [0u8; 32];
    let n = program::read_full(process, &mut record);
    let read = settings::read(&record[..n], gate_of(&record));
    if let Err(refusal) = read {
        report(process, n, refusal);
    }
    read
}

// What `./compare` does in memory that it is lent: line buffers that hold a byte more than a line may have, and element tables long enough for every line.
pub fn compare_input(
    process: &mut Process,
    line1: &mut [u8; 8193],
    line2: &mut [u8; 8193],
    chunk: &mut [u8],
    elements1: &mut [[usize; 2]],
    elements2: &mut [[usize; 2]],
) -> Status {
    let a = program::arguments(
        process,
        Takes {
            forms: false,
            places: false,
        },
    );
    let help =
        *b"\nReads the settings record of a gate, 32 bytes as './settings-write' writes them, and\n\
        behind it lines, and compares the first with the second, the third with the fourth\n\
        and so on, each read by the loose rules with the record's variant, year and offset\n\
        (its default host is none of a line). For each pair it writes a line:\n\
        \x20   same             the two say the same\n\
        \x20   FIELD ..         the fields that differ, in this order: protocol facility severity\n\
        \x20                    timestamp host app procid msgid elements message\n\
        \x20   refuse 1 N       the first line is not read: 1 it has over 8,192 bytes, 3 it is\n\
        \x20                    not UTF-8, 4 it has no reading, 6 it has over 256 parameters\n\
        \x20   refuse 2 N       the second is not, and the first is\n\
        Behind 'elements' stands the first position at which they differ, from 0; and where\n\
        both lines have one id there, a parameter that one of them has more often: the line\n\
        that it stands in, 1 or 2, and NAME=\"VALUE\" as that line writes it.\n\n\
        Exit status: 0 all is compared; 1 there is no such record in front, the last line has\n\
        no second, or reading or writing failed, and standard error says which; 2 an argument\n\
        is not known.\n";
    let usage = *b"usage: ./compare < FILE\n";
    if let Some(status) = program::starts(process, a, b"compare", &usage, &help) {
        return status;
    }
    let Ok(s) = settings_in_front(process) else {
        return program::end(process, b"compare", false);
    };
    let ok = run(process, line1, line2, chunk, elements1, elements2, s);
    program::end(process, b"compare", ok)
}
