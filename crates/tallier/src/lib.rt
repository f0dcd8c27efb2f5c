// The tally of standard input by the strict reader: each frame that is read raises the cell of its own facility and severity, and at the end each cell that is
// not zero is written. Where the input breaks off or cannot be read, or a cell is full, that is said on standard error, and what was tallied is written.
#![tactic(auto)]

ghost use Rattle.std.specs.Prelude.{◌≡◌, ◌+◌, ◌≤◌, ◌<◌, length};
ghost use Rattle.output.specs.Output.{Wrote};
ghost use Rattle.frames.specs.Tasks.{to_read};
ghost use Rattle.frames.specs.States.{Keeps};
ghost use Rattle.tally.specs.Tally.{row_count};
ghost use Rattle.tallier.specs.Text.{cell_text, row_text, tally_text};
ghost use Rattle.tallier.specs.Frames.{TalliesReading, Tallies, Onward};

use frames::{Options, State, Task};
use program::{Process, Status, Takes};
use record::{Refusal, StrictReading};

// What becomes of a frame: it is added, or passed over since it is not read, or its record is refused by the tally.
#[derive(Clone, Copy)]
pub enum Tallied {
    Added,
    Passed,
    Refused(Refusal),
}

// ---- frames

// What the strict reader answered, in the tally.
fn add_reading(tally: &mut [[u32; 9]; 25], reading: Result<StrictReading, Refusal>) -> Tallied
    ensures { TalliesReading tally.old reading result tally.new }
{
    let Ok(read) = reading else {
        return Tallied::Passed;
    };
    let facility = read.reading.common.facility;
    let severity = read.reading.common.severity;
    match tally::add(tally, facility, severity) {
        Ok(()) => Tallied::Added,
        Err(f) => Tallied::Refused(f),
    }
}

// A frame in the tally. It is read as the listing reads it, into tables of 64 and 256 entries, of which the tally has no use.
pub fn add_frame(tally: &mut [[u32; 9]; 25], frame: &[u8]) -> Tallied
    ensures { Tallies tally.old frame.now result tally.new }
{
    let reading = strict::answer(frame, 64, 256);
    add_reading(tally, reading)
}

// ---- the text

// The line of a cell that is not zero.
fn put_cell(out: &mut [u8], at: usize, i: u32, j: u32, n: u32) -> usize
    requires { at + 33 ≤ length out.old }
    ensures wrote { Wrote out.old at (cell_text i j n) result out.new }
    ensures upper_bound { result ≤ at + 33 }
    ensures out_len_unchanged { length out.new ≡ length out.old }
{
    if n == 0 {
        at
    } else {
        let second = frames::put_count(out, at, i, b' ');
        let third = frames::put_count(out, second, j, b' ');
        frames::put_count(out, third, n, b'\n')
    }
}

fn put_row(out: &mut [u8], at: usize, tally: &[[u32; 9]; 25], i: u32) -> usize
    requires at_in_bounds { at + 297 ≤ length out.old }
    requires i_lt_row_count { i < row_count }
    ensures wrote { Wrote out.old at (row_text tally.now i) result out.new }
    ensures upper_bound { result ≤ at + 297 }
    ensures out_len_unchanged { length out.new ≡ length out.old }
{
    let mut next = at;
    for j in 0..9 {
        let n = tally[i as usize][j as usize];
        next = put_cell(out, next, i, j, n);
    }
    next
}

// The text of a tally. A number and the byte after it take at most 11 bytes, a line three of them, and 225 lines at most 7,425.
pub fn put_tally(out: &mut [u8; 8192], tally: &[[u32; 9]; 25]) -> usize
    ensures wrote { Wrote out.old 0 (tally_text tally.now) result out.new }
    ensures upper_bound { result ≤ 8192 }
{
    let mut next = 0;
    for i in 0..25 {
        next = put_row(out, next, tally, i);
    }
    next
}

// ---- the program

// Says that the tally refused a record. Answers whether it did not.
fn said_of(process: &Process, told: Tallied) -> bool {
    match told {
        Tallied::Refused(f) => {
            frames::complain(
                process,
                b"tally",
                b": the tally refuses a record with ",
                u32::from(f),
                b", and nothing is tallied behind it\n",
            );
            false
        }
        _ => true,
    }
}

// Says why the input has ended too early.
fn report(process: &Process, task: Task) {
    match task {
        Task::End(n) => frames::complain(
            process,
            b"tally",
            b": the stream is refused with ",
            n,
            b", and nothing is tallied behind it\n",
        ),
        _ => frames::report(process, b"tally", task),
    }
}

// What is to be done behind a turn.
fn done(process: &Process, tally: &mut [[u32; 9]; 25], line: &[u8], s: State) -> State
    requires { to_read s.task ≤ length line.now }
    ensures keeps { Keeps s result }
    ensures onward { Onward tally.old tally.new }
{
    if frames::is_read(s) {
        let told = add_frame(tally, &line[..frames::to_read(s)]);
        frames::kept(s, said_of(process, told))
    } else {
        report(process, s.task);
        s
    }
}

fn turn(
    process: &mut Process,
    line: &mut [u8],
    chunk: &mut [u8],
    tally: &mut [[u32; 9]; 25],
    s: State,
) -> State
    requires got_in_bounds { s.got ≤ length chunk.old }
    requires left_nonzero { 0 < s.left }
    ensures got_in_bounds_2 { result.got ≤ length chunk.old }
    ensures left_lt_left { result.left < s.left }
    ensures onward { Onward tally.old tally.new }
{
    let t = frames::advance(process, line, chunk, s);
    done(process, tally, line, t)
}

// Tallies all frames of the input. Answers whether nothing failed.
pub fn run(
    process: &mut Process,
    line: &mut [u8],
    chunk: &mut [u8],
    tally: &mut [[u32; 9]; 25],
    options: Options,
) -> bool
    ensures { Onward tally.old tally.new }
{
    let mut s = frames::start(options);
    while 0 < s.left {
        s = turn(process, line, chunk, tally, s);
    }
    s.ok
}

// What `./tally` does in memory that it is lent: what its arguments ask for. Behind the input its line buffer holds what is written.
pub fn tally_input(
    process: &mut Process,
    line: &mut [u8; 8192],
    chunk: &mut [u8],
    tally: &mut [[u32; 9]; 25],
) -> Status {
    let a = program::arguments(
        process,
        Takes {
            forms: true,
            places: false,
        },
    );
    let usage = *b"usage: ./tally [--crlf | --counted] < FILE\n";
    let help =
        *b"\nCounts the lines of standard input that the strict reader of RFC 5424 reads, by\n\
        facility and severity, and writes a line for each count that is not zero, in the\n\
        order of rows:\n\
        \x20   ROW COLUMN COUNT   row: facility 0 to 23, or 24, none; column: severity 0 to 7,\n\
        \x20                      or 8, none\n\
        The counts add up to the number of lines that './list' accepts; a line that it\n\
        refuses is passed over.\n\n\
        \x20   --crlf             lines end at CR LF, as for './list'\n\
        \x20   --counted          standard input is a stream of counted frames (RFC 6587,\n\
        \x20                      section 3.4.1), as for './list'\n\n\
        Exit status: 0 all is tallied; 1 reading or writing failed, a count is bad, the\n\
        stream ends in a frame, or a cell is full, and standard error says which (what came\n\
        before is tallied and written); 2 an argument is not known, or both of the above\n\
        are given.\n";
    if let Some(status) = frames::starts(process, a, b"tally", &usage, &help) {
        return status;
    }
    let ok = run(process, line, chunk, tally, frames::options_of(a));
    let n = put_tally(line, tally);
    let written = frames::write(process, b"tally", &line[..n]);
    program::end(process, b"tally", ok & written)
}
