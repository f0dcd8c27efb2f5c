// The listing of standard input by the strict reader: a line for each frame of it, `accept` with the counts of elements and of parameters, or `refuse` with
// the number of the refusal. Where reading or writing fails, or a counted stream breaks off, that is said on standard error, and nothing more is listed.
#![tactic(auto)]

ghost use Rattle.std.specs.Prelude.{◌≤◌, ◌<◌, length};
ghost use Rattle.frames.specs.Tasks.{to_read};
ghost use Rattle.frames.specs.States.{Keeps};

use frames::{Options, State, Task};
use program::{Process, Status, Takes};
use record::{Refusal, StrictReading};

// What is told of a line that has no reading: how far it is right, and that in words too.
#[derive(Clone, Copy)]
pub struct Telling {
    pub place: bool,
    pub point: bool,
}

// `refuse` and the number.
fn write_refusal(process: &Process, number: u32) -> bool {
    let mut text = *b"refuse .............";
    let n = frames::put_count(&mut text, 7, number, b'\n');
    frames::write(process, b"list", &text[..n])
}

// A word and two numbers: `accept` and the counts, or `refuse` with 4 and how many bytes of the line are right.
fn write_two(process: &Process, word: &[u8; 6], first: u32, second: u32) -> bool {
    let mut text = [b' '; 32];
    text[..6].copy_from_slice(word);
    let next = frames::put_count(&mut text, 7, first, b' ');
    let n = frames::put_count(&mut text, next, second, b'\n');
    frames::write(process, b"list", &text[..n])
}

// A count as it is written. (The tables have 64 and 256 entries, and a line 8,192 bytes: no count reaches the remainder.)
fn shown(count: usize) -> u32 {
    (count % 0x1_0000_0000) as u32
}

// Says what is to be said of a task, but for the reading. Answers whether it could be written.
fn said(process: &Process, task: Task) -> bool {
    match task {
        Task::Refuse(n) => write_refusal(process, n),
        Task::End(n) => {
            let ok = write_refusal(process, n);
            frames::complain(
                process,
                b"list",
                b": nothing is listed behind refuse ",
                n,
                b"\n",
            );
            ok
        }
        _ => {
            frames::report(process, b"list", task);
            true
        }
    }
}

// One turn, and what is to be said behind it.
fn advance(process: &mut Process, line: &mut [u8], chunk: &mut [u8], s: State) -> State
    requires got_in_bounds { s.got ≤ length chunk.old }
    requires left_nonzero { 0 < s.left }
    ensures task_in_bounds { to_read result.task ≤ length line.old }
    ensures got_in_bounds_2 { result.got ≤ length chunk.old }
    ensures left_lt_left { result.left < s.left }
{
    let t = frames::advance(process, line, chunk, s);
    frames::kept(t, said(process, t.task))
}

// Where a line that has no reading breaks, as it is asked for.
fn write_break(process: &Process, line: &[u8], telling: Telling) -> bool {
    let n = reach::reach(line);
    if line.len() < n {
        return false;
    }
    write_two(process, b"refuse", 4, shown(n))
        && (!telling.point || pointing::point(process, &line[..n], &line[n..]))
}

// A refusal of the strict reader.
fn refused(process: &Process, line: &[u8], refusal: Refusal, telling: Telling) -> bool {
    match refusal {
        Refusal::NoReading if telling.place => write_break(process, line, telling),
        _ => write_refusal(process, u32::from(refusal)),
    }
}

// What the strict reader answers to a frame is written. Where it cannot be, all is done.
fn answered(
    process: &Process,
    frame: &[u8],
    s: State,
    r: Result<StrictReading, Refusal>,
    telling: Telling,
) -> State
    ensures { Keeps s result }
{
    let ok = match r {
        Ok(r) => write_two(process, b"accept", shown(r.elements), shown(r.params)),
        Err(refusal) => refused(process, frame, refusal, telling),
    };
    frames::kept(s, ok)
}

// Lists all frames of the input, with the parameter table of the program. Answers whether nothing failed.
pub fn run(
    process: &mut Process,
    line: &mut [u8],
    elements: &mut [[usize; 2]],
    chunk: &mut [u8],
    options: Options,
    telling: Telling,
) -> bool {
    let blank = record::blank();
    let mut params = [blank; 256];
    let mut s = frames::start(options);
    while 0 < s.left {
        s = advance(process, line, chunk, s);
        if frames::is_read(s) {
            let used = frames::to_read(s);
            let r = strict::read(&line[..used], elements, &mut params);
            s = answered(process, &line[..used], s, r, telling);
        }
    }
    s.ok
}

// What `./list` does in memory that it is lent: what its arguments ask for.
pub fn list(
    process: &mut Process,
    line: &mut [u8],
    elements: &mut [[usize; 2]],
    chunk: &mut [u8],
) -> Status {
    let a = program::arguments(
        process,
        Takes {
            forms: true,
            places: true,
        },
    );
    let usage = *b"usage: ./list [--crlf | --counted] [--where | --point] < FILE\n";
    let help =
        *b"\nWrites a line for each line of standard input, by the strict reader of RFC 5424:\n\
        \x20   accept E P   the line is read, with E elements and P parameters\n\
        \x20   refuse N     it is not: 1 it has over 8,192 bytes, 4 it has no reading, 5 it has\n\
        \x20                over 64 elements, 6 over 256 parameters\n\
        A line ends at LF; a last line without LF counts if it is not empty.\n\n\
        \x20   --crlf       lines end at CR LF: one CR before an LF is not read (it counts among\n\
        \x20                the 8,192 bytes that a line may have)\n\
        Without it CR is a byte like others: a message and a value may hold it, and a line\n\
        whose header or structured data it follows is refused with 4.\n\n\
        \x20   --counted    standard input is a stream of counted frames (RFC 6587, section\n\
        \x20                3.4.1), with a line of answer for each: its length in 1 to 6 digits,\n\
        \x20                a space, and its bytes. 12 is a frame of over 8,192 bytes. 11 is a\n\
        \x20                bad count: the listing ends there\n\n\
        \x20   --where      with 4, how far the line is right: `refuse 4 N` says that some line\n\
        \x20                that can be read begins with the first N bytes, and none with one\n\
        \x20                more; where N is the line's length, the line was cut short\n\
        \x20   --point      the same, and below it the line up to there, a mark under the byte\n\
        \x20                behind, and in words what would have been right there\n\n\
        Exit status: 0 all is listed; 1 reading or writing failed, a count is bad, or the\n\
        stream ends in a frame, and standard error says which; 2 an argument is not known,\n\
        or --crlf and --counted are both given.\n";
    if let Some(status) = frames::starts(process, a, b"list", &usage, &help) {
        return status;
    }
    let telling = Telling {
        place: a.place,
        point: a.point,
    };
    let ok = run(
        process,
        line,
        elements,
        chunk,
        frames::options_of(a),
        telling,
    );
    program::end(process, b"list", ok)
}
