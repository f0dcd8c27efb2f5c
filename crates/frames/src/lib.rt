// The frames of standard input, one after the other, for the programs that do something with each: what a frame is says the splitter of `stream`, a line, or
// with `--counted` what a count stands before. A program does with a frame, and with one that is refused, as it likes; what both say of their input and their
// output is said here under the name that they give.
#![tactic(auto)]

ghost use Rattle.std.specs.Prelude.{◌≡◌, ◌+◌, ◌≤◌, ◌<◌, length};
ghost use Rattle.output.specs.Output.{Wrote};
ghost use Rattle.frames.specs.Words.{count_text};
ghost use Rattle.frames.specs.Tasks.{kept_len, refused_task, last_task, last_line, start_state, Turns, to_read, is_read, goes_on};
ghost use Rattle.frames.specs.States.{start_of, stopped_of, done_of, Goes, Refills, Advances, Keeps};

use program::{Asked, Process, Status};
use record::Refusal;
use stream::Event;

// What the program was asked for: whether a line ends at CR LF, and whether frames are counted.
#[derive(Clone, Copy)]
pub struct Options {
    pub crlf: bool,
    pub counted: bool,
}

// What is to be done with what the splitter told, or at the end of the input.
// A refusal stands as its number, by which the definition `refused_task` tells it and the programs write it.
#[derive(Clone, Copy)]
pub enum Task {
    // nothing
    More,
    // that many bytes at the buffer's front are a frame
    Read(usize),
    // a frame is refused with that number
    Refuse(u32),
    // the same, and nothing comes behind it
    End(u32),
    // the input has ended in a frame, of whose content that many bytes came
    Cut(u32),
    // the input could not be read
    Failed,
}

// What a turn answers: where the stream stands, how many bytes were taken, and what is to be done.
#[derive(Clone, Copy)]
struct Outcome {
    stream: stream::State,
    taken: usize,
    task: Task,
}

// Where a program stands: what is to be done; where the stream stands; which bytes of the chunk are still to be taken; how many turns are left, 0 where all is
// done; whether nothing has failed; and what was asked for. A proved loop has to end, and nothing says that the input does: the turns count down from a number
// that no run uses up.
#[derive(Clone, Copy)]
pub struct State {
    pub task: Task,
    pub stream: stream::State,
    pub next: usize,
    pub got: usize,
    pub left: u64,
    pub ok: bool,
    pub crlf: bool,
    pub counted: bool,
}

// ---- what is to be done

// How many bytes of a frame are read.
fn kept_len(crlf: bool, frame: &[u8]) -> usize
    ensures value { result ≡ kept_len crlf frame.now }
    ensures upper_bound { result ≤ length frame.now }
{
    if crlf && frame.ends_with(b"\r") {
        frame.len() - 1
    } else {
        frame.len()
    }
}

// What is to be done where the splitter refuses. A long line has the number of a long line.
fn refused_task(counted: bool, refusal: Refusal) -> Task
    ensures { result ≡ refused_task counted refusal }
{
    match u32::from(refusal) {
        12 if counted => Task::Refuse(12),
        12 => Task::Refuse(1),
        n => Task::End(n),
    }
}

// What is to be done with a last line of `n` bytes that no LF ends.
fn last_line(n: u32, room: usize) -> Task
    ensures { result ≡ last_line n room }
{
    match n as usize {
        0 => Task::More,
        len if len <= record::LINE_LIMIT && len <= room => Task::Read(len),
        _ => Task::Refuse(1),
    }
}

// What is to be done where the input ends, with a line buffer of `room` bytes.
fn last_task(stream: stream::State, room: usize) -> Task
    ensures { result ≡ last_task stream room }
{
    match stream {
        stream::State::Count(0) | stream::State::Ended => Task::More,
        stream::State::Count(_) => Task::Cut(0),
        stream::State::Content(_, n) => Task::Cut(n),
        stream::State::Line(n) => last_line(n, room),
    }
}

// Whether the program goes on.
fn goes_on(task: Task) -> bool
    ensures { result ≡ goes_on task }
{
    matches!(task, Task::More | Task::Read(_) | Task::Refuse(_))
}

// Whether there is a frame to be read.
pub fn is_read(s: State) -> bool
    ensures { result ≡ is_read s.task }
{
    matches!(s.task, Task::Read(_))
}

// How many bytes it has.
pub fn to_read(s: State) -> usize
    ensures { result ≡ to_read s.task }
{
    match s.task {
        Task::Read(n) => n,
        _ => 0,
    }
}

// A turn: the splitter on bytes of the stream, up to the end of a frame or to a refusal.
fn turn(s: State, bytes: &[u8], line: &mut [u8]) -> Outcome
    ensures { Turns s.crlf s.counted s.stream bytes.now line.old result line.new }
{
    let fed = stream::feed(s.stream, bytes, line);
    let task = match fed.event {
        Event::More => Task::More,
        Event::Frame(n) => Task::Read(kept_len(s.crlf, &line[..n])),
        Event::Refused(f) => refused_task(s.counted, f),
    };
    Outcome {
        stream: fed.state,
        taken: fed.taken,
        task,
    }
}

// ---- where the program stands

// The state at the start of a stream.
fn start_state(counted: bool) -> stream::State
    ensures { result ≡ start_state counted }
{
    if counted {
        stream::State::Count(0)
    } else {
        stream::State::Line(0)
    }
}

pub fn start(options: Options) -> State
    ensures { result ≡ start_of options }
{
    State {
        task: Task::More,
        stream: start_state(options.counted),
        next: 0,
        got: 0,
        left: u64::MAX,
        ok: true,
        crlf: options.crlf,
        counted: options.counted,
    }
}

// The last task: all is done, or something has failed.
fn stopped(s: State, task: Task, ok: bool) -> State
    ensures { result ≡ stopped_of s task ok }
{
    State {
        task,
        left: 0,
        ok,
        ..s
    }
}

// What a program makes of its state when it has done its task: where that failed it stops.
pub fn kept(s: State, ok: bool) -> State
    ensures { Keeps s result }
{
    if ok { s } else { stopped(s, Task::More, false) }
}

// With another task. Some end the program.
fn done(s: State, task: Task) -> State
    ensures { result ≡ done_of s task }
{
    if goes_on(task) {
        State { task, ..s }
    } else {
        stopped(s, task, false)
    }
}

// The bytes of the chunk up to the end of a frame or to a refusal.
fn take(line: &mut [u8], chunk: &[u8], s: State) -> State
    requires next_lt_got { s.next < s.got }
    requires got_in_bounds { s.got ≤ length chunk.now }
    ensures goes { Goes s chunk.now line.old result line.new }
    ensures task_in_bounds { to_read result.task ≤ length line.old }
    ensures got_value { result.got ≡ s.got }
    ensures left_le_left { result.left ≤ s.left }
{
    let t = turn(s, &chunk[s.next..s.got], line);
    done(
        State {
            task: Task::More,
            stream: t.stream,
            next: s.next + t.taken,
            ..s
        },
        t.task,
    )
}

// Another chunk, or the end. Where reading fails what has come of a frame is none.
fn refill(process: &mut Process, room: usize, chunk: &mut [u8], s: State) -> State
    requires { s.got ≤ length chunk.old }
    ensures refills { Refills s (length chunk.old) room result }
    ensures task_bound { to_read result.task ≤ room }
    ensures got_in_bounds { result.got ≤ length chunk.old }
    ensures left_le_left { result.left ≤ s.left }
{
    match program::read(process, chunk) {
        None => done(s, Task::Failed),
        Some(0) => done(stopped(s, Task::More, s.ok), last_task(s.stream, room)),
        Some(got) => State {
            task: Task::More,
            next: 0,
            got,
            ..s
        },
    }
}

// One turn: to the end of a frame or of the chunk, or on to another chunk.
pub fn advance(process: &mut Process, line: &mut [u8], chunk: &mut [u8], s: State) -> State
    requires got_in_bounds { s.got ≤ length chunk.old }
    requires left_nonzero { 0 < s.left }
    ensures advances { Advances s chunk.old line.old result line.new }
    ensures task_in_bounds { to_read result.task ≤ length line.old }
    ensures got_in_bounds_2 { result.got ≤ length chunk.old }
    ensures left_lt_left { result.left < s.left }
{
    let t = State {
        task: Task::More,
        left: s.left - 1,
        ..s
    };
    if s.next < s.got {
        take(line, chunk, t)
    } else {
        refill(process, line.len(), chunk, t)
    }
}

// ---- what is said

// A line on standard error with a number in it.
pub fn complain(process: &Process, name: &[u8], before: &[u8], n: u32, after: &[u8]) {
    program::tell(process, name);
    program::tell(process, before);
    program::tell_decimal(process, u64::from(n));
    program::tell(process, after);
}

// Why the input has ended too early. What ended the program at a refusal is its own to say.
pub fn report(process: &Process, name: &[u8], task: Task) {
    match task {
        Task::Cut(n) => complain(
            process,
            name,
            b": standard input ends in a frame, after ",
            n,
            b" bytes of its content\n",
        ),
        Task::Failed => program::tell_unread(process, name),
        _ => {}
    }
}

// A number and the byte after it, in a text that is to be written.
pub fn put_count(out: &mut [u8], at: usize, n: u32, end: u8) -> usize
    requires { at + 11 ≤ length out.old }
    ensures wrote { Wrote out.old at (count_text n end) result out.new }
    ensures upper_bound { result ≤ at + 11 }
    ensures out_len_unchanged { length out.new ≡ length out.old }
{
    let next = output::put_number(out, at, n);
    output::put(out, next, end)
}

// Writes to standard output. Where that fails it is said.
pub fn write(process: &Process, name: &[u8], text: &[u8]) -> bool {
    match program::write(process, text) {
        Ok(()) => true,
        Err(why) => {
            program::fail(process, name, b"standard output", why);
            false
        }
    }
}

// Does what is asked for in place of a run, if anything is. Answers how the program then ends; nothing where it is to run.
pub fn starts(
    process: &mut Process,
    a: Asked,
    name: &[u8],
    usage: &[u8],
    help: &[u8],
) -> Option<Status> {
    if let Some(status) = program::starts(process, a, name, usage, help) {
        return Some(status);
    }
    if a.crlf && a.counted {
        return Some(program::misused(
            process,
            name,
            b"--crlf is for lines and does not go with --counted",
            usage,
        ));
    }
    None
}

pub fn options_of(a: Asked) -> Options {
    Options {
        crlf: a.crlf,
        counted: a.counted,
    }
}
