// What every program shares: what its arguments ask for, its standard streams, and the status that it ends with.
#![tactic(auto)]

mod reason;

ghost use Rattle.std.specs.Prelude.{◌≡◌, ◌≤◌, length, not, false, IfOk, IfSome};
ghost use Rattle.std.specs.Process.{exit_status};
ghost use Rattle.program.specs.Arguments.{word_of, with_word};
ghost use Rattle.program.specs.Ends.{status_number, ended};
ghost use Rattle.program.specs.declared.Status.TheVariants.{Misused};

use std::env::{Env, FillError};
use std::io;
use std::io::Read;
use std::process::ExitCode;

// The process that a program runs in, with its arguments and its standard streams: why standard input could not be read, if it could not, whether some of what
// was written to standard output is lost, and whether that is so because its reader has gone away: then nothing more is told, as that is no failure.
// These are two flags, since the clauses of `say` and of `end` name `lost`.
#[derive(Clone, Copy)]
pub struct Process {
    rt: HostRuntime,
    unread: Option<io::Error>,
    lost: bool,
    gone: bool,
}

// How a program ends: all is done; reading or writing failed, a stream was cut or an answer differed; its arguments are not known or do not go together.
#[derive(Clone, Copy)]
pub enum Status {
    Done,
    Failed,
    Misused,
}

// What an argument is.
#[derive(Clone, Copy)]
pub enum Word {
    Launched,
    Help,
    Version,
    Crlf,
    Counted,
    Where,
    Point,
    Unknown,
}

// What is to be done: the program's work, or in its place what one argument asks for. `Unknown` has the argument's number.
#[derive(Clone, Copy, PartialEq, Eq)]
pub enum Wish {
    Run,
    Help,
    Version,
    Unknown(usize),
}

// What the arguments ask for together: whether a launcher has said that it waits for the status, with which the program ends in any case; whether lines end at
// CR LF, whether frames are counted, and whether it is told how far a line that has no reading is right, and pointed there.
#[derive(Clone, Copy)]
pub struct Asked {
    pub wish: Wish,
    pub launched: bool,
    pub crlf: bool,
    pub counted: bool,
    pub place: bool,
    pub point: bool,
}

// Which options a program takes: `--crlf` and `--counted`, and `--where` and `--point`.
#[derive(Clone, Copy)]
pub struct Takes {
    pub forms: bool,
    pub places: bool,
}

pub fn word_of(text: &[u8]) -> Word
    ensures { result ≡ word_of text.now }
{
    if base::same_text(text, b"--status-on-3") {
        Word::Launched
    } else if base::same_text(text, b"--help") {
        Word::Help
    } else if base::same_text(text, b"--version") {
        Word::Version
    } else if base::same_text(text, b"--crlf") {
        Word::Crlf
    } else if base::same_text(text, b"--counted") {
        Word::Counted
    } else if base::same_text(text, b"--where") {
        Word::Where
    } else if base::same_text(text, b"--point") {
        Word::Point
    } else {
        Word::Unknown
    }
}

// What is asked for with one argument more, the `i`th: an option that the program does not take is not known to it. To point at a place tells it too.
pub fn with_word(takes: Takes, a: Asked, w: Word, i: usize) -> Asked
    ensures { result ≡ with_word takes a w i }
{
    let run = Asked {
        wish: Wish::Run,
        ..a
    };
    match w {
        Word::Launched => Asked {
            launched: true,
            ..run
        },
        Word::Help => Asked {
            wish: Wish::Help,
            ..a
        },
        Word::Version => Asked {
            wish: Wish::Version,
            ..a
        },
        Word::Crlf if takes.forms => Asked { crlf: true, ..run },
        Word::Counted if takes.forms => Asked {
            counted: true,
            ..run
        },
        Word::Where if takes.places => Asked { place: true, ..run },
        Word::Point if takes.places => Asked {
            place: true,
            point: true,
            ..run
        },
        _ => Asked {
            wish: Wish::Unknown(i),
            ..a
        },
    }
}

// The `i`th argument, if there is one. No word that is known is longer than the buffer.
fn word_at(process: &Process, i: usize) -> Option<Word> {
    let mut text = [0u8; 64];
    match argument(process, i, &mut text) {
        Ok(n) => Some(word_of(&text[..n])),
        Err(FillError::TooLong) => Some(Word::Unknown),
        Err(FillError::NotPresent) => None,
    }
}

// What the arguments ask for, up to the first that asks for something else than a run.
pub fn arguments(process: &Process, takes: Takes) -> Asked {
    let mut a = Asked {
        wish: Wish::Run,
        launched: false,
        crlf: false,
        counted: false,
        place: false,
        point: false,
    };
    for i in 1..usize::MAX {
        let Some(w) = word_at(process, i) else {
            return a;
        };
        a = with_word(takes, a, w, i);
        if a.wish != Wish::Run {
            return a;
        }
    }
    a
}

// ---- the process

impl Process {
    // With nothing written yet.
    pub fn new(rt: HostRuntime) -> Process
        ensures { result.lost ≡ false }
    {
        Process {
            rt,
            unread: None,
            lost: false,
            gone: false,
        }
    }
}

// Puts the `i`th argument at the front of a buffer, and answers its length.
pub fn argument(process: &Process, i: usize, text: &mut [u8]) -> Result<usize, FillError>
    ensures { IfOk result (λ n. n ≤ length text.new) }
{
    process.rt.arg(i, text)
}

// How many arguments there are, the program's name among them.
pub fn argument_count(process: &Process) -> usize {
    let mut text = [0u8; 1];
    for i in 0..usize::MAX {
        if let Err(FillError::NotPresent) = argument(process, i, &mut text) {
            return i;
        }
    }
    usize::MAX
}

// Reads some bytes of standard input to the front of a buffer, and answers how many: 0 where it has ended, none where it cannot be read, which `tell_unread`
// says.
pub fn read(process: &mut Process, chunk: &mut [u8]) -> Option<usize>
    ensures in_bounds { IfSome result (λ n. n ≤ length chunk.new) }
    ensures lost_unchanged { process.new.lost ≡ process.old.lost }
{
    match process.rt.stdin().read(chunk) {
        Ok(n) => Some(n),
        Err(why) => {
            process.unread = Some(why);
            None
        }
    }
}

// Reads until the buffer is full, the input ends or a read fails, and answers how many bytes it put at the front.
pub fn read_full(process: &mut Process, buffer: &mut [u8]) -> usize
    ensures in_bounds { result ≤ length buffer.new }
    ensures lost_unchanged { process.new.lost ≡ process.old.lost }
{
    let mut done = 0;
    while done < buffer.len() {
        let n = read(process, &mut buffer[done..]).unwrap_or(0);
        if n == 0 {
            return done;
        }
        done += n;
    }
    done
}

// Writes a text to standard output, all of it or as far as it goes.
pub fn write(process: &Process, text: &[u8]) -> io::Result<()> {
    process.rt.write_all(text)
}

// Writes a text to standard output. Where that fails nothing is written behind what is lost, and `end` sees it.
pub fn say(process: &mut Process, text: &[u8]) -> bool
    ensures { process.new.lost ≡ not result }
{
    say_by(process, |rt| rt.write_all(text))
}

// Writes a number, likewise.
pub fn say_decimal(process: &mut Process, n: u64) -> bool
    ensures { process.new.lost ≡ not result }
{
    say_by(process, |rt| rt.print(n))
}

// Writes, where nothing is lost yet, and notes how that went.
fn say_by<W: FnOnce(HostRuntime) -> io::Result<()>>(process: &mut Process, write: W) -> bool
    requires { W.IsAlwaysCallable write }
    ensures { process.new.lost ≡ not result }
{
    if process.lost {
        return false;
    }
    if let Err(why) = write(process.rt) {
        process.lost = true;
        process.gone = why.kind() == io::ErrorKind::BrokenPipe;
    }
    !process.lost
}

// Writes a text to standard error. Where that fails there is no one to tell.
pub fn tell(process: &Process, text: &[u8]) {
    if !process.gone {
        let _ = process.rt.stderr().write_all(text);
    }
}

// Writes a number, likewise.
pub fn tell_decimal(process: &Process, n: u64) {
    if !process.gone {
        let _ = process.rt.stderr().print(n);
    }
}

// A line on standard error: the program's name and what is wrong.
pub fn complain(process: &Process, name: &[u8], what: &[u8]) {
    tell(process, name);
    tell(process, b": ");
    tell(process, what);
    tell(process, b"\n");
}

// A line on standard error: the program's name, what failed, and why. That the reader has gone away is no failure to tell of.
pub fn fail(process: &Process, name: &[u8], what: &[u8], why: io::Error) {
    if why.kind() == io::ErrorKind::BrokenPipe {
        return;
    }
    tell(process, name);
    tell(process, b": ");
    tell(process, what);
    tell(process, b": ");
    let mut text = [0u8; 256];
    tell(process, reason::reason(why, &mut text).as_bytes());
    tell(process, b"\n");
}

// The line that says why standard input could not be read.
pub fn tell_unread(process: &Process, name: &[u8]) {
    if let Some(why) = process.unread {
        fail(process, name, b"standard input", why);
    }
}

// Whether standard input has ended. What ended the reading before this may have been a failure, or a buffer that is full: that is said.
pub fn is_at_end(process: &mut Process, name: &[u8]) -> bool
    ensures { process.new.lost ≡ process.old.lost }
{
    let mut one = [0u8; 1];
    match read(process, &mut one) {
        Some(0) => true,
        Some(_) => {
            complain(
                process,
                name,
                b"standard input has a line, or is a list, of over 65,536 bytes",
            );
            false
        }
        None => {
            tell_unread(process, name);
            false
        }
    }
}

// ---- the end

// What `main` answers.
pub fn exit_code(status: Status) -> ExitCode
    ensures { exit_status result ≡ status_number status }
{
    ExitCode::from(match status {
        Status::Done => 0,
        Status::Failed => 1,
        Status::Misused => 2,
    })
}

// The last act of a program: something is said where standard output is lost and nothing else has failed.
pub fn end(process: &Process, name: &[u8], ok: bool) -> Status
    ensures { result ≡ ended ok process.now.lost }
{
    if !ok {
        Status::Failed
    } else if process.lost {
        complain(process, name, b"standard output could not be written");
        Status::Failed
    } else {
        Status::Done
    }
}

// The line on standard error about an argument that is not known, and the usage. One that is longer than the buffer is not shown.
fn refuse(process: &Process, name: &[u8], usage: &[u8], i: usize) -> Status
    ensures { result ≡ Misused }
{
    let mut text = [0u8; 4096];
    let n = argument(process, i, &mut text).unwrap_or(0);
    tell(process, name);
    tell(process, b": unknown argument '");
    tell(process, &text[..n]);
    tell(process, b"'\n");
    tell(process, usage);
    Status::Misused
}

// The line on standard error about arguments that are known and do not go together, and the usage.
pub fn misused(process: &Process, name: &[u8], what: &[u8], usage: &[u8]) -> Status
    ensures { result ≡ Misused }
{
    complain(process, name, what);
    tell(process, usage);
    Status::Misused
}

// Does what is asked for in place of a run, if anything is. Answers how the program then ends; nothing where it is to run.
pub fn starts(
    process: &mut Process,
    a: Asked,
    name: &[u8],
    usage: &[u8],
    help: &[u8],
) -> Option<Status> {
    match a.wish {
        Wish::Run => None,
        Wish::Help => {
            say(process, usage);
            say(process, help);
            Some(end(process, name, true))
        }
        Wish::Version => {
            say(process, name);
            say(process, b" (Khamdoriem) 0.2.0\n");
            Some(end(process, name, true))
        }
        Wish::Unknown(i) => Some(refuse(process, name, usage, i)),
    }
}
