// Replays a list of the Rust's answers: each line of standard input is a call and what it must answer. Writes what was compared, and each case that differs.
#![tactic(auto)]

ghost use Rattle.std.specs.Prelude.{◌≤◌, length};

use case_text::case::{looking_case, printing_case, reading_case};
use case_text::fields::Differs;
use case_text::words::say_number;
use program::{Process, Status, Takes};
use std::process::ExitCode;

// How many cases there were, how many of them of each service, and how many differed.
#[derive(Clone, Copy, Default)]
struct Tally {
    cases: u64,
    read: u64,
    printed: u64,
    looked: u64,
    differ: u64,
}

fn count(n: &mut u64) {
    *n = n.saturating_add(1);
}

fn replay_case(process: &mut Process, t: &mut Tally, text: &[u8]) {
    count(&mut t.cases);
    let met = match text.first() {
        Some(b'R') => {
            count(&mut t.read);
            reading_case(text)
        }
        Some(b'P') => {
            count(&mut t.printed);
            printing_case(text)
        }
        Some(b'L') => {
            count(&mut t.looked);
            looking_case(text)
        }
        _ => Err(Differs),
    };
    if met.is_err() {
        count(&mut t.differ);
        say_number(process, b"differs: case ", t.cases, b"\n");
    }
}

// Replays the lines that end within the text, and answers how much of it they are.
fn replay_lines(process: &mut Process, t: &mut Tally, text: &[u8]) -> usize
    ensures { result ≤ length text.now }
{
    let mut rest = text;
    while let Some(len) = rest.iter().position(|b| *b == b'\n') {
        replay_case(process, t, &rest[..len]);
        rest = &rest[len + 1..];
    }
    text.len() - rest.len()
}

// Replays the list. A line that is longer than the buffer is cut there, and is the last.
fn replay(process: &mut Process, buffer: &mut [u8]) -> Tally {
    let mut t = Tally::default();
    let mut used = 0;
    // A proved loop has to end, and nothing says that the input does.
    for _ in 0..u64::MAX {
        let n = program::read_full(process, &mut buffer[used..]);
        let end = used + n;
        let done = replay_lines(process, &mut t, &buffer[..end]);
        buffer[..end].rotate_left(done);
        used = end - done;
        if n == 0 {
            break;
        }
    }
    if used > 0 {
        replay_case(process, &mut t, &buffer[..used]);
    }
    t
}

fn run(process: &mut Process) -> Status {
    let a = program::arguments(
        process,
        Takes {
            forms: false,
            places: false,
        },
    );
    let help =
        *b"\nCalls what each line of standard input says, and compares the answers with the line's.\n";
    let usage = *b"usage: replay < FILE\n";
    if let Some(status) = program::starts(process, a, b"replay", &usage, &help) {
        return status;
    }
    let mut buffer = [0u8; 65536];
    let t = replay(process, &mut buffer);
    let whole = program::is_at_end(process, b"replay");
    say_number(process, b"replay: ", t.read, b" readings, ");
    say_number(process, b"", t.printed, b" printed, ");
    say_number(process, b"", t.looked, b" looked up; ");
    say_number(process, b"", t.differ, b" differ\n");
    program::end(process, b"replay", whole && t.differ == 0)
}

fn main(rt: HostRuntime) -> ExitCode {
    program::exit_code(run(&mut Process::new(rt)))
}
