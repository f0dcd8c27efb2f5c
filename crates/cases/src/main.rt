// Runs the cases of standard input and writes each answer in words. A case is a line: `R` for a loose reading with variant, year and
// offset, `S` for a strict one; then, after one space, the line that is read.
#![tactic(auto)]

use case_text::fields::Fields;
use case_text::words::say;
use program::{Process, Status, Takes};
use std::process::ExitCode;

fn show_case(process: &mut Process, text: &[u8]) {
    say(process, text);
    say(process, b"\n");
    match text {
        [b'R', _, ..] => {
            let mut fields = Fields::of(text);
            let s = fields.settings();
            case_words::show_reading(process, fields.rest, s);
        }
        [_, _, line @ ..] => case_words::show_strict(process, line),
        _ => {}
    }
}

fn run(process: &mut Process) -> Status {
    let a = program::arguments(
        process,
        Takes {
            forms: false,
            places: false,
        },
    );
    let help = *b"\nWrites the answer to each case of standard input in words. A case is a line:\n\
        \x20   R VARIANT YEAR OFFSET LINE    a loose reading\n\
        \x20   S LINE                        a strict one\n";
    let usage = *b"usage: cases < FILE\n";
    if let Some(status) = program::starts(process, a, b"cases", &usage, &help) {
        return status;
    }
    let mut list = [0u8; 65536];
    let n = program::read_full(process, &mut list);
    for line in list[..n].split_inclusive(|b| *b == b'\n') {
        show_case(process, line.strip_suffix(b"\n").unwrap_or(line));
    }
    let whole = program::is_at_end(process, b"cases");
    program::end(process, b"cases", whole)
}

fn main(rt: HostRuntime) -> ExitCode {
    program::exit_code(run(&mut Process::new(rt)))
}
