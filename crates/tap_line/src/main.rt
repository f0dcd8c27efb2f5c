// Reads one line of a gate's reader by the loose rules, at year 2023 and +60, and writes its instant and the line as it is printed.
#![tactic(auto)]

use program::{Process, Status, Takes};
use record::Reading;
use std::process::ExitCode;

// Whether the line was read, and all was written.
fn show(process: &mut Process) -> bool {
    let line = *b"<13>Feb  5 10:01:02 gate7 reader[42]: tap ok";
    let mut elements = [[0usize; 2]; 4];
    let mut params = [record::blank(); 4];
    let mut out = [0u8; 128];
    let Ok(Reading::Read(r, e, p)) = loose::read(&line, 0, 2023, 60, &mut elements, &mut params)
    else {
        return false;
    };
    let timed = match r.timestamp {
        Some(t) => program::say_decimal(process, t.seconds.unsigned_abs())
            && program::say(process, b"\n"),
        None => false,
    };
    let Ok(n) = message::print(&line, r, e, p, &elements, &params, &mut out) else {
        return false;
    };
    timed && program::say(process, &out[..n]) && program::say(process, b"\n")
}

fn run(process: &mut Process) -> Status {
    let a = program::arguments(
        process,
        Takes {
            forms: false,
            places: false,
        },
    );
    let help =
        *b"\nReads one line of a gate that it holds, and writes its instant and the line as it is printed.\n";
    let usage = *b"usage: tap_line\n";
    if let Some(status) = program::starts(process, a, b"tap_line", &usage, &help) {
        return status;
    }
    let ok = show(process);
    if !ok {
        program::complain(process, b"tap_line", b"the line was not read and written");
    }
    program::end(process, b"tap_line", ok)
}

fn main(rt: HostRuntime) -> ExitCode {
    program::exit_code(run(&mut Process::new(rt)))
}
