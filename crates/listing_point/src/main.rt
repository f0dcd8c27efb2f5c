// The listing again, run with `--point` on lines that break in each of their parts.
// The stored input of each listing program is its own, and so is its `main`: what they share is `lister::list`.
#![tactic(auto)]

use program::Process;
use std::process::ExitCode;

fn main(rt: HostRuntime) -> ExitCode {
    let mut process = Process::new(rt);
    let mut line = [0u8; record::LINE_LIMIT];
    let mut elements = [[0usize; 2]; 64];
    let mut chunk = [0u8; 65536];
    let status = lister::list(&mut process, &mut line, &mut elements, &mut chunk);
    program::exit_code(status)
}
