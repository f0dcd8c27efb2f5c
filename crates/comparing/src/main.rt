// Compares the lines of standard input, two by two.
#![tactic(auto)]

use program::Process;
use std::process::ExitCode;

fn main(rt: HostRuntime) -> ExitCode {
    let mut process = Process::new(rt);
    let mut line1 = [0u8; 8193];
    let mut line2 = [0u8; 8193];
    let mut chunk = [0u8; 65536];
    let mut elements1 = [[0usize; 2]; 2730];
    let mut elements2 = [[0usize; 2]; 2730];
    let status = comparer::compare_input(
        &mut process,
        &mut line1,
        &mut line2,
        &mut chunk,
        &mut elements1,
        &mut elements2,
    );
    program::exit_code(status)
}
