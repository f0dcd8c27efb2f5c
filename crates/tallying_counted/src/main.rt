// The tally again, run with `--counted` on the stream of `listing_counted`, which a bad count ends.
// The stored input of each tallying program is its own, and so is its `main`: what they share is `tallier::tally_input`.
#![tactic(auto)]

use program::Process;
use std::process::ExitCode;

fn main(rt: HostRuntime) -> ExitCode {
    let mut process = Process::new(rt);
    let mut line = [0u8; record::LINE_LIMIT];
    let mut chunk = [0u8; 65536];
    let mut tally = [[0u32; 9]; 25];
    let status = tallier::tally_input(&mut process, &mut line, &mut chunk, &mut tally);
    program::exit_code(status)
}
