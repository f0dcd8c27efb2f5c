// Writes a record of a site's settings file from words.
#![tactic(auto)]

use program::Process;
use std::process::ExitCode;

fn main(rt: HostRuntime) -> ExitCode {
    let mut process = Process::new(rt);
    let status = settings_words::write(&mut process);
    program::exit_code(status)
}
