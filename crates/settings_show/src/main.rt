// Shows a site's settings file as text.
#![tactic(auto)]

use program::Process;
use std::process::ExitCode;

fn main(rt: HostRuntime) -> ExitCode {
    let mut process = Process::new(rt);
    let mut file = [0u8; 65568];
    let status = settings_words::show(&mut process, &mut file);
    program::exit_code(status)
}
