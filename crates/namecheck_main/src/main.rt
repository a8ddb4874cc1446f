// The program `namecheck`: all that it does is `namecheck::namecheck_run`, whose answer is its exit status. `rt ci` runs it where there
// is no file at all.
#![tactic(auto)]

use std::process::ExitCode;

fn main(rt: HostRuntime) -> ExitCode {
    let status = namecheck::namecheck_run(&rt);
    ExitCode::from((status & 0xff) as u8)
}
