// deckmake as a program.
#![tactic(auto)]

use std::process::ExitCode;

fn main(rt: HostRuntime) -> ExitCode {
    shell::exit_code(first_programs::deckmake_run(&rt))
}
