// deckstate as a program.
#![tactic(auto)]

use std::process::ExitCode;

fn main(rt: HostRuntime) -> ExitCode {
    shell::exit_code(further_programs::deckstate_run(&rt))
}
