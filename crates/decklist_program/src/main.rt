// decklist as a program of rt's, which runs it on document 01's example.
#![tactic(auto)]

use std::process::ExitCode;

fn main(rt: HostRuntime) -> ExitCode {
    shell::exit_code(first_programs::decklist_run(&rt))
}
