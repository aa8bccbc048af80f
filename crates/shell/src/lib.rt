// What every program does at its edges: it looks at its words, reads its input and writes its output, or says on
// standard error what failed.
#![tactic(auto)]

ghost use Rattle.std.specs.Prelude.{◌≡◌, pos};
ghost use Rattle.std.specs.Process.{exit_status};
ghost use Rattle.shell.specs.Status.{Status};

use std::process::ExitCode;

pub mod failing; // failing.rt: what is told of what failed
pub mod names; // names.rt: what a message names
pub mod reading; // reading.rt: its input
pub mod sources; // sources.rt: several inputs as one
pub mod starting; // starting.rt: how it starts
pub mod taking; // taking.rt: what reads take of it
pub mod words; // words.rt: its words
pub mod writing; // writing.rt: its output

// The exit status: what was asked for was written; the file was refused, or the text has faults; a word was wrong, or
// something could not be read or written.
pub const DONE: i32 = 0;

pub const REFUSED: i32 = 1;

pub const FAILED: i32 = 2;

// Ends a program's `main` by a status.
pub fn exit_code(status: i32) -> ExitCode
    requires { Status status }
    ensures { pos (exit_status result) ≡ status }
{
    match status {
        DONE => ExitCode::from(0),
        REFUSED => ExitCode::from(1),
        _ => ExitCode::from(2),
    }
}
