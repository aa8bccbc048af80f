// Prints the systems of a deck file, a line each, or the file's refusal.
#![tactic(auto)]

mod lines; // lines.rt: the lines

ghost use Rattle.std.specs.Prelude.{◌≤◌, length};
ghost use Rattle.shell.specs.Status.{Status};
ghost use Rattle.printing.specs.Front.{WholeEnds};

use options::Asked;
use printing::INPUT;
use shell::starting;

const PROGRAM: [u8; 8] = *b"decklist";

const SYNOPSIS: [u8; 28] = *b"[--percent] [--words] [FILE]";

const OPTIONS: [u8; 24] = *b"--percent   --words     ";

const PERCENT: usize = 0;

const WORDS: usize = 1;

// Lists the input of which the buffer holds the front.
fn list(rt: &HostRuntime, asked: Asked, input: &[u8; INPUT], filled: usize) -> i32
    requires { filled ≤ length input.now }
    ensures ends { WholeEnds input.now filled result }
    ensures status { Status result }
{
    let percent = asked.given[PERCENT] != 0;
    let words = asked.given[WORDS] != 0;
    let mut out = [0u8; lines::OUTPUT];
    let end = lines::list_front(percent, words, input, filled, &mut out);
    printing::finish(rt, &PROGRAM, 0, input, filled, &out[..end])
}

// What the program does, by its words: its status.
pub fn run(rt: &HostRuntime) -> i32
    ensures { Status result }
{
    let mut input = [0u8; INPUT];
    let begun = starting::begin(rt, &PROGRAM, &SYNOPSIS, &OPTIONS, 1, &mut input);
    if begun.ended {
        return begun.status;
    }
    let asked = begun.asked;
    list(rt, asked, &input, begun.filled)
}
