// Shows a deck file as the text that deckmake reads, or prints the file's refusal.
#![tactic(auto)]

mod showing; // showing.rt: the lines

ghost use Rattle.std.specs.Prelude.{◌≤◌, length};
ghost use Rattle.shell.specs.Status.{Status};
ghost use Rattle.printing.specs.Front.{WholeEnds};

use options::Asked;
use printing::INPUT;
use shell::starting;

const PROGRAM: [u8; 8] = *b"deckshow";

const SYNOPSIS: [u8; 15] = *b"[-o OUT] [FILE]";

const OPTIONS: [u8; 12] = *b"-o         =";

const OUT: usize = 0;

// Shows the input of which the buffer holds the front; a refused one leaves OUT as it was.
fn show(rt: &HostRuntime, asked: Asked, input: &[u8; INPUT], filled: usize) -> i32
    requires { filled ≤ length input.now }
    ensures ends { WholeEnds input.now filled result }
    ensures status { Status result }
{
    let mut out = [0u8; showing::OUTPUT];
    let end = showing::show_front(input, filled, &mut out);
    let place = asked.given[OUT];
    printing::finish(rt, &PROGRAM, place, input, filled, &out[..end])
}

// What the program does, by its words: its status.
pub fn run(rt: &HostRuntime) -> i32
    ensures { Status result }
{
    let mut input = [0u8; INPUT];
    let begun = starting::begin(rt, &PROGRAM, &SYNOPSIS, &OPTIONS, 1, &mut input);
    if begun.ended {
        return begun.status;
    }
    let asked = begun.asked;
    show(rt, asked, &input, begun.filled)
}
