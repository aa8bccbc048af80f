// Mends a deck file: the mended file goes to standard output or to the file that `-o` names, the list of what was
// changed to standard error.
#![tactic(auto)]

mod mending; // mending.rt: both of them, put into buffers

ghost use Rattle.std.specs.Prelude.{◌≤◌, ◌<◌, ◌^◌, length};
ghost use Rattle.shell.specs.Status.{Status};
ghost use Rattle.deckmend.specs.Whole.{MendedEnds};

use options::Asked;
use printing::INPUT;
use shell::{reading, starting};

const PROGRAM: [u8; 8] = *b"deckmend";

const SYNOPSIS: [u8; 15] = *b"[-o OUT] [FILE]";

const OPTIONS: [u8; 12] = *b"-o         =";

const OUT: usize = 0;

// Mends the input of which the buffer holds the front, and so many bytes follow; nothing is written of one that is
// refused, and nothing is told of one that cannot be written.
fn mend(rt: &HostRuntime, asked: Asked, input: &[u8; INPUT], filled: usize, rest: u64) -> i32
    requires { (filled ≤ length input.now) × (rest < 2 ^ 63) }
    ensures ends { MendedEnds input.now filled rest result }
    ensures status { Status result }
{
    let mut file = [0u8; mending::FILE];
    let mut lines = [0u8; mending::LINES];
    let told = mending::mend_front(input, filled, rest, &mut file, &mut lines);
    let size = told.size;
    let end = told.end;
    let place = asked.given[OUT];
    starting::hand_over(rt, &PROGRAM, place, &file[..size], &lines[..end])
}

// What the program does, by its words: its status.
pub fn run(rt: &HostRuntime) -> i32
    ensures { Status result }
{
    let heard = starting::hear(rt, &PROGRAM, &SYNOPSIS, &OPTIONS, 1);
    if heard.ended {
        return heard.status;
    }
    let asked = heard.asked;
    let mut input = [0u8; INPUT];
    let whole = reading::read_whole(rt, &PROGRAM, asked.first, &mut input);
    if reading::has_failed(whole) {
        return shell::FAILED;
    }
    mend(
        rt,
        asked,
        &input,
        reading::filled(whole),
        reading::rest(whole),
    )
}
