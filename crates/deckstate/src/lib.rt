// Says of each system of a deck file whether it works where the fans that the words name have failed.
#![tactic(auto)]

mod hearing; // hearing.rt: what the words say
mod telling; // telling.rt: the lines

ghost use Rattle.std.specs.Prelude.{◌≡◌, ◌≤◌, length};
ghost use Rattle.shell.specs.Status.{Status, failed};
ghost use Rattle.printing.specs.Front.{WholeEnds};

use crate::hearing::Said;
use printing::INPUT;
use shell::{starting, words, writing};

const PROGRAM: [u8; 9] = *b"deckstate";

const SYNOPSIS: [u8; 33] = *b"[-f FILE] [FANS | board BOARD]...";

const OPTIONS: [u8; 12] = *b"-f         =";

const FILE: usize = 0;

// Says on standard error which word is wrong, and what was wanted; it stands at this place.
fn tell_wrong(rt: &HostRuntime, said: Said, place: usize) -> i32
    ensures { result ≡ failed }
{
    let mut word = io::buffer();
    let length = words::put_word(rt, place, &mut word);
    let mut line = [0u8; telling::LINE];
    let end = telling::put_wrong(
        said.wrong,
        &word[..length],
        said.wanted,
        said.most,
        &mut line,
    );
    writing::say(rt, &line[..end]);
    shell::FAILED
}

// Judges an input of which the buffer holds the front; nothing is printed where a word is wrong.
fn judge(rt: &HostRuntime, input: &[u8; INPUT], filled: usize) -> i32
    requires { filled ≤ length input.now }
    ensures ends { WholeEnds input.now filled result }
    ensures status { Status result }
{
    let file = printing::front_of(input, filled);
    let opened = deck::open(file);
    let listened = hearing::hear_all(rt, file, opened);
    let said = hearing::settled(file, opened, listened.hearing);
    if said.wrong != 0 {
        return tell_wrong(rt, said, listened.at);
    }
    let mut out = [0u8; telling::OUTPUT];
    let end = telling::state_front(said.state, input, filled, opened, &mut out);
    printing::finish(rt, &PROGRAM, 0, input, filled, &out[..end])
}

// What the program does, by its words: its status.
pub fn run(rt: &HostRuntime) -> i32
    ensures { Status result }
{
    let heard = starting::hear(rt, &PROGRAM, &SYNOPSIS, &OPTIONS, hearing::MOST_WORDS);
    if heard.ended {
        return heard.status;
    }
    let asked = heard.asked;
    let mut input = [0u8; INPUT];
    let begun = starting::read_at(rt, &PROGRAM, asked, asked.given[FILE], &mut input);
    if begun.ended {
        return begun.status;
    }
    judge(rt, &input, begun.filled)
}
