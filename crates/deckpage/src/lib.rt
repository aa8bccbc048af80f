// Draws a deck file as one page of HTML that needs nothing else.
#![tactic(auto)]

ghost use Rattle.std.specs.Prelude.{◌≤◌, length, ◌≡◌};
ghost use Rattle.deck.specs.Outcome.{Headed};
ghost use Rattle.forms.specs.Within.{Within};
ghost use Rattle.shell.specs.Status.{Status, refused};
ghost use Rattle.printing.specs.Front.{WholeEnds};

use deck::Head;
use options::Asked;
use printing::INPUT;
use shell::{starting, writing};

const PROGRAM: [u8; 8] = *b"deckpage";

const SYNOPSIS: [u8; 15] = *b"[-o OUT] [FILE]";

const OPTIONS: [u8; 12] = *b"-o         =";

// Room for the page: twice what the largest deck takes.
const PAGE: usize = 262144;

// Room for a refused file's line.
const LINE: usize = 64;

const OUT: usize = 0;

// Puts the systems one after another, and answers where they end.
fn put_cards(file: &[u8], head: Head, out: &mut [u8], at: usize) -> usize
    requires { Headed file.now head × Within at out.old }
    ensures { Within result out.new }
{
    let mut end = at;
    for s in 0..head.systems {
        end += card::put_card(file, head, s, &mut out[end..]);
    }
    end
}

// Puts the page of a file that is not refused, and answers where it ends.
fn put_page(file: &[u8], head: Head, out: &mut [u8]) -> usize
    requires { Headed file.now head }
    ensures { Within result out.new }
{
    let n = head.fans as u64;
    let g = head.boards as u64;
    let top = page::put_head(head.version, n, g, head.systems as u64, out);
    let end = put_cards(file, head, out, top);
    page::put_end(out, end)
}

// Puts the page of a file, or that of a refused one, and answers where it ends.
fn put_file(file: &[u8], out: &mut [u8]) -> usize
    ensures { Within result out.new }
{
    match deck::open(file) {
        Ok(head) => put_page(file, head, out),
        Err(refused) => page::put_refused(refused.number(), file, out),
    }
}

// Says in a line that a file is refused.
fn tell_refused(rt: &HostRuntime, file: &[u8]) -> i32
    ensures { result ≡ refused }
{
    if let Err(refused) = deck::open(file) {
        let mut line = [0u8; LINE];
        let end = printing::put_refused_file(refused.number(), &mut line);
        writing::say(rt, &line[..end]);
    }
    shell::REFUSED
}

// Draws the input of which the buffer holds the front; a refused one leaves OUT as it was.
fn draw(rt: &HostRuntime, asked: Asked, input: &[u8; INPUT], filled: usize) -> i32
    requires { filled ≤ length input.now }
    ensures ends { WholeEnds input.now filled result }
    ensures status { Status result }
{
    let place = asked.given[OUT];
    if place != 0 {
        if printing::refused(input, filled) {
            return tell_refused(rt, printing::front_of(input, filled));
        }
    }
    let mut out = [0u8; PAGE];
    let end = put_file(printing::front_of(input, filled), &mut out);
    printing::finish(rt, &PROGRAM, place, input, filled, &out[..end])
}

// What the program does, by its words: its status.
pub fn run(rt: &HostRuntime) -> i32
    ensures { Status result }
{
    let mut input = [0u8; INPUT];
    let begun = starting::begin(rt, &PROGRAM, &SYNOPSIS, &OPTIONS, 1, &mut input);
    if begun.ended {
        return begun.status;
    }
    let asked = begun.asked;
    draw(rt, asked, &input, begun.filled)
}
