// Prints what a spare gains in each fan's place of each system of a deck file, or the best places, or the best two for
// two spares, a line each; or the file's refusal.
#![tactic(auto)]

mod lines; // lines.rt: the lines

ghost use Rattle.std.specs.Prelude.{◌≡◌, ◌≤◌, length};
ghost use Rattle.io.specs.Counts.{IsPrefixLen};
ghost use Rattle.shell.specs.Status.{Status, failed};
ghost use Rattle.grammar.specs.Numbers.{off_grid};
ghost use Rattle.printing.specs.Front.{WholeEnds};

use lines::Wanted;
use options::Asked;
use printing::INPUT;
use shell::{starting, words, writing};

const PROGRAM: [u8; 9] = *b"deckspare";

const SYNOPSIS: [u8; 32] = *b"[--best K | --spares 2] P [FILE]";

const OPTIONS: [u8; 24] = *b"--best     =--spares   =";

// What is no survival number; and a decimal between two parts is named as this and the lower of them.
const NONE: u64 = 4294967296;

const OFF_GRID: u64 = 4294967297;

// Its options: how many of the best places are named, and how many spares there are.
const BEST: usize = 0;

const SPARES: usize = 1;

// What is wrong with their words: no number of places, no number of spares, or both asked for at once.
const NO_PLACES: u64 = 1;

const NO_SPARES: u64 = 2;

const BOTH: u64 = 3;

// Room for two numbers in a message.
const NUMBERS: usize = 96;

// Puts the two parts that a decimal stands between.
fn put_nearest(p: u64, out: &mut [u8; NUMBERS]) -> usize
    requires { off_grid ≤ p }
    ensures { IsPrefixLen result out.new }
{
    let line: &mut [u8] = out;
    let below = text::put_number(line, 0, p - OFF_GRID);
    let middle = text::put(line, below, b" or ");
    let above = text::put_number(line, middle, p - NONE);
    text::put(line, above, b" parts\n")
}

// Says that its first word is no survival number, and what is one.
fn tell_number(rt: &HostRuntime, p: u64) -> i32
    ensures { result ≡ failed }
{
    writing::say(rt, b"deckspare: the spare's survival number: wanted ");
    if p < OFF_GRID {
        writing::say(
            rt,
            b"parts up to 4294967295, or a decimal from 0 to 1 of at most nine digits\n",
        );
        return shell::FAILED;
    }
    let mut numbers = [0u8; NUMBERS];
    let end = put_nearest(p, &mut numbers);
    writing::say(rt, b"a decimal on the grid of 2^30, as ");
    writing::say(rt, &numbers[..end]);
    shell::FAILED
}

// The number of the word at a place, from 1 on; 0 where it is none, and where there is no place.
fn number_at(rt: &HostRuntime, place: usize) -> u64 {
    if place == 0 {
        return 0;
    }
    let mut word = io::buffer();
    let length = words::put_word(rt, place, &mut word);
    let number = grammar::numbers::whole(&word[..length]);
    if number == NONE { 0 } else { number }
}

// What is wrong with the words of its options, whose numbers are 0 where they are none; 0 for nothing.
fn wrong_options(asked: Asked, best: u64, spares: u64) -> u64 {
    let best_given = asked.given[BEST] != 0;
    if best_given {
        if best == 0 {
            return NO_PLACES;
        }
    }
    if asked.given[SPARES] == 0 {
        return 0;
    }
    match spares {
        1 => 0,
        2 => if best_given { BOTH } else { 0 },
        _ => NO_SPARES,
    }
}

// Says so.
fn tell_options(rt: &HostRuntime, wrong: u64) {
    match wrong {
        NO_PLACES => writing::say(
            rt,
            b"deckspare: --best: wanted a number from 1 to 4294967295\n",
        ),
        NO_SPARES => writing::say(rt, b"deckspare: --spares: wanted 1 or 2\n"),
        _ => writing::say(
            rt,
            b"deckspare: --best and --spares 2: wanted one of them\n",
        ),
    }
}

// Says which word is missing or wrong, before a file is read; answers whether one is.
fn tell_wrong(rt: &HostRuntime, asked: Asked, best: u64, spares: u64) -> bool {
    if asked.operands == 0 {
        writing::say(
            rt,
            b"deckspare: the spare's survival number is missing; deckspare --help says what it takes\n",
        );
        return true;
    }
    let wrong = wrong_options(asked, best, spares);
    if wrong == 0 {
        return false;
    }
    tell_options(rt, wrong);
    true
}

// Lists an input of which the buffer holds the front, for the spare that a word names; nothing is printed where the
// word is no survival number.
fn list_for(
    rt: &HostRuntime,
    word: &[u8],
    wanted: Wanted,
    input: &[u8; INPUT],
    filled: usize,
) -> i32
    requires { filled ≤ length input.now }
    ensures ends { WholeEnds input.now filled result }
    ensures status { Status result }
{
    if let Ok(head) = deck::open(printing::front_of(input, filled)) {
        let p = grammar::numbers::parts(head.version, word);
        if p >= NONE {
            return tell_number(rt, p);
        }
    }
    let mut out = [0u8; lines::OUTPUT];
    let end = lines::list_front(rt, word, wanted, input, filled, &mut out);
    printing::finish(rt, &PROGRAM, 0, input, filled, &out[..end])
}

// The same for the word at a place.
fn list(rt: &HostRuntime, first: usize, wanted: Wanted, input: &[u8; INPUT], filled: usize) -> i32
    requires { filled ≤ length input.now }
    ensures ends { WholeEnds input.now filled result }
    ensures status { Status result }
{
    let mut word = io::buffer();
    let length = words::put_word(rt, first, &mut word);
    list_for(rt, &word[..length], wanted, input, filled)
}

// The place of the second operand, the file's name; 0 where there is none.
fn file_place(rt: &HostRuntime, asked: Asked) -> usize {
    if asked.operands < 2 {
        return 0;
    }
    let until = starting::hear_all(rt, &OPTIONS, 1);
    until.at
}

// What the program does, by its words: its status.
pub fn run(rt: &HostRuntime) -> i32
    ensures { Status result }
{
    let heard = starting::hear(rt, &PROGRAM, &SYNOPSIS, &OPTIONS, 2);
    if heard.ended {
        return heard.status;
    }
    let asked = heard.asked;
    let best = number_at(rt, asked.given[BEST]);
    let spares = number_at(rt, asked.given[SPARES]);
    if tell_wrong(rt, asked, best, spares) {
        return shell::FAILED;
    }
    let mut input = [0u8; INPUT];
    let begun = starting::read_at(rt, &PROGRAM, asked, file_place(rt, asked), &mut input);
    if begun.ended {
        return begun.status;
    }
    let wanted = Wanted {
        best,
        two: spares == 2,
    };
    list(rt, asked.first, wanted, &input, begun.filled)
}
