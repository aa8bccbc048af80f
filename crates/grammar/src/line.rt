// One line: from place to place by its words, up to its end or to the first word that the place does not take.
ghost use Rattle.std.specs.Prelude.{◌≡◌, ◌<◌, ◌≤◌, set};
ghost use Rattle.grammar.specs.Grammar.{sets, grammar};
ghost use Rattle.grammar.specs.Line.{place_after, set_after, start_of, goes_on, read_line};
ghost use Rattle.grammar.specs.Reads.{Reads};

use crate::{entries, table, words};

// How many numbers a line sets.
pub const SETS: usize = 11;

// A fault's number is this and the place at which no row took the word, unless it has a place of its own.
const TAKEN: u64 = 64;

// The last place from which a line goes on.
const MOST_PLACE: u64 = 63;

// Where a word leads, and what is set then.
#[derive(Clone, Copy)]
pub struct Stepped {
    pub place: u64,
    pub set: [u64; SETS],
}

// How a line ends: 0 where it has been read, else the fault; where the word stands; and what the line has set.
#[derive(Clone, Copy)]
pub struct Read {
    pub ended: u64,
    pub from: usize,
    pub upto: usize,
    pub set: [u64; SETS],
}

// One of the numbers set.
fn with(before: [u64; SETS], which: u64, value: u64) -> [u64; SETS]
    requires { which < sets }
    ensures { result ≡ set before which value }
{
    let k = which as usize;
    let mut after = before;
    after[k] = value;
    after
}

// One word.
fn step(
    table: &[u64; table::ENTRIES],
    version: u64,
    place: u64,
    word: &[u8],
    before: [u64; SETS],
) -> Stepped
    requires { (table.now ≡ grammar) × (place ≤ 63) }
    ensures { (result.place ≡ place_after version place word.now) ×
        (result.set ≡ set_after version place word.now before) }
{
    let row = table::row_for(table, version, place, word);
    if row == entries::ROWS {
        return Stepped {
            place: TAKEN + place,
            set: before,
        };
    }
    let at = row * table::PER_ROW;
    let value = table::value_by(table, version, row, word);
    let after = with(before, table[at + 4], value);
    Stepped {
        place: table[at + 6],
        set: after,
    }
}

// Where a line begins: the version stands first.
fn start_of(begun: bool) -> u64
    ensures { result ≡ start_of begun }
{
    if begun { 2 } else { 1 }
}

// Whether a line goes on from a place.
fn goes_on(place: u64) -> bool
    ensures { result ≡ goes_on place }
{
    if place < 1 {
        return false;
    }
    place <= MOST_PLACE
}

// A line's words one after another, from its first place.
pub fn read_line(table: &[u64; table::ENTRIES], version: u64, begun: bool, line: &[u8]) -> Read
    requires { table.now ≡ grammar }
    ensures { Reads line.now result (read_line version begun line.now) }
{
    let mut place = start_of(begun);
    let mut set = [0u64; SETS];
    let mut at: usize = 0;
    loop {
        let span = words::next(line, at);
        let from = span.from;
        let upto = span.upto;
        let next = step(table, version, place, &line[from..upto], set);
        let ended = next.place;
        let after = next.set;
        if from == upto {
            return Read {
                ended,
                from,
                upto,
                set: after,
            };
        }
        if !goes_on(ended) {
            return Read {
                ended,
                from,
                upto,
                set: after,
            };
        }
        place = ended;
        set = after;
        at = upto;
    }
}
