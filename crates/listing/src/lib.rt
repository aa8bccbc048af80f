// What a typed text lists, line by line, its faults told into a lent buffer.
#![tactic(auto)]

mod adding; // adding.rt: what a line adds
mod ending; // ending.rt: what is told at its end
pub mod lines; // lines.rt: where its lines end

ghost use Rattle.std.specs.Prelude.{◌≡◌, true, ◌&&◌, eqb, ◌+◌, ◌≤◌, ◌<◌, length};
ghost use Rattle.grammar.specs.Grammar.{grammar};
ghost use Rattle.grammar.specs.Stands.{part};
ghost use Rattle.grammar.specs.Text.{counted, thing, with_line};
ghost use Rattle.grammar.specs.Line.{read_line};
ghost use Rattle.listing.specs.Holds.{Starts, Sane, Steps, Counts, most_lines, ended};
ghost use Rattle.listing.specs.Lines.{ReadLines};

use grammar::table::ENTRIES;
use grammar::{line, table, words};
use rules::limit;
use typed_lists::fans::Fans;
use typed_lists::listed::Systems;
use typed_lists::told::Told;

// The lines so far, the version, whether a thing stands there already, the fans, the boards' own survival numbers, the
// systems, and the faults told.
#[derive(Clone, Copy)]
pub struct Listing {
    pub lines: u64,
    pub version: u64,
    pub begun: bool,
    pub fans: Fans,
    pub boards: usize,
    pub switchboards: [u32; limit::BOARDS],
    pub systems: Systems,
    pub told: Told,
}

// The version of a text that names none.
const WITHOUT: u64 = 2;

// A line that is longer is not read.
const LONGEST_LINE: usize = 65536;

const LONG_LINE: u64 = 137;

// The version that has boards.
const BOARDS_VERSION: u64 = 3;

// What a text lacks.
const NO_FAN: u64 = 133;

const NO_SYSTEM: u64 = 134;

const NO_BOARD: u64 = 135;

// Where a line sets the lower of two nearest parts.
const OF_BELOW: usize = 10;

// The listing of an empty text.
pub fn none() -> Listing
    ensures { Starts result }
{
    let fans = typed_lists::fans::no_fans();
    let switchboards = [0u32; limit::BOARDS];
    let systems = typed_lists::listed::no_systems();
    let told = Told { count: 0, end: 0 };
    Listing {
        lines: 0,
        version: WITHOUT,
        begun: false,
        fans,
        boards: 0,
        switchboards,
        systems,
        told,
    }
}

// One line more, and whether a thing stands there then.
fn count_line(listing: Listing, begun: bool) -> Listing
    requires { listing.lines < most_lines }
    ensures { Counts listing result begun }
{
    Listing {
        lines: listing.lines + 1,
        begun,
        ..listing
    }
}

// A line with words, the first of them where it stands.
fn with_words(
    table: &[u64; ENTRIES],
    listing: Listing,
    line: &[u8],
    from: usize,
    upto: usize,
    out: &mut [u8],
) -> Listing
    requires { (table.now ≡ grammar) × Sane listing out.old × (listing.lines < most_lines) × (from ≤ upto) ×
        (upto ≤ length line.now) }
    ensures { Steps 1 listing out.old result out.new
        (λ s. thing (counted s true) (part line.now from upto)
        (read_line s.version s.begun line.now)) }
{
    let read = line::read_line(table, listing.version, listing.begun, line);
    let set = read.set;
    let next = count_line(listing, true);
    if read.ended != 0 {
        let at = read.from;
        let end = read.upto;
        return adding::tell(
            next,
            next.lines,
            &line[at..end],
            read.ended,
            set[OF_BELOW],
            out,
        );
    }
    adding::added(next, &line[from..upto], set, out)
}

// One line more.
fn with_line(table: &[u64; ENTRIES], listing: Listing, line: &[u8], out: &mut [u8]) -> Listing
    requires { (table.now ≡ grammar) × Sane listing out.old × (listing.lines < most_lines) }
    ensures { Steps 1 listing out.old result out.new (λ s. with_line s line.now) }
{
    if line.len() > LONGEST_LINE {
        let next = count_line(listing, listing.begun);
        return adding::tell(next, next.lines, b"", LONG_LINE, 0, out);
    }
    let first = words::next(line, 0);
    let from = first.from;
    let upto = first.upto;
    if from == upto {
        return count_line(listing, listing.begun);
    }
    with_words(table, listing, line, from, upto, out)
}

// One line more, by itself.
pub fn read_line(listing: Listing, line: &[u8], out: &mut [u8]) -> Listing
    requires { Sane listing out.old × (listing.lines < most_lines) }
    ensures { Steps 1 listing out.old result out.new (λ s. with_line s line.now) }
{
    let table = table::table();
    with_line(&table, listing, line, out)
}

// What was read of a text: the listing then, and where its rest begins.
#[derive(Clone, Copy)]
pub struct Reached {
    pub listing: Listing,
    pub at: usize,
}

// All lines that end in a text; its last one may go on.
pub fn read_lines(listing: Listing, text: &[u8], out: &mut [u8]) -> Reached
    requires { Sane listing out.old × (listing.lines + length text.now ≤ most_lines) }
    ensures { ReadLines text.now listing out.old result out.new }
{
    let table = table::table();
    let mut next = listing;
    let mut at: usize = 0;
    while at < text.len() {
        let end = lines::line_end(text, at);
        if end == text.len() {
            break;
        }
        next = with_line(&table, next, &text[at..end], out);
        at = end + 1;
    }
    Reached { listing: next, at }
}

// Whether a version has boards and there is none.
fn boardless(version: u64, boards: usize) -> bool
    ensures { result ≡ eqb version 3 && eqb boards 0 }
{
    if version != BOARDS_VERSION {
        return false;
    }
    boards == 0
}

// The text's end: the listing with what the text lacks told, and the fans on boards that are not there.
pub fn last(listing: Listing, out: &mut [u8]) -> Listing
    requires { Sane listing out.old × (listing.lines < most_lines) }
    ensures { Steps 0 listing out.old result out.new ended }
{
    let fans = listing.fans;
    let systems = listing.systems;
    let before = listing.told;
    let lines = listing.lines;
    let g = listing.boards;
    let first = ending::missing(before, lines, fans.count == 0, NO_FAN, out);
    let second = ending::missing(first, lines, systems.count == 0, NO_SYSTEM, out);
    let third = ending::missing(second, lines, boardless(listing.version, g), NO_BOARD, out);
    if g == 0 {
        return Listing {
            told: third,
            ..listing
        };
    }
    let fourth = ending::unplaced(third, fans, g, out);
    Listing {
        told: fourth,
        ..listing
    }
}
