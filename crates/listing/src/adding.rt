// What a line that has been read adds; its first word is told where there is no room for that.
ghost use Rattle.grammar.specs.Reads.{Within};
ghost use Rattle.grammar.specs.Text.{fault_at, told, added_fans, added_board, added_system, added};
ghost use Rattle.listing.specs.Holds.{Sane, Steps};

use crate::Listing;
use grammar::line::SETS;
use rules::limit;
use typed_lists::{fans, listed, told};

// What is where among the numbers that a line sets.
const OF_NUMBER: usize = 0;

const OF_THING: usize = 6;

const OF_PARTS: usize = 7;

const OF_WEIGHT: usize = 8;

const OF_BOARD: usize = 9;

// The things that a line may be; without a name, a system.
const A_VERSION: u64 = 1;

const SOME_FANS: u64 = 2;

const A_BOARD: u64 = 3;

// Faults: more than a file has room for.
const MANY_FANS: u64 = 130;

const MANY_BOARDS: u64 = 131;

const MANY_SYSTEMS: u64 = 132;

// One fault more: the listing then.
pub fn tell(
    listing: Listing,
    line: u64,
    word: &[u8],
    wanted: u64,
    named: u64,
    out: &mut [u8],
) -> Listing
    requires { Sane listing out.old }
    ensures { Steps 0 listing out.old result out.new
        (λ s. told s (fault_at line word.now wanted named)) }
{
    let before = listing.told;
    let after = told::plus(before, line, word, wanted, named, out);
    Listing {
        told: after,
        ..listing
    }
}

// Some fans.
fn added_fans(listing: Listing, first: &[u8], set: [u64; SETS], out: &mut [u8]) -> Listing
    requires { Sane listing out.old × Within set }
    ensures { Steps 0 listing out.old result out.new (λ s. added_fans s first.now set) }
{
    let before = listing.fans;
    let more = set[OF_NUMBER];
    if before.count as u64 + more > limit::FANS as u64 {
        return tell(listing, listing.lines, first, MANY_FANS, 0, out);
    }
    let parts = set[OF_PARTS] as u32;
    let weight = set[OF_WEIGHT] as u16;
    let board = set[OF_BOARD] as u8;
    let after = fans::plus(before, more, parts, weight, board, listing.lines);
    Listing {
        fans: after,
        ..listing
    }
}

// A board.
fn added_board(listing: Listing, first: &[u8], set: [u64; SETS], out: &mut [u8]) -> Listing
    requires { Sane listing out.old × Within set }
    ensures { Steps 0 listing out.old result out.new (λ s. added_board s first.now set) }
{
    let g = listing.boards;
    if g + 1 > limit::BOARDS {
        return tell(listing, listing.lines, first, MANY_BOARDS, 0, out);
    }
    let mut switchboards = listing.switchboards;
    switchboards[g] = set[OF_PARTS] as u32;
    Listing {
        switchboards,
        boards: g + 1,
        ..listing
    }
}

// A system.
fn added_system(listing: Listing, first: &[u8], set: [u64; SETS], out: &mut [u8]) -> Listing
    requires { Sane listing out.old × Within set }
    ensures { Steps 0 listing out.old result out.new (λ s. added_system s first.now set) }
{
    let before = listing.systems;
    if before.count + 1 > limit::SYSTEMS {
        return tell(listing, listing.lines, first, MANY_SYSTEMS, 0, out);
    }
    let after = listed::plus(before, set);
    Listing {
        systems: after,
        ..listing
    }
}

// What the line is, by what it has set.
pub fn added(listing: Listing, first: &[u8], set: [u64; SETS], out: &mut [u8]) -> Listing
    requires { Sane listing out.old × Within set }
    ensures { Steps 0 listing out.old result out.new (λ s. added s first.now set) }
{
    let thing = set[OF_THING];
    if thing == A_VERSION {
        return Listing {
            version: set[OF_NUMBER],
            ..listing
        };
    }
    if thing == SOME_FANS {
        return added_fans(listing, first, set, out);
    }
    if thing == A_BOARD {
        return added_board(listing, first, set, out);
    }
    added_system(listing, first, set, out)
}
