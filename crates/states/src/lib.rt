// The verdict on a state of a deck, system by system: the fans that have failed, what a stretch sees of them, and the
// place on the deck.
#![tactic(auto)]

ghost use Rattle.std.specs.Prelude.{[], cond, ◌||◌, ◌≡◌, ◌*◌, ◌^◌, ◌≤◌, ◌<◌, eqb, length};
ghost use Rattle.rules.specs.State.{down};
ghost use Rattle.rules.specs.Refusal.{most};
ghost use Rattle.deck.specs.Outcome.{Placed};
ghost use Rattle.states.specs.States.{fan_failed, board_failed, state_in, deck_place, on_deck, part_verdict, verdict_in};
ghost use Rattle.states.specs.Placed.{FewPlaces};

use deck::Head;
use rules::{NO_MORE, System, Verdict};

// All ones, and how many.
const ONES: u64 = 0xffff_ffff_ffff_ffff;

const BITS: u64 = 64;

// The state with a fan failed too.
pub fn fan_failed(state: u64, fan: u64) -> u64
    requires { (1 ≤ fan) × (fan ≤ most) }
    ensures { result ≡ fan_failed state fan }
{
    state | (1 << (fan - 1))
}

// Has a fan failed where a board has? It is on the board, or it has failed already.
fn failed_with(own: u8, board: u64, i: u64, state: u64) -> bool
    requires { i < most }
    ensures { result ≡ (eqb own board || down i state) }
{
    if own as u64 == board {
        return true;
    }
    (state >> i) % 2 == 1
}

// The bit of a place, where it is to be one.
fn bit_of(failed: bool, i: u64) -> u64
    requires { i < most }
    ensures { result ≡ cond failed (1 * 2 ^ i) 0 }
{
    if failed {
        return 1 << i;
    }
    0
}

// The state with every fan on a board failed too, by the fans' board numbers.
pub fn board_failed(boards: &[u8], board: u64, state: u64) -> u64
    requires { length boards.now ≤ most }
    ensures { result ≡ board_failed boards.now board state }
{
    let mut after: u64 = 0;
    for (i, own) in boards.iter().enumerate() {
        let failed = failed_with(*own, board, i as u64, state);
        after += bit_of(failed, i as u64);
    }
    after
}

// What a stretch sees of a state. A mask of all 64 ones is within: the full word is shifted down, not 1 up.
fn state_in(a: u64, b: u64, state: u64) -> u64
    requires { (1 ≤ a) × (a ≤ b) × (b ≤ most) }
    ensures { result ≡ state_in a b state }
{
    let size = b + 1 - a;
    let mask = ONES >> (BITS - size);
    (state >> (a - 1)) & mask
}

// A place in a stretch from a on, counted on the deck; 0 is no place.
fn deck_place(a: u64, place: u64) -> u64
    requires { (1 ≤ a) × (a ≤ most) × (place ≤ 2 * most) }
    ensures { result ≡ deck_place a place }
{
    if place == 0 {
        return 0;
    }
    a - 1 + place
}

// A verdict over a stretch from a on, its place counted on the deck.
fn on_deck(a: u64, verdict: Verdict) -> Verdict
    requires start { (1 ≤ a) × (a ≤ most) }
    requires few { FewPlaces verdict }
    ensures { result ≡ on_deck a verdict }
{
    match verdict {
        Verdict::Works => Verdict::Works,
        Verdict::Fails(place) => Verdict::Fails(deck_place(a, place)),
        Verdict::Refused(number) => Verdict::Refused(number),
    }
}

// A system's verdict over a deck's weights: 1, 2 and 3 as of a rating, then the verdict over the stretch alone.
fn judge_part(system: System, weights: &[u16], state: u64) -> Verdict
    ensures { result ≡ part_verdict system (length weights.now) weights.now state }
{
    let rule = system.rule;
    let a = system.a;
    let b = system.b;
    if let Err(refused) = asked::place_refusal(rule, a, b, weights.len() as u64) {
        return Verdict::Refused(refused.number());
    }
    let from = a as usize - 1;
    let upto = b as usize;
    let seen = state_in(a, b, state);
    let verdict = verdict::verdict_on(
        rule,
        (upto - from) as u64,
        &weights[from..upto],
        &NO_MORE,
        seen,
    );
    on_deck(a, verdict)
}

// The verdict of the system at a place of a file that is not refused, counted from 0, on a state of the deck.
pub fn state_system(file: &[u8], head: Head, s: usize, state: u64) -> Verdict
    requires { Placed file.now head s }
    ensures { result ≡ verdict_in file.now s state }
{
    let n = head.fans;
    let weights = deck::weights_in(file, head);
    let system = deck::system_in(file, head, s);
    judge_part(system, &weights[..n], state)
}
