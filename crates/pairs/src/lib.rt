// Where two like spares go in a stretch: every pair of its places is rated once, and the first with the highest low is
// kept.
#![tactic(auto)]

ghost use Rattle.std.specs.Prelude.{◌≡◌, ◌+◌, ◌*◌, ◌<◌};
ghost use Rattle.rules.specs.Asked.{asked_with, size_of};
ghost use Rattle.rules.specs.Refusal.{most};
ghost use Rattle.spares.specs.Places.{spare_refusal};
ghost use Rattle.pairs.specs.Tried.{stays, with_pair, TriedBelow};

use places::Ends;
use rules::limit::CELLS;
use rules::{Question, RatedLists};
use swaps::Swap;

// The best pair so far: its places, counted from 0, and the figures with a spare in both; and how many were rated, 0
// where there is no pair yet.
#[derive(Clone, Copy)]
pub struct Best {
    pub first: usize,
    pub second: usize,
    pub low: u64,
    pub high: u64,
    pub rated: u64,
}

// Before any pair.
pub fn none() -> Best
    ensures { result.rated ≡ 0 }
{
    Best {
        first: 0,
        second: 0,
        low: 0,
        high: 0,
        rated: 0,
    }
}

// Does the best pair stay, where another has this low?
fn stays(best: Best, low: u64) -> bool
    ensures { result ≡ stays best low }
{
    if best.rated == 0 {
        false
    } else {
        low <= best.low
    }
}

// One pair more.
fn with_pair(best: Best, first: usize, second: usize, ends: Ends) -> Best
    requires { best.rated < most * most }
    ensures { result ≡ with_pair best first second ends }
{
    let rated = best.rated + 1;
    if stays(best, ends.low) {
        return Best { rated, ..best };
    }
    Best {
        first,
        second,
        low: ends.low,
        high: ends.high,
        rated,
    }
}

// The pairs with this first place, one after the other: the best of them and of those before.
pub fn rate_row(question: Question, p: u64, first: usize, best: Best, lists: &RatedLists) -> Best
    requires accepted { let q = asked_with question lists.now in
        spare_refusal q p ≡ 0 }
    requires place { let q = asked_with question lists.now in
        first < size_of q }
    requires tried { let q = asked_with question lists.now in
        TriedBelow q p first best }
    ensures { let q = asked_with question lists.now in
        TriedBelow q p (first + 1) result }
{
    let a = question.a;
    let size = (question.b - a) as usize + 1;
    let mut best = best;
    let mut working = [0u64; CELLS];
    for j in first + 1..size {
        let swap = Swap {
            first: a + first as u64,
            second: a + j as u64,
            p,
        };
        let ends = swaps::rate(question, swap, lists, &mut working);
        best = with_pair(best, first, j, ends);
    }
    best
}
