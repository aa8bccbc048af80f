// Where a spare can go in a stretch: the figures as they are, and with the spare in each place.
#![tactic(auto)]

ghost use Rattle.std.specs.Prelude.{◌≡◌, replicate};
ghost use Rattle.rules.specs.Asked.{asked_with, low_of, high_of};
ghost use Rattle.rules.specs.Refusal.{cells, figures_refusal, refusal_in};
ghost use Rattle.spares.specs.Places.{spare_refusal, Placed, AsItIs};

use places::Ends;
use rules::limit::{CELLS, FANS};
use rules::refusal::Refusal;
use rules::{Question, RatedLists};
use swaps::Swap;

// The figures with the spare in the place of each fan of the stretch, its first fan at 0.
#[derive(Clone, Copy)]
pub struct Places {
    pub low: [u64; FANS],
    pub high: [u64; FANS],
}

// The refusal of a system, the spare's number among those of 4.
pub fn refusal(question: Question, p: u64, lists: &RatedLists) -> Result<(), Refusal>
    ensures { let q = asked_with question lists.now in
        refusal_in result ≡ spare_refusal q p }
{
    let working = [0u64; CELLS];
    gain::refusal(question, p, lists, &working)
}

// The figures as they are.
pub fn rate_now(question: Question, lists: &RatedLists) -> Ends
    requires { let q = asked_with question lists.now in
        figures_refusal q (replicate cells 0) ≡ 0 }
    ensures { let q = asked_with question lists.now in
        AsItIs q result }
{
    let mut working = [0u64; CELLS];
    stretches::work(question, lists, &mut working)
}

// The figures with the spare in each place, one after the other.
pub fn rate_places(question: Question, p: u64, lists: &RatedLists) -> Places
    requires { let q = asked_with question lists.now in
        spare_refusal q p ≡ 0 }
    ensures { let q = asked_with question lists.now in
        Placed q p result }
{
    let a = question.a;
    let size = (question.b - a) as usize + 1;
    let mut low = [0u64; FANS];
    let mut high = [0u64; FANS];
    let mut working = [0u64; CELLS];
    for i in 0..size {
        let fan = a + i as u64;
        let swap = Swap {
            first: fan,
            second: fan,
            p,
        };
        let ends = swaps::rate(question, swap, lists, &mut working);
        low[i] = ends.low;
        high[i] = ends.high;
    }
    Places { low, high }
}
