// What each fan of a deck is worth to a system.
#![tactic(auto)]

ghost use Rattle.std.specs.Prelude.{◌≡◌};
ghost use Rattle.deck.specs.Outcome.{Placed};
ghost use Rattle.worths.specs.Worths.{Weighed, lower_end, upper_end};

use deck::Head;
use drawn::Worths;
use rules::Worth;
use rules::limit::FANS;

// The lower end of a worth, 0 where there is none.
fn lower_of(worth: Worth) -> i64
    ensures { result ≡ lower_end worth }
{
    match worth {
        Worth::Ends { lower, upper: _ } => lower,
        Worth::Refused(_number) => 0,
    }
}

// The upper end, likewise.
fn upper_of(worth: Worth) -> i64
    ensures { result ≡ upper_end worth }
{
    match worth {
        Worth::Ends { lower: _, upper } => upper,
        Worth::Refused(_number) => 0,
    }
}

// The worths of all fans of a file to its system at a place, counted from 0, by the call that deckworth's lines come
// from.
pub fn worths_of(file: &[u8], head: Head, s: usize) -> Worths
    requires { Placed file.now head s }
    ensures { Weighed file.now s result }
{
    let mut lower = [0i64; FANS];
    let mut upper = [0i64; FANS];
    for i in 0..head.fans {
        let worth = fan_worths::weigh(file, head, s, i as u64 + 1);
        lower[i] = lower_of(worth);
        upper[i] = upper_of(worth);
    }
    Worths { lower, upper }
}
