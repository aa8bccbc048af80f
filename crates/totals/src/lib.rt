// The totals of a season: what each kind comes to over the decks read, and one answer more.
#![tactic(auto)]

pub mod tally; // tally.rt: the totals of one kind

ghost use Rattle.std.specs.Prelude.{◌≡◌, [], ◌≤◌};
ghost use Rattle.rules.specs.State.{S};
ghost use Rattle.totals.specs.Season.{totals_of};
ghost use Rattle.totals.specs.Plus.{system_plus};
ghost use Rattle.totals.specs.Room.{most_answers, Room, Fair};

use rules::Rating;
use tally::Tally;

// The kinds of a rule.
pub const KINDS: usize = rules::kind::LAST as usize;

// The decks read; the files refused, and the refusal; the systems of no kind; and each kind's totals.
#[derive(Clone, Copy)]
pub struct Totals {
    pub decks: u64,
    pub refused: u64,
    pub number: u64,
    pub other: u64,
    pub kinds: [Tally; KINDS],
}

// Those of no file.
pub fn none() -> Totals
    ensures { result ≡ totals_of [] }
{
    let tally = Tally::none();
    let kinds = [tally; KINDS];
    Totals {
        decks: 0,
        refused: 0,
        number: 0,
        other: 0,
        kinds,
    }
}

// One answer more, of a system of the deck that was read last.
pub fn plus_system(totals: Totals, system: u64, unit: u64, kind: u64, answer: Rating) -> Totals
    requires room { Room most_answers totals }
    requires unit { unit ≤ S }
    requires fair { Fair answer }
    ensures { result ≡ system_plus totals system unit kind answer }
{
    if refusals::outside(1, kind, KINDS as u64) {
        return Totals {
            other: totals.other + 1,
            ..totals
        };
    }
    let mut kinds = totals.kinds;
    let k = (kind - 1) as usize;
    let tally = kinds[k];
    kinds[k] = tally.plus(totals.decks, system, unit, answer);
    Totals { kinds, ..totals }
}
