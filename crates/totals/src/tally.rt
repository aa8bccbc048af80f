// The totals of one kind, and how one answer more changes them.
ghost use Rattle.std.specs.Prelude.{◌≡◌, cond, ◌≤◌, eqb};
ghost use Rattle.rules.specs.State.{S};
ghost use Rattle.totals.specs.Plus.{one_if, refusals_plus, lowest_plus, widths_plus, tally_plus, no_tally};
ghost use Rattle.totals.specs.Room.{most_answers, RoomRefusals, RoomLowest, RoomWidths, RoomTally, Fair};

use rules::{Rating, version};

// Systems refused, by each number.
#[derive(Clone, Copy)]
pub struct Refusals {
    pub three: u64,
    pub four: u64,
    pub five: u64,
    pub six: u64,
}

// The smallest low with its unit, deck and system number; zeros where there is none.
#[derive(Clone, Copy)]
pub struct Lowest {
    pub low: u64,
    pub unit: u64,
    pub deck: u64,
    pub system: u64,
}

// The widths added up in parts of 2^30, and in parts of 10^9.
#[derive(Clone, Copy)]
pub struct Widths {
    pub binary: u64,
    pub decimal: u64,
}

#[derive(Clone, Copy)]
pub struct Tally {
    pub answered: u64,
    pub refused: Refusals,
    pub lowest: Lowest,
    pub widths: Widths,
}

// 1 where a test holds.
fn one_if(b: bool) -> u64
    ensures { (result ≡ one_if b) × (result ≤ 1) }
{
    if b { 1 } else { 0 }
}

// A width where its unit is the one that is meant.
fn width_in(unit: u64, meant: u64, width: u64) -> u64
    ensures { (result ≡ cond (eqb unit meant) width 0) × (result ≤ width) }
{
    if unit == meant { width } else { 0 }
}

impl Refusals {
    fn plus(self, number: u64) -> Refusals
        requires { RoomRefusals most_answers self }
        ensures { result ≡ refusals_plus self number }
    {
        Refusals {
            three: self.three + one_if(number == 3),
            four: self.four + one_if(number == 4),
            five: self.five + one_if(number == 5),
            six: self.six + one_if(number == 6),
        }
    }
}

impl Lowest {
    // The first in reading order stays on a tie; lows over two units are compared as fractions, each times the other's
    // unit.
    fn plus(self, next: Lowest) -> Lowest
        requires held { RoomLowest self }
        requires more { RoomLowest next }
        ensures { result ≡ lowest_plus self next }
    {
        if self.unit == 0 {
            return next;
        }
        if next.low * self.unit < self.low * next.unit {
            return next;
        }
        self
    }
}

impl Widths {
    fn plus(self, unit: u64, width: u64) -> Widths
        requires room { RoomWidths most_answers self }
        requires within { width ≤ S }
        ensures { result ≡ widths_plus self unit width }
    {
        Widths {
            binary: self.binary + width_in(unit, version::BINARY, width),
            decimal: self.decimal + width_in(unit, version::DECIMAL, width),
        }
    }
}

impl Tally {
    // Nothing counted yet.
    pub fn none() -> Tally
        ensures { result ≡ no_tally }
    {
        let refused = Refusals {
            three: 0,
            four: 0,
            five: 0,
            six: 0,
        };
        let lowest = Lowest {
            low: 0,
            unit: 0,
            deck: 0,
            system: 0,
        };
        let widths = Widths {
            binary: 0,
            decimal: 0,
        };
        Tally {
            answered: 0,
            refused,
            lowest,
            widths,
        }
    }

    // One answer more, of a system of a deck.
    pub fn plus(self, deck: u64, system: u64, unit: u64, answer: Rating) -> Tally
        requires room { RoomTally most_answers self }
        requires unit { unit ≤ S }
        requires fair { Fair answer }
        ensures { result ≡ tally_plus self deck system unit answer }
    {
        match answer {
            Rating::Range { low, high } => {
                let next = Lowest {
                    low,
                    unit,
                    deck,
                    system,
                };
                let lowest = self.lowest.plus(next);
                let widths = self.widths.plus(unit, high - low);
                Tally {
                    answered: self.answered + 1,
                    lowest,
                    widths,
                    ..self
                }
            }
            Rating::Refused(number) => {
                let refused = self.refused.plus(number);
                Tally { refused, ..self }
            }
        }
    }
}
