// Places of the lent table: a place is two cells, the low end of a value and, FAR cells further, its high end. And the
// table's cells set to 0.
#![tactic(auto)]

pub mod map; // map.rt: which of the table's cells hold what

ghost use Rattle.std.specs.Prelude.{◌≡◌, Bool, cond, ◌++◌, ◌<◌, ◌≤◌, length, get_or, drop, replicate};
ghost use Rattle.rules.specs.State.{S};
ghost use Rattle.rules.specs.Figure.{rounded, mixed};
ghost use Rattle.units.specs.Step.{whole};
ghost use Rattle.units.specs.Odds.{Prepared};
ghost use Rattle.places.specs.Cells.{Both, MustWork, Place, Put, Steady, Within, cell_at, one, shares_at};

use crate::map::FAR;
use units::debt::Shares;
use units::odds::Odds;
use units::{Failure, FailureShare, Survival, SurvivalShare};

// The two ends of a value.
#[derive(Clone, Copy)]
pub struct Ends {
    pub low: u64,
    pub high: u64,
}

// The value that stands at a place.
pub fn read(table: &[u64], at: usize) -> Ends
    requires { Place at table.now }
    ensures { Both (λ up. cell_at table.now up at) result }
{
    Ends {
        low: table[at],
        high: table[FAR + at],
    }
}

// The same, where both are within a unit: the compiler sees that they fit 32 bits.
pub fn read_small(table: &[u64], at: usize) -> Ends
    requires { Place at table.now × ((up : Bool) → cell_at table.now up at ≤ S) }
    ensures { Both (λ up. cell_at table.now up at) result }
{
    let ends = read(table, at);
    Ends {
        low: units::narrow(ends.low),
        high: units::narrow(ends.high),
    }
}

// A value written at a place.
pub fn write(table: &mut [u64], at: usize, ends: Ends)
    requires { Place at table.old }
    ensures { Put at ends table.old table.new }
{
    table[at] = ends.low;
    table[FAR + at] = ends.high;
}

// The shares that stand at a place: P's where the low end of a value does, Q's where its high end does.
pub fn read_shares(table: &[u64], at: usize) -> Shares
    requires { Place at table.now }
    ensures { Both (λ up. cell_at table.now up at) (shares_at result) }
{
    let cells = read(table, at);
    let p = SurvivalShare(cells.low);
    let q = FailureShare(cells.high);
    Shares { p, q }
}

// Shares written at a place.
pub fn write_shares(table: &mut [u64], at: usize, shares: Shares)
    requires { Place at table.old }
    ensures { Put at (shares_at shares) table.old table.new }
{
    let cells = Ends {
        low: shares.p.0,
        high: shares.q.0,
    };
    write(table, at, cells);
}

// One rounded step of both ends.
pub fn step(decimal: bool, p: Survival, q: Failure, works: Ends, fails: Ends) -> Ends
    requires { Steady (whole decimal) p.0 q.0 works fails }
    ensures { let u = whole decimal in
        Both (λ up. rounded up u (mixed u p.0 (one up works) (one up fails))) result }
{
    let unit = units::whole(decimal);
    Ends {
        low: units::round_down(unit, p, q, works.low, fails.low),
        high: units::round_up(unit, p, q, works.high, fails.high),
    }
}

// The same over a row of values, with one component's numbers for all of it.
pub fn step_row(decimal: bool, odds: Odds, works: Ends, fails: Ends) -> Ends
    requires { Prepared (whole decimal) odds × Within (whole decimal) works × Within (whole decimal) fails }
    ensures { let u = whole decimal in
        Both (λ up. rounded up u (mixed u odds.p.0 (one up works) (one up fails))) result }
{
    let unit = units::whole(decimal);
    Ends {
        low: odds.down(unit, works.low, fails.low),
        high: odds.up(unit, works.high, fails.high),
    }
}

// The same of a component that must work, by its shares: nothing is left where it fails.
pub fn step_owed(decimal: bool, p: Survival, q: Failure, shares: Shares, works: Ends) -> Ends
    requires { MustWork (whole decimal) p.0 q.0 shares works }
    ensures { Both (λ up. rounded up (whole decimal) (mixed (whole decimal) p.0 (one up works) 0)) result }
{
    let unit = units::whole(decimal);
    Ends {
        low: shares.down(unit, p, q, works.low),
        high: shares.up(unit, p, q, works.high),
    }
}

// The survival number of component i + 1.
pub fn chance(survival: &[u32], i: usize) -> Survival
    requires { i < length survival.now }
    ensures { result.0 ≡ get_or survival.now i 0 }
{
    Survival(u64::from(survival[i]))
}

// The value at hand, which is that of the memory asked for: the two hold the same number.
pub fn at_hand(asked: usize, hand: usize, ends: Ends) -> Ends
    requires { asked ≡ hand }
    ensures { result ≡ ends }
{
    ends
}

// The value of a memory with no components left; of a dead one at any time.
pub fn end_value(decimal: bool, works: bool) -> Ends
    ensures { Both (λ up. cond works (whole decimal) 0) result }
{
    if works {
        let all = units::whole(decimal);
        return Ends {
            low: all,
            high: all,
        };
    }
    Ends { low: 0, high: 0 }
}

// Sets the first `count` cells of a table to 0.
pub fn zero(table: &mut [u64], count: usize)
    requires { count ≤ length table.old }
    ensures { table.new ≡ replicate count 0 ++ drop count table.old }
{
    table[..count].fill(0);
}
