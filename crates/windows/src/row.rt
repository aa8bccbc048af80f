// A component more: the values on one side out of those on the other.
ghost use Rattle.std.specs.Prelude.{◌≡◌, Bool, cond, false, List, ◌≤◌};
ghost use Rattle.rules.specs.State.{S};
ghost use Rattle.rules.specs.declared.Pair.{Pair};
ghost use Rattle.units.specs.Step.{whole};
ghost use Rattle.places.specs.Cells.{Both, Kept, Place, Written, cell_at};
ghost use Rattle.windows.specs.Row.{Between, Filling, Handed, Laid, Levelled};
ghost use Rattle.windows.specs.Row.{Raised, Ready, Standing, Swept, Worked};

use crate::{Level, groups};
use memory::pattern::Pattern;
use places::Ends;
use places::map::HALF;
use units::Survival;

// With no components left every pattern works.
pub fn start(decimal: bool, count: usize, table: &mut [u64])
    requires { Filling count table.old }
    ensures { Written (λ up m. whole decimal) count 0 table.old table.new }
{
    for m in 0..count {
        let pattern = Pattern { bits: m };
        let works = pattern.works();
        places::write(table, m, places::end_value(decimal, works));
    }
}

// The value of what follows where a component fails; a pattern that must work is dead then.
fn failing(decimal: bool, must: bool, table: &[u64], at: usize) -> Ends
    requires { must ≡ false → Place at table.now × ((up : Bool) → cell_at table.now up at ≤ S) }
    ensures { Both (λ up. cond must 0 (cell_at table.now up at)) result }
{
    if must {
        return places::end_value(decimal, false);
    }
    places::read_small(table, at)
}

// A pattern and its older one, which goes on alike; an older one that is worse off than a pattern that must work is
// dead.
fn both(
    decimal: bool,
    must: bool,
    worse: bool,
    p: Survival,
    oldest: usize,
    from: usize,
    x: usize,
    table: &mut [u64],
)
    requires { Ready (whole decimal) must worse p.0 oldest from x table.old }
    ensures { let u = whole decimal in
        Laid u must worse p.0 oldest from x table.old table.new }
{
    let young = Pattern { bits: x };
    let to = HALF - from;
    let q = p.failure(decimal);
    let works = places::read_small(table, from + young.worked().bits);
    let after = from + young.failed().bits;
    let fails = failing(decimal, must, table, after);
    let fails_older = failing(decimal, must | worse, table, after);
    places::write(table, to + x, places::step(decimal, p, q, works, fails));
    if must & worse {
        return;
    }
    places::write(
        table,
        to + young.older(oldest).bits,
        places::step(decimal, p, q, works, fails_older),
    );
}

// The patterns of a list.
fn group(
    decimal: bool,
    must: bool,
    worse: bool,
    p: Survival,
    oldest: usize,
    from: usize,
    table: &mut [u64],
)
    requires { Handed (whole decimal) must worse p.0 oldest from table.old }
    ensures { let u = whole decimal in
        Worked u must worse p.0 oldest from table.old table.new }
{
    let at = groups::list_at(must, worse);
    let count = table[at] as usize;
    for j in 0..count {
        let x = table[at + 1 + j] as usize;
        both(decimal, must, worse, p, oldest, from, x, table);
    }
}

// The four lists. Both arms say the same: in each the compiler knows the unit, so that no loop asks for it.
fn sweep(decimal: bool, oldest: usize, p: Survival, from: usize, table: &mut [u64])
    requires { Between (whole decimal) oldest from p.0 table.old }
    ensures { let u = whole decimal in
        Swept u oldest from p.0 table.old table.new }
{
    if !decimal {
        group(decimal, false, false, p, oldest, from, table);
        group(decimal, false, true, p, oldest, from, table);
        group(decimal, true, false, p, oldest, from, table);
        group(decimal, true, true, p, oldest, from, table);
        return;
    }
    group(decimal, false, false, p, oldest, from, table);
    group(decimal, false, true, p, oldest, from, table);
    group(decimal, true, false, p, oldest, from, table);
    group(decimal, true, true, p, oldest, from, table);
}

// The next component, with the patterns that can have been reached.
pub fn turn(decimal: bool, oldest: usize, survival: &[u32], s: Level, table: &mut [u64]) -> Level
    requires { Standing (whole decimal) oldest survival.now s table.old }
    ensures raised { let u = whole decimal in
        let read = survival.now in
        let before = table.old in
        let after = table.new in
        ((ps : List Pair) → Levelled u ps oldest read s before → Raised u ps oldest read s after result) }
    ensures kept { Kept table.old table.new }
{
    let left = s.left + 1;
    let from = s.from;
    groups::trim_all(1 << (survival.len() - left), oldest, table);
    let p = places::chance(survival, s.left);
    sweep(decimal, oldest, p, from, table);
    Level {
        left,
        from: HALF - from,
    }
}
