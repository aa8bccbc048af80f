// Rows of places, a place for each sum.
ghost use Rattle.std.specs.Prelude.{◌≡◌, suc, ◌+◌, ◌<◌, length};
ghost use Rattle.units.specs.Step.{whole};
ghost use Rattle.places.specs.Cells.{Both, Place, Written, cell_at};
ghost use Rattle.rows.specs.Kinds.{limit_of};
ghost use Rattle.rows.specs.Level.{Levelled, Raised, Span, ends_value};

use crate::{Level, kinds};
use memory::sum::Sum;
use places::Ends;
use places::map::HALF;
use rules::Rule;
use units::odds;

// The row with no components left.
pub fn start(decimal: bool, rule: Rule, limit: usize, table: &mut [u64])
    requires { Span 0 limit table.old × (limit ≡ limit_of rule) }
    ensures { Written (ends_value (whole decimal) rule) limit 0 table.old table.new }
{
    for m in 0..limit {
        let works = kinds::works(rule, limit, Sum { sum: m });
        places::write(table, m, places::end_value(decimal, works));
    }
}

// Places that hold 0.
pub fn clear(decimal: bool, off: usize, count: usize, table: &mut [u64])
    requires { Span off count table.old }
    ensures { Written (λ up k. 0) count off table.old table.new }
{
    for k in 0..count {
        places::write(table, off + k, places::end_value(decimal, false));
    }
}

// The value of a sum, in the row at `from`.
fn value(table: &[u64], from: usize, m: Sum) -> Ends
    requires { Place (from + m.sum) table.now }
    ensures { Both (λ up. cell_at table.now up (from + m.sum)) result }
{
    places::read(table, from + m.sum)
}

// One component more. Where it weighs nothing every value stays as it is. Else the row on one side is worked out of the
// row on the other, so the compiler works several places at a time.
pub fn turn(
    decimal: bool,
    rule: Rule,
    survival: &[u32],
    weights: &[u16],
    s: Level,
    table: &mut [u64],
) -> Level
    requires { let level = Levelled (whole decimal) rule survival.now weights.now s table.old in
        level × (s.left < length survival.now) }
    ensures { let read = survival.now in
        let beside = weights.now in
        let u = whole decimal in
        Raised u rule read beside (suc s.left) table.old table.new result }
{
    let left = s.left;
    let next = left + 1;
    let from = s.from;
    let carry = kinds::carry(rule, weights, left);
    if carry == 0 {
        return Level { left: next, ..s };
    }
    let reach = s.reach - carry;
    let width = kinds::limit(rule).min(reach);
    let to = HALF - from;
    let odds = odds::prepare(decimal, places::chance(survival, left));
    for m in 0..width {
        let sum = Sum { sum: m };
        let works = value(table, from, sum.worked());
        let fails = value(table, from, sum.failed(carry));
        places::write(table, to + m, places::step_row(decimal, odds, works, fails));
    }
    Level {
        reach,
        left: next,
        from: to,
    }
}
