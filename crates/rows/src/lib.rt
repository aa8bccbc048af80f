// Kinds 1 to 3: low and high of a list, worked in two rows of the lent table, a place for each sum that can still come.
// A row holds the values with so many components left; a component more is a row on the other side, out of the row on
// this one.
#![tactic(auto)]

mod kinds; // kinds.rt: what kinds 1 to 3 differ in
mod row; // row.rt: the rows

ghost use Rattle.rules.specs.Figure.{figure};
ghost use Rattle.units.specs.Step.{whole};
ghost use Rattle.places.specs.Cells.{Both, Kept};
ghost use Rattle.rows.specs.Level.{Asked};

use places::Ends;
use places::map::HALF;
use rules::Rule;

// At `from` stand the values with `left` components left of the sums that can still come, `reach` of them at the most.
#[derive(Clone, Copy)]
struct Level {
    reach: usize,
    left: usize,
    from: usize,
}

// Low and high of a list of kind 1, 2 or 3.
pub fn rate(decimal: bool, rule: Rule, survival: &[u32], weights: &[u16], table: &mut [u64]) -> Ends
    requires { Asked (whole decimal) rule survival.now weights.now table.old }
    ensures figure { let read = survival.now in
        Both (λ up. figure up (whole decimal) rule read weights.now) result }
    ensures kept { Kept table.old table.new }
{
    let n = survival.len();
    let limit = kinds::limit(rule);
    let gap = kinds::gap(rule);
    row::start(decimal, rule, limit, table);
    row::clear(decimal, limit, gap, table);
    row::clear(decimal, HALF + limit, gap, table);
    let mut s = Level {
        reach: kinds::load(rule, weights, n) + 1,
        left: 0,
        from: 0,
    };
    for _ in 0..n {
        s = row::turn(decimal, rule, survival, weights, s, table);
    }
    places::read(table, s.from)
}
