// Kind 2: row j of the working table holds for each sum how many states of the components read so far have j failed
// that weigh as much.
ghost use Rattle.std.specs.Prelude.{◌≡◌, ◌+◌, ◌-◌, ◌^◌, ◌≤◌, ◌<◌, min, sum, length, get_or, set};
ghost use Rattle.rules.specs.Below.{sum_below};
ghost use Rattle.rules.specs.Refusal.{heaviest};
ghost use Rattle.bins.specs.Cells.{Stored};
ghost use Rattle.counts.specs.Sums.{Weighed, Added, Raisable, Addable, Turnable, Turned, Summable};

use places::map::SUM_ROW;

// Adds the cell at `from` to the one at `to`.
fn raise(from: usize, to: usize, table: &mut [u64])
    requires { Raisable from to table.old }
    ensures { let t = table.old in
        table.new ≡ set t to (get_or t to 0 + get_or t from 0) }
{
    table[to] += table[from];
}

// Adds the `count` cells from `from` on to those from `to` on.
fn add(from: usize, to: usize, count: usize, table: &mut [u64])
    requires { Addable from to count table.old }
    ensures { let t = table.old in
        Stored (λ s. get_or t (to + s) 0 + get_or t (from + s) 0) to 0 count t table.new }
{
    for s in 0..count {
        raise(from + s, to + s, table);
    }
}

// A component of weight w more, from the highest row on: where it fails, one more has failed and the sum is w further
// on.
fn turn(w: usize, count: usize, rows: usize, table: &mut [u64])
    requires { Turnable w count rows table.old }
    ensures { Turned w count 0 rows table.old table.new }
{
    for j in (0..rows).rev() {
        let below = j * SUM_ROW;
        add(below, below + SUM_ROW + w, count, table);
    }
}

// How many columns count: a sum that those read so far cannot add up to has no states, and one that a failed one of
// weight w takes to k is dead.
fn within(k: usize, w: usize, reach: usize) -> usize
    requires { reach ≤ heaviest }
    ensures { result ≡ min (reach + 1) (k - w) }
{
    (reach + 1).min(k.saturating_sub(w))
}

// All components.
pub fn fill(k: usize, weights: &[u16], table: &mut [u64])
    requires { Weighed k weights.now table.old }
    ensures { let all = weights.now in
        Added k all (length all) table.old table.new }
{
    places::zero(table, rules::limit::CELLS);
    table[0] = 1;
    let mut reach: usize = 0;
    for (i, weight) in weights.iter().enumerate() {
        let w = usize::from(*weight);
        turn(w, within(k, w, reach), i + 1, table);
        reach += w;
    }
}

// Cells added up.
fn added(cells: &[u64]) -> u64
    requires { sum cells.now < 2 ^ 64 }
    ensures { result ≡ sum cells.now }
{
    cells.iter().sum()
}

// The states of a row that weigh less than k.
pub fn total(k: usize, from: usize, table: &[u64]) -> u64
    requires { Summable k from table.now }
    ensures { result ≡ sum_below k (λ s. get_or table.now (from + s) 0) }
{
    added(&table[from..from + k])
}
