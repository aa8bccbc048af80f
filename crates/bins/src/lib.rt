// Kinds 4 and 5: v working components leave v + 1 bins for the failed ones, each of fewer than k. Row b of the working
// table holds for j failed ones the ways to lay them into b bins, where b and j add up to n + 1 at most.
#![tactic(auto)]

ghost use Rattle.std.specs.Prelude.{◌≡◌, suc, ◌+◌, ◌-◌, ◌*◌, ◌≤◌, ◌<◌, length, get_or};
ghost use Rattle.bins.specs.Bins.{Sized, Bins, Made, gone_at, Slides, Filled, Part, around_at, Around};
ghost use Rattle.places.specs.Map.{bin_row};

use places::map::BIN_ROW;

// What j failed ones no longer have in a bin more of what j - 1 had: those whose last bin is full.
fn full(k: usize, from: usize, j: usize, table: &[u64]) -> u64
    requires { from + j < length table.now }
    ensures { result ≡ gone_at k from j table.now }
{
    if j < k {
        return 0;
    }
    table[from + (j - k)]
}

// Column j of a row more out of what j - 1 had: one number more, and one let go.
fn slide(k: usize, from: usize, j: usize, held: u64, table: &[u64]) -> u64
    requires { Slides k from j held table.now }
    ensures { result + gone_at k from j table.now ≡ held + get_or table.now (from + j) 0 }
{
    held + table[from + j] - full(k, from, j, table)
}

// Row b + 1 out of row b: a sum that slides along, in each column with one number more and one let go.
fn next(k: usize, n: usize, b: usize, table: &mut [u64])
    requires { Sized k n table.old × (b ≤ n) × Bins k n (suc b) table.old }
    ensures { Made k n (suc (suc b)) table.old table.new }
{
    let from = b * BIN_ROW;
    let to = from + BIN_ROW;
    let last = n - b;
    let mut held: u64 = 0;
    for j in 0..=last {
        held = slide(k, from, j, held, table);
        table[to + j] = held;
    }
}

// All rows, after the one of no bins, which hold none failed only.
pub fn fill(k: usize, n: usize, table: &mut [u64])
    requires { Sized k n table.old }
    ensures { Made k n (n + 2) table.old table.new }
{
    places::zero(table, BIN_ROW);
    table[0] = 1;
    for b in 0..=n {
        next(k, n, b, table);
    }
}

// Kind 4: j failed ones in n + 1 - j bins.
pub fn line(n: usize, j: usize, table: &[u64]) -> u64
    requires { Filled n j table.now }
    ensures { result ≡ get_or table.now ((n + 1 - j) * bin_row + j) 0 }
{
    table[(n + 1 - j) * BIN_ROW + j]
}

// Kind 5: where column j of the row of n - 1 - j bins stands.
pub fn between(n: usize, j: usize) -> usize
    requires { (n ≤ 64) × (j < n) }
    ensures { result ≡ (n - 1 - j) * bin_row + j }
{
    (n - 1 - j) * BIN_ROW + j
}

// The ways to lay m failed ones around the end, and the others in the bins between.
fn part(top: usize, m: usize, table: &[u64]) -> u64
    requires { Part top m table.now }
    ensures { result ≡ suc m * get_or table.now (top - m) 0 }
{
    (m + 1) as u64 * table[top - m]
}

// Kind 5, from column j of a row on down, which stands at `top`: m failed ones around the end, m + 1 ways to lay them,
// and the others in the bins between.
pub fn around(k: usize, top: usize, j: usize, table: &[u64]) -> u64
    requires { Around k top j table.now }
    ensures { result ≡ around_at k top j table.now }
{
    let ends = k.min(j + 1);
    let mut sum: u64 = 0;
    for m in 0..ends {
        sum += part(top, m, table);
    }
    sum
}
