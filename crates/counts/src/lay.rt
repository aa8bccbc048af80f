// Kinds 2, 4 and 5: the working table is filled, and the entries are laid into the room.
ghost use Rattle.std.specs.Prelude.{◌≡◌, suc, ◌≤◌, ◌<◌, length};
ghost use Rattle.bins.specs.Cells.{Stored};
ghost use Rattle.counts.specs.Tally.{entry_at, Workable, Worked, Layable};

use crate::sums;
use places::map::SUM_ROW;
use rules::{Rule, kind};

// The working table of the rule's kind.
pub fn work(rule: Rule, n: usize, weights: &[u16], table: &mut [u64])
    requires { Workable rule n weights.now table.old }
    ensures { Worked rule n weights.now table.old table.new }
{
    if rule.kind == kind::WEIGHT {
        sums::fill(rule.first as usize, weights, table);
    } else {
        bins::fill(rule.first as usize, n, table);
    }
}

// Entry j: what a row of sums comes to below k; row n + 1 - j of the bins; on the ring the row with two bins less, and
// none with all failed.
fn entry(rule: Rule, n: usize, j: usize, table: &[u64]) -> u64
    requires { Layable rule n table.now × (j ≤ n) }
    ensures { result ≡ entry_at rule n table.now j }
{
    if rule.kind == kind::WEIGHT {
        return sums::total(rule.first as usize, j * SUM_ROW, table);
    }
    if rule.kind == kind::ROW {
        return bins::line(n, j, table);
    }
    if j == n {
        return 0;
    }
    bins::around(rule.first as usize, bins::between(n, j), j, table)
}

// The entries 0 to n.
pub fn lay(rule: Rule, n: usize, table: &[u64], room: &mut [u64])
    requires { Layable rule n table.now × (n < length room.old) }
    ensures { Stored (entry_at rule n table.now) 0 0 (suc n) room.old room.new }
{
    for j in 0..=n {
        room[j] = entry(rule, n, j, table);
    }
}
