// Kinds 1, 3, 6 and 7: an entry is one of Pascal's numbers, two of them, or 0.
ghost use Rattle.std.specs.Prelude.{◌≡◌, true, suc, ◌-◌, ◌*◌, ◌≤◌, ◌<◌, length};
ghost use Rattle.rules.specs.Refusal.{most};
ghost use Rattle.pascal.specs.Ways.{ways_of};
ghost use Rattle.pascal.specs.Folded.{folded_rule};
ghost use Rattle.bins.specs.Cells.{Stored};
ghost use Rattle.counts.specs.Ways.{fails_at, apart_of, ring_of, entry_of, Spread, Lookup};

use rules::{Rule, kind};

// Kinds 1 and 3: do the states with j failed fail?
fn fails_at(rule: Rule, j: u64) -> bool
    ensures { result ≡ fails_at rule j }
{
    if rule.kind == kind::NUMBER {
        return rule.first <= j;
    }
    rule.first <= j && j <= rule.second
}

// The states of i components with j failed where each of `times` takes `owed` components away.
fn left(owed: usize, i: usize, times: usize, j: usize, triangle: &[u64; pascal::ENTRIES]) -> u64
    requires { (i ≤ most) × (times * owed ≤ 4096) × (folded_rule triangle.now ≡ true) }
    ensures { result ≡ ways_of (i - times * owed) j }
{
    pascal::ways(triangle, i.saturating_sub(times * owed), j)
}

// The working states of a line of i components with j failed: each failed one but the last is followed by `owed` that
// work.
fn apart(owed: usize, i: usize, j: usize, triangle: &[u64; pascal::ENTRIES]) -> u64
    requires { Lookup owed i j triangle.now }
    ensures { result ≡ apart_of owed i j }
{
    left(owed, i, j.saturating_sub(1), j, triangle)
}

// The working states of a ring: each failed one is followed by `owed` that work, or the ring's end falls among those
// that follow one, in one of `owed` ways.
fn ring(owed: usize, n: usize, j: usize, triangle: &[u64; pascal::ENTRIES]) -> u64
    requires { Lookup owed n j triangle.now × (owed < n) }
    ensures { result ≡ ring_of owed n j }
{
    if j == 0 {
        return 1;
    }
    left(owed, n, j, j, triangle) + owed as u64 * left(owed, n - 1, j, j - 1, triangle)
}

// Entry j of the count table.
fn entry(rule: Rule, n: usize, j: usize, triangle: &[u64; pascal::ENTRIES]) -> u64
    requires { Spread rule n × (j ≤ n) × (folded_rule triangle.now ≡ true) }
    ensures { result ≡ entry_of rule n j }
{
    if rule.kind <= kind::BETWEEN {
        if fails_at(rule, j as u64) {
            return 0;
        }
        return pascal::ways(triangle, n, j);
    }
    let owed = rule.second as usize - 1;
    if rule.kind == kind::NEAR {
        return apart(owed, n, j, triangle);
    }
    ring(owed, n, j, triangle)
}

// The entries 0 to n.
pub fn by_ways(rule: Rule, n: usize, room: &mut [u64])
    requires { Spread rule n × (n < length room.old) }
    ensures { Stored (entry_of rule n) 0 0 (suc n) room.old room.new }
{
    let triangle = pascal::table();
    for j in 0..=n {
        room[j] = entry(rule, n, j, &triangle);
    }
}
