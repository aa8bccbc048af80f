// The patterns that live, in four lists behind the places: those of which the older one may fail too, those of which it
// must work, those that must work themselves, and of these the ones whose older one is dead. A list begins with how
// many it holds.
ghost use Rattle.std.specs.Prelude.{◌≡◌, ◌+◌, ◌<◌};
ghost use Rattle.rules.specs.Pairs.{pairs_of};
ghost use Rattle.windows.specs.Asked.{Judged};
ghost use Rattle.windows.specs.Groups.{Appended, Cut, Listable, Listables, Markable, MarkedTwo, Placed};
ghost use Rattle.windows.specs.Groups.{Sortable, Sorted, Sorting, Trimmed, TrimmedAll, list_at, list_of};

use crate::pairs;
use memory::pattern::Pattern;
use places::map::{ALONE, BOUND, FREE, MARKS, SPLIT};

// The list of the patterns that must work or not, and whose older ones are worse off or not: where a pattern may fail,
// an older one that is worse off must work; where it must work, that one is dead.
pub fn list_at(must: bool, worse: bool) -> usize
    ensures { result ≡ list_at must worse }
{
    if must {
        if worse {
            return ALONE;
        }
        return BOUND;
    }
    if worse {
        return SPLIT;
    }
    FREE
}

// The list of a pattern that must work or not, by its older one.
fn list_of(first: u64, second: u64, more: &[u64], must: bool, old: Pattern) -> usize
    requires { Judged second more.now old }
    ensures { result ≡ list_of (pairs_of first second more.now) must old.bits }
{
    if must {
        return list_at(true, pairs::lacks(first, second, more, old));
    }
    list_at(false, pairs::dies(first, second, more, old))
}

// A pattern put at the end of a list.
fn append(at: usize, x: usize, table: &mut [u64])
    requires { Listable at table.old }
    ensures { Appended at x table.old table.new }
{
    let count = table[at];
    table[at + 1 + count as usize] = x as u64;
    table[at] = count + 1;
}

// The marks of the two patterns that follow m.
fn mark(m: Pattern, works: bool, fails: bool, table: &mut [u64])
    requires { Markable m.bits table.old }
    ensures { MarkedTwo m.bits works fails table.old table.new }
{
    let working = MARKS + m.worked().bits;
    let failing = MARKS + m.failed().bits;
    table[working] = u64::from(works);
    table[failing] = u64::from(fails);
}

// One pattern more: put into its list where it lives, and what follows it marked.
fn place(first: u64, second: u64, more: &[u64], oldest: usize, x: usize, table: &mut [u64])
    requires { Sorting first second more.now oldest x table.old }
    ensures { Placed first second more.now (x + 1) table.old table.new }
{
    let young = Pattern { bits: x };
    if table[MARKS + x] == 0 {
        mark(young, false, false, table);
        return;
    }
    let must = pairs::dies(first, second, more, young);
    mark(young, true, !must, table);
    append(
        list_of(first, second, more, must, young.older(oldest)),
        x,
        table,
    );
}

// All patterns without the oldest state.
pub fn sort(first: u64, second: u64, more: &[u64], oldest: usize, table: &mut [u64])
    requires { Sortable first second more.now oldest table.old }
    ensures { Sorted first second more.now oldest table.old table.new }
{
    table[MARKS] = 1;
    table[FREE] = 0;
    table[SPLIT] = 0;
    table[BOUND] = 0;
    table[ALONE] = 0;
    for x in 0..oldest {
        place(first, second, more, oldest, x, table);
    }
}

// How many of a list are below `reach`.
fn below(at: usize, reach: usize, table: &[u64]) -> usize
    requires { Listable at table.now }
    ensures { Cut at reach table.now result }
{
    for c in (0..table[at] as usize).rev() {
        if (table[at + 1 + c] as usize) < reach {
            return c + 1;
        }
    }
    0
}

// A list cut to those below `reach`.
fn trim(at: usize, reach: usize, table: &mut [u64])
    requires { Listable at table.old }
    ensures { Trimmed at reach table.old table.new }
{
    table[at] = below(at, reach, table) as u64;
}

// All of them, where not every pattern can be reached any more.
pub fn trim_all(reach: usize, oldest: usize, table: &mut [u64])
    requires { Listables oldest table.old }
    ensures { TrimmedAll reach oldest table.old table.new }
{
    if oldest <= reach {
        return;
    }
    trim(FREE, reach, table);
    trim(SPLIT, reach, table);
    trim(BOUND, reach, table);
    trim(ALONE, reach, table);
}
