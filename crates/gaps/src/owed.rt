// Memories that owe: each component must work until the debt is paid.
ghost use Rattle.std.specs.Prelude.{cond, ◌+◌, ◌-◌, ◌≤◌};
ghost use Rattle.memory.specs.Owed.{owed, owing, owed_works};
ghost use Rattle.units.specs.Step.{whole};
ghost use Rattle.places.specs.Cells.{Both, Kept, Place, Workable, cell_at, value_of};
ghost use Rattle.places.specs.Map.{half};
ghost use Rattle.gaps.specs.Gaps.{Asked, Due, Owing, Passable, Settled, Shared};

use memory::owed::Owed;
use places::Ends;
use places::map::{HALF, SHARES};
use units::debt;

// The value of the memory before the one at hand, which owes one more: where the component works that one is left, and
// where it fails the memory is dead.
fn must_work(
    decimal: bool,
    r: usize,
    hand: Owed,
    i: usize,
    survival: &[u32],
    ends: Ends,
    table: &[u64],
) -> Ends
    requires { Due (whole decimal) r hand i survival.now ends table.now }
    ensures { let m = owed hand.clean (hand.owed + 1) in
        Both (λ up. value_of (whole decimal) (owing r) survival.now m up (i + 1)) result }
{
    let m = hand.before();
    let works = places::at_hand(m.worked().owed, hand.owed, ends);
    let p = places::chance(survival, i);
    let shares = places::read_shares(table, SHARES + i);
    places::step_owed(decimal, p, p.failure(decimal), shares, works)
}

// Back over components that must all work, from the memory m with `from` left.
fn back(
    decimal: bool,
    r: usize,
    m: Owed,
    from: usize,
    upto: usize,
    survival: &[u32],
    end: Ends,
    table: &[u64],
) -> Ends
    requires { Owing (whole decimal) r m from upto survival.now end table.now }
    ensures { let due = owed m.clean (m.owed + (upto - from)) in
        Both (λ up. value_of (whole decimal) (owing r) survival.now due up upto) result }
{
    let mut hand = m;
    let mut ends = end;
    for i in from..upto {
        ends = must_work(decimal, r, hand, i, survival, ends, table);
        hand = hand.before();
    }
    ends
}

// The shares of every component's P and Q, from place SHARES on, where they are asked for.
fn prepare(decimal: bool, survival: &[u32], table: &mut [u64])
    requires { Workable (whole decimal) survival.now table.old }
    ensures shared { Shared (whole decimal) survival.now table.new }
    ensures kept { Kept table.old table.new }
{
    let unit = units::whole(decimal);
    if !units::by_shares(unit) {
        return;
    }
    for i in 0..survival.len() {
        let p = places::chance(survival, i);
        let shares = debt::deal(unit, p, p.failure(decimal));
        places::write_shares(table, SHARES + i, shares);
    }
}

// The value of a memory that owes as many as are left, from place HALF on, and the shares.
pub fn settle(decimal: bool, r: usize, survival: &[u32], table: &mut [u64])
    requires { Asked (whole decimal) r survival.now table.old }
    ensures settled { Settled (whole decimal) r survival.now table.new }
    ensures kept { Kept table.old table.new }
{
    prepare(decimal, survival, table);
    let last = survival.len().min(r - 1);
    let mut hand = Owed { clean: 0, owed: 0 };
    let mut ends = places::end_value(decimal, hand.works());
    places::write(table, HALF, ends);
    for i in 0..last {
        ends = must_work(decimal, r, hand, i, survival, ends, table);
        hand = hand.before();
        places::write(table, HALF + i + 1, ends);
    }
}

// A debt that the components' end cuts short, or just pays: as many work as are left, and the clean ones must make up
// for the rest.
pub fn cut_short(decimal: bool, m: Owed, i: usize, table: &[u64]) -> Ends
    requires { Place (half + i) table.now × (i ≤ m.owed) }
    ensures { let works = owed_works (owed m.clean (m.owed - i)) in
        Both (λ up. cond works (cell_at table.now up (half + i)) 0) result }
{
    let last = m.worked_many(i);
    if last.works() {
        return places::read(table, HALF + i);
    }
    places::end_value(decimal, false)
}

// A debt that is paid with i components left.
pub fn paid(decimal: bool, r: usize, m: Owed, i: usize, survival: &[u32], table: &[u64]) -> Ends
    requires { Passable (whole decimal) r m i survival.now table.now × (m.owed ≤ i) }
    ensures { Both (λ up. value_of (whole decimal) (owing r) survival.now m up i) result }
{
    let from = i - m.owed;
    let free = m.worked_many(m.owed);
    back(
        decimal,
        r,
        free,
        from,
        i,
        survival,
        places::read(table, from),
        table,
    )
}

// The value with i components left of a memory that has just met a failed one.
pub fn past(decimal: bool, r: usize, m: Owed, i: usize, survival: &[u32], table: &[u64]) -> Ends
    requires { Passable (whole decimal) r m i survival.now table.now }
    ensures { Both (λ up. value_of (whole decimal) (owing r) survival.now m up i) result }
{
    if i <= m.owed {
        return cut_short(decimal, m, i, table);
    }
    paid(decimal, r, m, i, survival, table)
}
