// The memory that owes nothing: working it stays, and a failed component makes it owe.
ghost use Rattle.std.specs.Prelude.{◌+◌, ◌-◌, get_or};
ghost use Rattle.rules.specs.Figure.{rounded, mixed};
ghost use Rattle.units.specs.Step.{whole};
ghost use Rattle.places.specs.Cells.{Both, Put, one};
ghost use Rattle.gaps.specs.Gaps.{Begun, Bringable, Onward, Payable, Reachable, Reached, Stepping};

use crate::{Known, owed};
use memory::owed::Owed;
use places::Ends;

// With no components left.
pub fn begin(decimal: bool, r: usize, free: Owed, survival: &[u32], table: &mut [u64]) -> Known
    requires { Begun (whole decimal) r free survival.now table.old }
    ensures { let u = whole decimal in
        let read = survival.now in
        Reached u r free.clean 0 read table.old table.new result }
{
    places::write(table, 0, places::end_value(decimal, free.works()));
    Known { free, left: 0 }
}

// One component more, out of the value at hand, which a working one leaves, and the one where it fails.
fn more(
    decimal: bool,
    free: Owed,
    survival: &[u32],
    i: usize,
    hand: Ends,
    fails: Ends,
    table: &mut [u64],
) -> Ends
    requires { Stepping (whole decimal) free i survival.now hand fails table.old }
    ensures step { let u = whole decimal in
        let p = get_or survival.now i 0 in
        Both (λ up. rounded up u (mixed u p (one up hand) (one up fails))) result }
    ensures put { Put (i + 1) result table.old table.new }
{
    let works = places::at_hand(free.worked().owed, free.owed, hand);
    let p = places::chance(survival, i);
    let ends = places::step(decimal, p, p.failure(decimal), works, fails);
    places::write(table, i + 1, ends);
    ends
}

// As far as no debt goes back further than the components' end.
fn reach_cut(
    decimal: bool,
    r: usize,
    s: Known,
    upto: usize,
    survival: &[u32],
    table: &mut [u64],
) -> Known
    requires { Reachable (whole decimal) r s upto survival.now table.old }
    ensures { let u = whole decimal in
        let read = survival.now in
        Onward u r s.free.clean upto read table.old table.new result }
{
    let free = s.free;
    let m = free.failed(r);
    let last = upto.min(r).max(s.left);
    let mut hand = places::read(table, s.left);
    for left in s.left..last {
        let fails = owed::cut_short(decimal, m, left, table);
        hand = more(decimal, free, survival, left, hand, fails, table);
    }
    Known { free, left: last }
}

// From there on every debt is paid.
fn reach_paid(
    decimal: bool,
    r: usize,
    s: Known,
    upto: usize,
    survival: &[u32],
    table: &mut [u64],
) -> Known
    requires { Payable (whole decimal) r s upto survival.now table.old }
    ensures { let u = whole decimal in
        let read = survival.now in
        Reached u r s.free.clean upto read table.old table.new result }
{
    let free = s.free;
    let m = free.failed(r);
    let mut hand = places::read(table, s.left);
    for left in s.left..upto {
        let fails = owed::paid(decimal, r, m, left, survival, table);
        hand = more(decimal, free, survival, left, hand, fails, table);
    }
    Known { free, left: upto }
}

// On to `upto` components left.
pub fn reach(
    decimal: bool,
    r: usize,
    s: Known,
    upto: usize,
    survival: &[u32],
    table: &mut [u64],
) -> Known
    requires { Reachable (whole decimal) r s upto survival.now table.old }
    ensures { let u = whole decimal in
        let read = survival.now in
        Reached u r s.free.clean upto read table.old table.new result }
{
    let cut = reach_cut(decimal, r, s, upto, survival, table);
    reach_paid(decimal, r, cut, upto, survival, table)
}

// As far as m, which has just met a failed component with i left, needs what it comes to: gone on with, or begun anew.
pub fn bring(
    decimal: bool,
    r: usize,
    s: Known,
    m: Owed,
    i: usize,
    survival: &[u32],
    table: &mut [u64],
) -> Known
    requires { Bringable (whole decimal) r s m i survival.now table.old }
    ensures { let u = whole decimal in
        let read = survival.now in
        Reached u r m.clean (i - m.owed) read table.old table.new result }
{
    let upto = i.saturating_sub(m.owed);
    let free = s.free;
    if free.clean == m.clean {
        if s.left == upto {
            return s;
        }
        return reach(decimal, r, s, upto, survival, table);
    }
    let anew = begin(decimal, r, m.worked_many(m.owed), survival, table);
    reach(decimal, r, anew, upto, survival, table)
}
