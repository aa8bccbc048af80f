// Kinds 6 and 7: low and high where any r components in a row may hold one failed one at most.
//
// A failed component owes r - 1 working ones, and paid off the memory owes nothing again. So past one number of clean
// ones only the memory that owes nothing is kept: its value with i components left stands at place i. Where a debt goes
// back as far as the components' end, what stands in the second half of the places serves every number of clean ones;
// past it stand the shares of the components' numbers. The table is all that a ring uses: one number of clean ones at a
// time.
#![tactic(auto)]

mod free; // free.rt: the memory that owes nothing, known for more and more components left
mod owed; // owed.rt: memories that owe

ghost use Rattle.rules.specs.Memory.{row6, row7};
ghost use Rattle.rules.specs.Figure.{figure_of};
ghost use Rattle.units.specs.Step.{whole};
ghost use Rattle.places.specs.Cells.{Both, Kept};
ghost use Rattle.gaps.specs.Gaps.{Asked, Closable, closed_value};

use memory::owed::{Clean, Owed};
use places::Ends;

// The memory that owes nothing past so many clean ones, known with up to `left` components left.
#[derive(Clone, Copy)]
pub struct Known {
    pub free: Owed,
    pub left: usize,
}

// Kind 6.
pub fn line(decimal: bool, r: usize, survival: &[u32], table: &mut [u64]) -> Ends
    requires { Asked (whole decimal) r survival.now table.old }
    ensures figure { Both (λ up. figure_of (row6 r) up (whole decimal) survival.now) result }
    ensures kept { Kept table.old table.new }
{
    let n = survival.len();
    owed::settle(decimal, r, survival, table);
    let known = free::begin(decimal, r, Owed::start(r), survival, table);
    free::reach(decimal, r, known, n, survival, table);
    places::read(table, n)
}

// The open clean ones with one component more: where it fails, m closes them.
fn one_more(
    decimal: bool,
    r: usize,
    m: Owed,
    i: usize,
    survival: &[u32],
    works: Ends,
    table: &[u64],
) -> Ends
    requires { Closable (whole decimal) r m i survival.now works table.now }
    ensures { Both (closed_value (whole decimal) r m i survival.now works) result }
{
    let fails = owed::past(decimal, r, m, i, survival, table);
    let p = places::chance(survival, i);
    places::step(decimal, p, p.failure(decimal), works, fails)
}

// The same, with the unit known to the compiler in each arm, so that no loop asks for it.
fn close(
    decimal: bool,
    r: usize,
    m: Owed,
    i: usize,
    survival: &[u32],
    works: Ends,
    table: &[u64],
) -> Ends
    requires { Closable (whole decimal) r m i survival.now works table.now }
    ensures { Both (closed_value (whole decimal) r m i survival.now works) result }
{
    if decimal {
        return one_more(true, r, m, i, survival, works, table);
    }
    one_more(false, r, m, i, survival, works, table)
}

// Kind 7: the clean ones, from all n taken back to none. A component that fails closes them.
pub fn ring(decimal: bool, r: usize, survival: &[u32], table: &mut [u64]) -> Ends
    requires { Asked (whole decimal) r survival.now table.old }
    ensures figure { Both (λ up. figure_of (row7 r) up (whole decimal) survival.now) result }
    ensures kept { Kept table.old table.new }
{
    let n = survival.len();
    owed::settle(decimal, r, survival, table);
    let mut known = free::begin(decimal, r, Owed::start(r), survival, table);
    let mut hand = Clean::after(n, r);
    let mut ends = places::end_value(decimal, hand.works());
    for i in 0..n {
        let clean = Clean::after(n - i - 1, r);
        let m = clean.failed(r);
        known = free::bring(decimal, r, known, m, i, survival, table);
        let works = places::at_hand(clean.worked(r).clean, hand.clean, ends);
        ends = close(decimal, r, m, i, survival, works, table);
        hand = clean;
    }
    ends
}
