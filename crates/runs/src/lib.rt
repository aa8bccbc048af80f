// Kinds 4 and 5: low and high where k components in a row must not all fail.
//
// A component that works brings back the memory with no run, so of one lead only that memory is kept: its value with i
// components left stands at place i. Each value comes of the earlier ones by one run taken back. The table is all that
// a ring uses: one lead at a time, each written over the last.
#![tactic(auto)]

ghost use Rattle.std.specs.Prelude.{◌≡◌, suc, ◌-◌, min};
ghost use Rattle.rules.specs.Memory.{row4, row5};
ghost use Rattle.rules.specs.Figure.{figure_of};
ghost use Rattle.units.specs.Step.{whole};
ghost use Rattle.memory.specs.Run.{running};
ghost use Rattle.places.specs.Cells.{Both, Kept, Written, value_of};
ghost use Rattle.runs.specs.Runs.{Decidable, Falling, Fillable, Filled, Asked};

use memory::run::{Lead, Run};
use places::Ends;

// The place of a memory with no run.
fn place(m: Run, left: usize) -> usize
    requires { m.run ≡ 0 }
    ensures { result ≡ left }
{
    left + m.run
}

// A memory with no run works at the end, and its value stays the same as far as even the failure of all that is left
// cannot bring the lead to k. The answer is how far.
fn decide(decimal: bool, k: usize, free: Run, upto: usize, table: &mut [u64]) -> usize
    requires { Decidable k free upto table.old }
    ensures far { result ≡ min upto (k - 1 - free.lead) }
    ensures written { let count = suc (min upto (k - 1 - free.lead)) in
        Written (λ up i. whole decimal) count 0 table.old table.new }
{
    let last = upto.min(k - 1 - free.lead);
    let ends = places::end_value(decimal, free.works(k));
    for left in 0..=last {
        places::write(table, left, ends);
    }
    last
}

// The value of a memory with no run with `upto` left: back over a run that ends dead, or past the last component and
// too long with its lead. Any component of the run may work instead.
fn back(decimal: bool, k: usize, free: Run, upto: usize, survival: &[u32], table: &[u64]) -> Ends
    requires { Falling (whole decimal) k free upto survival.now table.now }
    ensures { Both (λ up. value_of (whole decimal) (running k) survival.now free up upto) result }
{
    let from = upto.saturating_sub(k);
    let mut hand = Run {
        lead: free.lead,
        run: upto - from,
    };
    let mut ends = places::end_value(decimal, false);
    for i in from..upto {
        let m = hand.before();
        let p = places::chance(survival, i);
        ends = places::step(
            decimal,
            p,
            p.failure(decimal),
            places::read(table, place(m.worked(), i)),
            places::at_hand(m.failed().run, hand.run, ends),
        );
        hand = m;
    }
    ends
}

// The values of a memory with no run, with 0 to `upto` components left.
fn fill(decimal: bool, k: usize, free: Run, upto: usize, survival: &[u32], table: &mut [u64])
    requires { Fillable (whole decimal) k free upto survival.now table.old }
    ensures { let read = survival.now in
        Filled (whole decimal) k free upto read table.old table.new }
{
    let known = decide(decimal, k, free, upto, table);
    for left in known..upto {
        let ends = back(decimal, k, free, left + 1, survival, table);
        places::write(table, left + 1, ends);
    }
}

// Kind 4.
pub fn line(decimal: bool, k: usize, survival: &[u32], table: &mut [u64]) -> Ends
    requires { Asked (whole decimal) k survival.now table.old }
    ensures figure { Both (λ up. figure_of (row4 k) up (whole decimal) survival.now) result }
    ensures kept { Kept table.old table.new }
{
    let n = survival.len();
    let free = Run::start();
    fill(decimal, k, free, n, survival, table);
    places::read(table, place(free, n))
}

// Kind 5: the lead, dead with k components read, taken back to none. A component that works closes it.
pub fn ring(decimal: bool, k: usize, survival: &[u32], table: &mut [u64]) -> Ends
    requires { Asked (whole decimal) k survival.now table.old }
    ensures figure { Both (λ up. figure_of (row5 k) up (whole decimal) survival.now) result }
    ensures kept { Kept table.old table.new }
{
    let n = survival.len();
    let mut hand = Lead { lead: k };
    let mut opened = places::end_value(decimal, hand.works(k));
    for i in n - k..n {
        let m = hand.before();
        let free = m.worked();
        fill(decimal, k, free, i, survival, table);
        let p = places::chance(survival, i);
        opened = places::step(
            decimal,
            p,
            p.failure(decimal),
            places::read(table, place(free, i)),
            places::at_hand(m.failed().lead, hand.lead, opened),
        );
        hand = m;
    }
    opened
}
