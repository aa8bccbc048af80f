// Kind 8: low and high where each window must hold enough working ones.
//
// The value of a pattern stands at the place of that number, on one side with so many components left, on the other
// with one more. A pattern and the same with its oldest state failed go on alike, since that state is forgotten next:
// so each pattern is worked together with its older one. Only those that live are, and only those that can be reached
// with so many components read. They are sorted once, by which of the two must work.
#![tactic(auto)]

mod groups; // groups.rt: the patterns that live, by which of the two must work
mod pairs; // pairs.rt: what the pairs ask of a pattern
mod row; // row.rt: one component more

ghost use Rattle.rules.specs.Memory.{row8};
ghost use Rattle.rules.specs.Pairs.{pairs_of};
ghost use Rattle.rules.specs.Figure.{figure_of};
ghost use Rattle.units.specs.Step.{whole};
ghost use Rattle.places.specs.Cells.{Both, Kept};
ghost use Rattle.windows.specs.Asked.{Asked};

use places::Ends;

// At `from` stand the values with `left` components left.
#[derive(Clone, Copy)]
pub struct Level {
    pub left: usize,
    pub from: usize,
}

// Low and high of a list.
pub fn rate(
    decimal: bool,
    first: u64,
    second: u64,
    more: &[u64],
    survival: &[u32],
    table: &mut [u64],
) -> Ends
    requires { Asked (whole decimal) first second more.now survival.now table.old }
    ensures figure { let row = row8 (pairs_of first second more.now) in
        Both (λ up. figure_of row up (whole decimal) survival.now) result }
    ensures kept { Kept table.old table.new }
{
    let n = survival.len();
    let oldest = pairs::oldest(second, more);
    row::start(decimal, 2 * oldest, table);
    groups::sort(first, second, more, oldest, table);
    let mut s = Level { left: 0, from: 0 };
    for _ in 0..n {
        s = row::turn(decimal, oldest, survival, s, table);
    }
    places::read(table, s.from)
}
