// The fans that are worth most, named.
ghost use Rattle.std.specs.Prelude.{◌≤◌, ◌<◌, length};
ghost use Rattle.forms.specs.Within.{Within};
ghost use Rattle.drawn.specs.Drawn.{most_drawn};

use crate::fitted;
use drawn::{Shape, Worths};
use rules::limit::FANS;

// So many are named.
const NAMED: u64 = 5;

// The fans that are not to be named: those outside the stretch.
fn outside(shape: Shape) -> [bool; FANS] {
    let mut passed = [false; FANS];
    for (i, over) in passed.iter_mut().enumerate() {
        let fan = i as u64 + 1;
        *over = fan < shape.from || shape.upto < fan;
    }
    passed
}

// Is a worth above another? By its upper end, then by its lower.
fn above(lower: i64, upper: i64, other_lower: i64, other_upper: i64) -> bool {
    if upper != other_upper {
        return upper > other_upper;
    }
    lower > other_lower
}

// Is the fan at a place to be named before the best so far?
fn before(worths: Worths, i: usize, best: usize) -> bool
    requires { (i < most_drawn) × (best ≤ most_drawn) }
{
    if best == FANS {
        return true;
    }
    let lower = worths.lower;
    let upper = worths.upper;
    above(lower[i], upper[i], lower[best], upper[best])
}

// The better of the best so far and the fan at a place, where that is not passed over.
fn better_of(worths: Worths, passed: bool, i: usize, best: usize) -> usize
    requires { (i < most_drawn) × (best ≤ most_drawn) }
    ensures { result ≤ most_drawn }
{
    if passed {
        return best;
    }
    if before(worths, i, best) {
        return i;
    }
    best
}

// The first of those worth most that are not passed over; FANS where none is left.
fn next_best(worths: Worths, passed: [bool; FANS]) -> usize
    ensures { result ≤ most_drawn }
{
    let mut best = FANS;
    for (i, over) in passed.iter().enumerate() {
        best = better_of(worths, *over, i, best);
    }
    best
}

// The fan at a place and the ends of its worth, as deckworth has them.
fn put_fan(worths: Worths, i: usize, out: &mut [u8], at: usize) -> usize
    requires within { i < most_drawn }
    requires room { at ≤ length out.old }
    ensures { Within result out.new }
{
    let lower = worths.lower;
    let upper = worths.upper;
    let named = text::put_named(b"<li>fan ", i as u64 + 1, out, at);
    let ends = fitted::put_ends(lower[i], upper[i], out, named);
    text::put(out, ends, b"</li>")
}

// Those of the fans that are worth most, or of as many as there are.
fn put_fans(shape: Shape, worths: Worths, out: &mut [u8], at: usize) -> usize
    requires { at ≤ length out.old }
    ensures { Within result out.new }
{
    let mut passed = outside(shape);
    let mut end = at;
    for _ in 0..NAMED {
        let best = next_best(worths, passed);
        if best == FANS {
            return end;
        }
        end = put_fan(worths, best, out, end);
        passed[best] = true;
    }
    end
}

// The list of the five fans that are worth most.
pub fn put_best(shape: Shape, worths: Worths, out: &mut [u8], at: usize) -> usize
    requires { at ≤ length out.old }
    ensures { Within result out.new }
{
    let list = text::put(out, at, b"<ol>");
    let fans = put_fans(shape, worths, out, list);
    text::put(out, fans, b"</ol>\n")
}
