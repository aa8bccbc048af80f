// Why something is refused: the cause, and the numbers that its form is filled with.
ghost use Rattle.std.specs.Prelude.{◌≡◌, ◌-◌, ◌≤◌, length};
ghost use Rattle.rules.specs.Refusal.{most};
ghost use Rattle.advice.specs.Words.{because};
ghost use Rattle.advice.specs.System.{one_why, weight_why, near_why, ring_why, range_why, above_from, weight_from};

use crate::cause::Cause;
use rules::{Rule, kind};

// A file's rule has no further pairs.
const NO_MORE: [u64; 0] = [];

#[derive(Clone, Copy)]
pub struct Why {
    pub cause: Cause,
    pub a: u64,
    pub b: u64,
    pub c: u64,
    pub d: u64,
}

pub fn because(cause: Cause, a: u64, b: u64, c: u64, d: u64) -> Why
    ensures { result ≡ because cause a b c d }
{
    Why { cause, a, b, c, d }
}

// A rule whose first number is out of range, or whose second one is not 0.
fn one_why(cause: Cause, first: u64, second: u64, most: u64) -> Why
    ensures { result ≡ one_why cause first second most }
{
    if second == 0 {
        return because(cause, first, most, most, 0);
    }
    because(Cause::SecondSet, second, most, 0, 0)
}

fn weight_why(first: u64, second: u64, total: u64) -> Why
    ensures { result ≡ weight_why first second total }
{
    if total == 0 {
        return because(Cause::NoWeight, 0, 0, 0, 0);
    }
    one_why(Cause::WeightOut, first, second, total)
}

fn near_why(first: u64, second: u64, n: u64) -> Why
    ensures { result ≡ near_why first second n }
{
    if refusals::outside(1, first, second) {
        return because(Cause::NearOut, first, second, 0, 0);
    }
    let needed = second - first + 1;
    let lacking = Rule {
        kind: kind::LACKING,
        first: needed,
        second,
    };
    if refusals::range_out(lacking, n, 0, &NO_MORE) {
        return because(Cause::NearOut, first, second, 0, 0);
    }
    because(Cause::NearLacking, first, second, needed, second)
}

fn ring_why(first: u64, second: u64, n: u64) -> Why
    ensures { result ≡ ring_why first second n }
{
    if n <= 1 {
        return because(Cause::RingOfOne, first, second, 0, 0);
    }
    because(Cause::RingOut, first, second, n, n)
}

// A rule whose numbers are out of range for so many fans of such a weight.
pub fn range_why(rule: Rule, n: u64, total: u64) -> Why
    ensures { result ≡ range_why rule n total }
{
    let asked = rule.kind;
    let first = rule.first;
    let second = rule.second;
    match asked {
        kind::NUMBER => one_why(Cause::NumberOut, first, second, n),
        kind::WEIGHT => weight_why(first, second, total),
        kind::BETWEEN => because(Cause::BetweenOut, first, second, n, n),
        kind::NEAR => near_why(first, second, n),
        kind::NEAR_ROUND => ring_why(first, second, n),
        kind::LACKING => because(Cause::LackingOut, first, second, n, n),
        _ => one_why(Cause::RunOut, first, second, n),
    }
}

// The first of the numbers from one place up to another that is above a limit; the place behind them where none is.
pub fn above_from(numbers: &[u32], from: usize, upto: usize, limit: u64) -> usize
    requires { (from ≤ upto) × (upto ≤ length numbers.now) }
    ensures is { result ≡ above_from limit numbers.now from (upto - from) }
    ensures within { result ≤ upto }
{
    for i in from..upto {
        if u64::from(numbers[i]) > limit {
            return i;
        }
    }
    upto
}

// What the fans from one place up to another weigh together.
pub fn weight_from(weights: &[u16], from: usize, upto: usize) -> u64
    requires { (from ≤ upto) × (upto ≤ length weights.now) × (length weights.now ≤ most) }
    ensures { result ≡ weight_from weights.now from (upto - from) }
{
    let mut sum: u64 = 0;
    for weight in &weights[from..upto] {
        sum += u64::from(*weight);
    }
    sum
}
