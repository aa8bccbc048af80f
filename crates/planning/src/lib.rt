// The rating that the planning office asks for in floats: low of the whole numbers just below its chances, high of
// those just above.
#![tactic(auto)]

ghost use Rattle.std.specs.Prelude.{◌≡◌, false, replicate};
ghost use Rattle.rules.specs.Refusal.{cells, refusal_in};
ghost use Rattle.rules.specs.Doubles.{no_chance, some_off, off_grid, planned_of, asked_in, planned_refusal, planned_rating};
ghost use Rattle.doubles.specs.Floats.{bits_of};
ghost use Rattle.stretches.specs.Outcome.{Worked};
ghost use Rattle.planning.specs.Outcome.{Room, Filled, Answered, Rated};

use places::Ends;
use rules::limit::{CELLS, FANS};
use rules::refusal::Refusal;
use rules::{Question, RatedLists, Rating, Rule, kind, version};

// Version 1, whose unit is 2^30, has no boards.
const NO_BOARDS: [u8; 0] = [];

const NO_BOARD_SURVIVAL: [u32; 0] = [];

// Refusal 18.
fn outside(floats: &[f64]) -> bool
    ensures { result ≡ no_chance (bits_of floats.now) }
{
    floats.iter().any(|float| !doubles::is_chance(*float))
}

// Is some chance off the grid?
fn some_off(floats: &[f64]) -> bool
    requires { no_chance (bits_of floats.now) ≡ false }
    ensures { result ≡ some_off (bits_of floats.now) }
{
    for float in floats {
        if !doubles::on_grid(*float) {
            return true;
        }
    }
    false
}

// Refusal 19.
fn off_grid(rule: Rule, floats: &[f64]) -> bool
    requires { no_chance (bits_of floats.now) ≡ false }
    ensures { result ≡ off_grid rule (bits_of floats.now) }
{
    if rule.kind != kind::BETWEEN {
        return false;
    }
    some_off(floats)
}

// Refusals 1, 2, 3, 18, 5, 6, 19, 7, the first that applies.
fn refusal(
    rule: Rule,
    a: u64,
    b: u64,
    survival: &[f64],
    weights: &[u16],
    more: &[u64],
    table: &[u64],
) -> Result<(), Refusal>
    ensures { let q = planned_of rule a b (bits_of survival.now) weights.now more.now in
        refusal_in result ≡ planned_refusal q table.now }
{
    let n = survival.len();
    asked::place_refusal(rule, a, b, n as u64)?;
    let from = a as usize - 1;
    let upto = b as usize;
    let floats = &survival[from..upto];
    if outside(floats) {
        return Err(Refusal::Chance);
    }
    asked::part_refusal(rule, a, b, n, weights, more)?;
    if off_grid(rule, floats) {
        return Err(Refusal::Grid);
    }
    if table.len() < CELLS {
        return Err(Refusal::Table);
    }
    Ok(())
}

// The whole numbers just below the floats, or just above, from a place on, and zeros beside them.
fn numbers_of(up: bool, from: usize, floats: &[f64]) -> [u32; FANS]
    requires { Room from floats.now }
    ensures { Filled up from floats.now result }
{
    let mut numbers = [0u32; FANS];
    for (i, float) in floats.iter().enumerate() {
        numbers[from + i] = doubles::whole(up, *float) as u32;
    }
    numbers
}

// Low and high of the lower list, or of the upper. The floats outside the stretch are not read.
fn rate_list(
    up: bool,
    rule: Rule,
    a: u64,
    b: u64,
    survival: &[f64],
    weights: &[u16],
    more: &[u64],
    table: &mut [u64],
) -> Ends
    requires { let q = planned_of rule a b (bits_of survival.now) weights.now more.now in
        planned_refusal q table.old ≡ 0 }
    ensures { let q = planned_of rule a b (bits_of survival.now) weights.now more.now in
        Worked (asked_in up q) table.old table.new result }
{
    let n = survival.len();
    let from = a as usize - 1;
    let upto = b as usize;
    let numbers = numbers_of(up, from, &survival[from..upto]);
    let question = Question {
        version: version::FIRST,
        rule,
        a,
        b,
    };
    let lists = RatedLists {
        survival: &numbers[..n],
        weights,
        more,
        boards: &NO_BOARDS,
        switchboards: &NO_BOARD_SURVIVAL,
    };
    stretches::work(question, &lists, table)
}

// The rating of the stretch from component a to component b: low of the lower list and high of the upper. The table is
// left as it was worked. Low and high enclose the exact sum over the floats' own values: `planned-answers` of
// rules/proofs/Doubles.
pub fn rate(
    rule: Rule,
    a: u64,
    b: u64,
    survival: &[f64],
    weights: &[u16],
    more: &[u64],
    table: &mut [u64],
) -> Rating
    ensures { let q = planned_of rule a b (bits_of survival.now) weights.now more.now in
        Answered q table.old table.new result }
{
    if let Err(refused) = refusal(rule, a, b, survival, weights, more, table) {
        return Rating::Refused(refused.number());
    }
    let lower = rate_list(false, rule, a, b, survival, weights, more, table);
    let upper = rate_list(true, rule, a, b, survival, weights, more, table);
    let low = lower.low;
    let high = upper.high;
    Rating::Range { low, high }
}

// The same in a lent table, which is handed back clear.
pub fn planned(
    rule: Rule,
    a: u64,
    b: u64,
    survival: &[f64],
    weights: &[u16],
    more: &[u64],
    table: &mut [u64],
) -> Rating
    ensures { let q = planned_of rule a b (bits_of survival.now) weights.now more.now in
        Rated q table.old table.new result }
{
    let rating = rate(rule, a, b, survival, weights, more, table);
    stretches::clear(stretches::is_range(rating), table);
    rating
}

// The same in a working table of the call's own, which nobody sees after it and nobody clears.
pub fn answer(rule: Rule, a: u64, b: u64, survival: &[f64], weights: &[u16], more: &[u64]) -> Rating
    ensures { let q = planned_of rule a b (bits_of survival.now) weights.now more.now in
        result ≡ planned_rating q (replicate cells 0) }
{
    let mut table = [0u64; CELLS];
    rate(rule, a, b, survival, weights, more, &mut table)
}
