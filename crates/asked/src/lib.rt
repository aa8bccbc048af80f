// What is asked of a rating: its refusals, the first that applies.
#![tactic(auto)]

ghost use Rattle.std.specs.Prelude.{◌≡◌, false, ◌≤◌, length};
ghost use Rattle.rules.specs.State.{S};
ghost use Rattle.rules.specs.Asked.{asked_with};
ghost use Rattle.rules.specs.Refusal.{bad_stretch, some_above, above_unit, figures_refusal, refusal_in};
ghost use Rattle.asked.specs.Parts.{rated_of, place_refusal, lists_refusal, part_refusal};

use rules::limit::CELLS;
use rules::refusal::Refusal;
use rules::{Question, RatedLists, Rule, kind};

// Refusal 3.
pub fn stretch_out(a: u64, b: u64, n: u64) -> bool
    ensures { result ≡ bad_stretch a b n }
{
    if a == 0 {
        return true;
    }
    if b < a {
        return true;
    }
    n < b
}

// Is a number above the unit? Every one is looked at, so that the compiler can look at several at once.
fn above_unit(all: u64, survival: &[u32]) -> bool
    requires { all ≤ S }
    ensures { result ≡ some_above all survival.now }
{
    let most = all as u32;
    let mut above = false;
    for number in survival {
        if most < *number {
            above = true;
        }
    }
    above
}

// The weights of the components rated, which only kind 2 has.
pub fn rated_weights(rule: Rule, n: usize, weights: &[u16], a: u64, b: u64) -> &[u16]
    requires { bad_stretch a b n ≡ false }
    ensures { result.now ≡ rated_of rule n weights.now a b }
{
    if rule.kind != kind::WEIGHT {
        return &weights[0..0];
    }
    if weights.len() != n {
        return &weights[0..0];
    }
    let from = a as usize - 1;
    let upto = b as usize;
    &weights[from..upto]
}

// Refusals 1, 2 and 3 of a list of n, the first that applies.
pub fn place_refusal(rule: Rule, a: u64, b: u64, n: u64) -> Result<(), Refusal>
    ensures { refusal_in result ≡ place_refusal rule a b n }
{
    if refusals::kind_out(rule) {
        return Err(Refusal::Kind);
    }
    if refusals::size_out(n) {
        return Err(Refusal::Size);
    }
    if stretch_out(a, b, n) {
        return Err(Refusal::Stretch);
    }
    Ok(())
}

// Refusal 4, of the components rated and of the boards.
fn numbers_out(all: u64, survival: &[u32], own: &[u32]) -> bool
    requires { all ≤ S }
    ensures { result ≡ above_unit all survival.now own.now }
{
    if above_unit(all, survival) {
        return true;
    }
    above_unit(all, own)
}

// Refusals 5 and 6 of a stretch that lies in a list of n.
pub fn part_refusal(
    rule: Rule,
    a: u64,
    b: u64,
    n: usize,
    weights: &[u16],
    more: &[u64],
) -> Result<(), Refusal>
    requires { place_refusal rule a b n ≡ 0 }
    ensures { refusal_in result ≡ part_refusal rule a b n weights.now more.now }
{
    let from = a as usize - 1;
    let upto = b as usize;
    let rated = rated_weights(rule, n, weights, a, b);
    refusals::rated_refusal(
        rule,
        n as u64,
        weights.len() as u64,
        (upto - from) as u64,
        rated,
        more,
    )
}

// Refusals 20, 21 and 4 of a stretch that lies in the list: the boards' lists, then every survival number that is read.
fn lists_refusal(question: Question, lists: &RatedLists) -> Result<(), Refusal>
    requires { bad_stretch question.a question.b (length lists.now.survival.now) ≡ false }
    ensures { let read = lists.now in
        refusal_in result ≡ lists_refusal question read.survival.now read.boards.now read.switchboards.now }
{
    let version = question.version;
    let from = question.a as usize - 1;
    let upto = question.b as usize;
    let n = lists.survival.len();
    let g = lists.switchboards.len() as u64;
    board_lists::refusal(version, n, g, lists.boards, from, upto)?;
    let own = board_lists::numbers_read(version, lists.switchboards);
    let all = units::whole(units::is_decimal(version));
    if numbers_out(all, &lists.survival[from..upto], own) {
        return Err(Refusal::Survival);
    }
    Ok(())
}

// Refusals 11, then 1 to 7 with 20 and 21 before 4, the first that applies.
pub fn refusal(question: Question, lists: &RatedLists, table: &[u64]) -> Result<(), Refusal>
    ensures { let q = asked_with question lists.now in
        refusal_in result ≡ figures_refusal q table.now }
{
    if refusals::version_out(question.version) {
        return Err(Refusal::Version);
    }
    let rule = question.rule;
    let n = lists.survival.len();
    place_refusal(rule, question.a, question.b, n as u64)?;
    lists_refusal(question, lists)?;
    part_refusal(rule, question.a, question.b, n, lists.weights, lists.more)?;
    if table.len() < CELLS {
        return Err(Refusal::Table);
    }
    Ok(())
}
