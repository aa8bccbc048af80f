// The refusals that several calls share: 11, 1, 2, 5 and 6 of document 01's table; and 15, which asks for the kind too.
#![tactic(auto)]

mod pairs; // pairs.rt: kind 8's pairs

ghost use Rattle.std.specs.Prelude.{not, ◌≡◌, ◌≤◌, length};
ghost use Rattle.rules.specs.Below.{total, within};
ghost use Rattle.rules.specs.Refusal.{most, bad_version, bad_kind, not_counted, bad_size, range_one, range_two, ranged, refusal_in};
ghost use Rattle.refusals.specs.Shared.{rated_refusal, rule_refusal};

use rules::refusal::Refusal;
use rules::{Rule, kind, limit};

// The most components of a list.
const MOST: u64 = limit::FANS as u64;

// Is x outside a range, whose ends belong to it?
pub fn outside(low: u64, x: u64, high: u64) -> bool
    ensures { result ≡ not (within low x high) }
{
    if x < low {
        return true;
    }
    high < x
}

// Refusal 11.
pub fn version_out(version: u64) -> bool
    ensures { result ≡ bad_version version }
{
    outside(rules::version::FIRST, version, rules::version::LAST)
}

// Refusal 1.
pub fn kind_out(rule: Rule) -> bool
    ensures { result ≡ bad_kind rule }
{
    let asked = rule.kind;
    outside(1, asked, kind::LAST)
}

// Refusal 15.
pub fn uncounted(rule: Rule) -> bool
    ensures { result ≡ not_counted rule }
{
    rule.kind == kind::LACKING
}

// Refusal 2.
pub fn size_out(n: u64) -> bool
    ensures { result ≡ bad_size n }
{
    outside(1, n, MOST)
}

// The total weight: at most 64 weights of 16 bits.
pub fn total_of(weights: &[u16]) -> u64
    requires { length weights.now ≤ most }
    ensures { result ≡ total weights.now }
{
    let mut sum: u64 = 0;
    for weight in weights {
        sum += u64::from(*weight);
    }
    sum
}

// Kinds 1, 2, 4 and 5: first from 1 to `most`, second 0.
fn one_out(k: u64, most: u64, second: u64) -> bool
    ensures { result ≡ not (range_one k most second) }
{
    if outside(1, k, most) {
        return true;
    }
    second != 0
}

// Kinds 6 and 7: first 2, second from 2 to `most`.
fn two_out(first: u64, r: u64, most: u64) -> bool
    ensures { result ≡ not (range_two first r most) }
{
    if first != limit::NEAR {
        return true;
    }
    outside(limit::NEAR, r, most)
}

// Refusal 6, over the total weight of the components rated, which only kind 2 asks for, and the further pairs, which
// only kind 8 does.
pub fn range_out(rule: Rule, n: u64, total: u64, more: &[u64]) -> bool
    ensures { result ≡ not (ranged rule n total more.now) }
{
    let asked = rule.kind;
    match asked {
        kind::NUMBER | kind::ROW | kind::ROW_ROUND => one_out(rule.first, n, rule.second),
        kind::WEIGHT => one_out(rule.first, total, rule.second),
        kind::BETWEEN => outside(rule.first, rule.second, n),
        kind::NEAR => two_out(rule.first, rule.second, MOST),
        kind::NEAR_ROUND => two_out(rule.first, rule.second, n),
        kind::LACKING => pairs::pairs_out(rule.first, rule.second, n, more),
        _ => true,
    }
}

// Refusals 5 and 6 of a list of `whole` components with `listed` weights, of which n are rated, with the weights
// `rated`.
pub fn rated_refusal(
    rule: Rule,
    whole: u64,
    listed: u64,
    n: u64,
    rated: &[u16],
    more: &[u64],
) -> Result<(), Refusal>
    requires { (whole ≤ most) × (length rated.now ≤ listed) }
    ensures { refusal_in result ≡ rated_refusal rule whole listed n (total rated.now) more.now }
{
    if rule.kind != kind::WEIGHT {
        if range_out(rule, n, 0, more) {
            return Err(Refusal::Range);
        }
        return Ok(());
    }
    if listed != whole {
        return Err(Refusal::Weights);
    }
    let total = total_of(rated);
    if limit::WEIGHT < total {
        return Err(Refusal::Weights);
    }
    if range_out(rule, n, total, more) {
        return Err(Refusal::Range);
    }
    Ok(())
}

// Refusals 1, 2, 5 and 6, the lowest that applies.
pub fn rule_refusal(rule: Rule, n: u64, weights: &[u16], more: &[u64]) -> Result<(), Refusal>
    ensures { refusal_in result ≡ rule_refusal rule n weights.now more.now }
{
    if kind_out(rule) {
        return Err(Refusal::Kind);
    }
    if size_out(n) {
        return Err(Refusal::Size);
    }
    rated_refusal(rule, n, weights.len() as u64, n, weights, more)
}
