// What kinds 1 to 3 differ in: how far a failed component carries a sum, from where on sums are dead, and what is asked
// at the end.
ghost use Rattle.std.specs.Prelude.{◌≡◌, suc, ◌<◌, length};
ghost use Rattle.rules.specs.Accepted.{Accepted};
ghost use Rattle.rows.specs.Kinds.{end_of, gap_of, limit_of, load_of, carry_of};

use memory::sum::Sum;
use rules::limit::FANS;
use rules::{Rule, kind};

// What kind 2's weights add up to at most.
const HEAVIEST: usize = rules::limit::WEIGHT as usize;

// One more than the most components: as many sums as kind 3 can come to.
const PAST_ALL: usize = FANS + 1;

// From here on sums are dead, or never come.
pub fn limit(rule: Rule) -> usize
    ensures { result ≡ limit_of rule }
{
    if rule.kind == kind::BETWEEN {
        PAST_ALL
    } else {
        rule.first as usize
    }
}

// How many sums from the limit on one component can come to.
pub fn gap(rule: Rule) -> usize
    ensures { result ≡ gap_of rule }
{
    if rule.kind == kind::WEIGHT {
        HEAVIEST
    } else {
        1
    }
}

// How far component i + 1 carries a sum where it fails.
pub fn carry(rule: Rule, weights: &[u16], i: usize) -> usize
    requires { rule.kind ≡ 2 → i < length weights.now }
    ensures { result ≡ carry_of rule weights.now (suc i) }
{
    if rule.kind == kind::WEIGHT {
        return usize::from(weights[i]);
    }
    1
}

// And the first n together.
pub fn load(rule: Rule, weights: &[u16], n: usize) -> usize
    requires { Accepted rule n weights.now }
    ensures { result ≡ load_of rule weights.now n }
{
    let mut sum: usize = 0;
    for i in 0..n {
        sum += carry(rule, weights, i);
    }
    sum
}

// Whether a sum works at the end. Below the limit it does under kinds 1 and 2, and the compiler is shown so.
pub fn works(rule: Rule, limit: usize, m: Sum) -> bool
    requires { limit ≡ limit_of rule }
    ensures { result ≡ end_of rule m }
{
    if rule.kind == kind::BETWEEN {
        return m.outside(rule.first as usize, rule.second as usize);
    }
    m.below(limit)
}
