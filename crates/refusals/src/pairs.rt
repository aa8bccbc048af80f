// Kind 8: refusal 6 for a bad pair or number of pairs.
ghost use Rattle.std.specs.Prelude.{not, ◌≡◌, ◌≤◌, length};
ghost use Rattle.rules.specs.Pairs.{pair_of, pairs_in, good_pair, in_range8, most_more};
ghost use Rattle.rules.specs.Refusal.{range_pairs};

use crate::outside;
use rules::limit;

// Is a pair bad over n components?
fn pair_out(k: u64, r: u64, n: u64) -> bool
    ensures { result ≡ not (good_pair n (pair_of k r)) }
{
    if outside(1, k, r) {
        return true;
    }
    if limit::WINDOW < r {
        return true;
    }
    n < r
}

// Is one of the further pairs?
fn more_out(n: u64, more: &[u64]) -> bool
    requires { length more.now ≤ most_more }
    ensures { result ≡ not (in_range8 n (pairs_in more.now)) }
{
    more.chunks_exact(2)
        .any(|pair| pair_out(pair[0], pair[1], n))
}

// Is a pair bad, or their number?
pub fn pairs_out(first: u64, second: u64, n: u64, more: &[u64]) -> bool
    ensures { result ≡ not (range_pairs first second n more.now) }
{
    if more.len() % 2 != 0 {
        return true;
    }
    if limit::MORE < more.len() {
        return true;
    }
    if pair_out(first, second, n) {
        return true;
    }
    more_out(n, more)
}
