// Kind 8: for one of the pairs, some r in a row hold fewer than k working.
ghost use Rattle.std.specs.Prelude.{[], ◌∷◌, ◌≡◌, ◌≤◌, length};
ghost use Rattle.rules.specs.Below.{first};
ghost use Rattle.rules.specs.Pairs.{pair_of, pairs_in, pairs_of, any_of, lacking_from, fails8, first_lacking, most_more};
ghost use Rattle.rules.specs.Answer.{judgment};
ghost use Rattle.verdict.specs.Pairs.{Judgeable, From};

use crate::held_from;
use rules::Verdict;

// Does a window of r components start at component a + 1, with fewer than k working?
fn lacks(k: u64, r: u64, n: u64, a: u64, w: u64) -> bool
    requires { From n w a (pair_of k r ∷ []) }
    ensures { result ≡ lacking_from n w a (pair_of k r) }
{
    if n < a + r {
        return false;
    }
    r - held_from(n, a, w, r) < k
}

// Does one of a further pair?
fn further_lacks(more: &[u64], n: u64, a: u64, w: u64) -> bool
    requires few { length more.now ≤ most_more }
    requires start { From n w a (pairs_in more.now) }
    ensures { result ≡ any_of (lacking_from n w a) (pairs_in more.now) }
{
    for pair in more.chunks_exact(2) {
        if lacks(pair[0], pair[1], n, a, w) {
            return true;
        }
    }
    false
}

// Does one of any pair?
fn some_lacks(k: u64, r: u64, more: &[u64], n: u64, a: u64, w: u64) -> bool
    requires few { length more.now ≤ most_more }
    requires start { From n w a (pairs_of k r more.now) }
    ensures { result ≡ any_of (lacking_from n w a) (pairs_of k r more.now) }
{
    if lacks(k, r, n, a, w) {
        return true;
    }
    further_lacks(more, n, a, w)
}

// The lowest start of a failing window; n where there is none.
fn first_lacking(k: u64, r: u64, more: &[u64], n: u64, w: u64) -> u64
    requires few { length more.now ≤ most_more }
    requires pairs { Judgeable n w (pairs_of k r more.now) }
    ensures { result ≡ first (λ a. any_of (lacking_from n w a) (pairs_of k r more.now)) n }
{
    for a in 0..n {
        if some_lacks(k, r, more, n, a, w) {
            return a;
        }
    }
    n
}

// The lowest start is the place, counted from 1.
pub fn judge_pairs(k: u64, r: u64, more: &[u64], n: u64, w: u64) -> Verdict
    requires few { length more.now ≤ most_more }
    requires pairs { Judgeable n w (pairs_of k r more.now) }
    ensures { let all = pairs_of k r more.now in
        result ≡ judgment (fails8 all n w) (first_lacking all n w) }
{
    let a = first_lacking(k, r, more, n, w);
    if a < n {
        return Verdict::Fails(a + 1);
    }
    Verdict::Works
}
