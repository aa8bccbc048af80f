// Document 01, "The seven verdicts", and kind 8 of request 05: the verdict on one state.
#![tactic(auto)]

mod pairs; // pairs.rt: kind 8

ghost use Rattle.std.specs.Prelude.{◌≡◌, ◌+◌, ◌-◌, ◌/◌, ◌%◌, ◌^◌, ◌<◌, ◌≤◌, min, leb, length};
ghost use Rattle.std.specs.Int.Count.{ones};
ghost use Rattle.rules.specs.Below.{first};
ghost use Rattle.rules.specs.State.{held_in, starts, beside_of};
ghost use Rattle.rules.specs.Verdict.{weight_down, some_window, first_window};
ghost use Rattle.rules.specs.Refusal.{most, high_one};
ghost use Rattle.rules.specs.Accepted.{Accepted};
ghost use Rattle.rules.specs.Answer.{judgment, judged_of};
ghost use Rattle.verdict.specs.Outcome.{Judged};

use rules::{Rule, Verdict, kind, limit};

// The number failed.
fn ones_of(w: u64) -> u64
    ensures { result ≡ ones w }
{
    u64::count_ones(w) as u64
}

// As many ones as asked, from bit 0 up. All 64 are within: the full word is shifted down, not 1 up.
fn low_ones(width: u64) -> u64
    requires { (1 ≤ width) × (width ≤ 64) }
    ensures { result ≡ 2 ^ width - 1 }
{
    0xffff_ffff_ffff_ffff >> (64 - width)
}

// The ones of w in the `width` bits from bit a up.
fn ones_in(w: u64, a: u64, width: u64) -> u64
    requires { (a < 64) × (1 ≤ width) × (width ≤ 64) }
    ensures { result ≡ ones (w / 2 ^ a % 2 ^ width) }
{
    let mask = low_ones(width);
    ones_of((w >> a) & mask)
}

// The ones of a window: those up to n, and where it runs past n those from 1 on. The word twice over would not fit 64
// bits.
fn held_from(n: u64, a: u64, w: u64, width: u64) -> u64
    requires { (a < n) × (1 ≤ width) × (width ≤ n) × (n ≤ most) × (w < 2 ^ n) }
    ensures { result ≡ held_in n a w width }
{
    let high = ones_in(w, a, width);
    let end = a + width;
    if end <= n {
        return high;
    }
    high + ones_in(w, 0, end - n)
}

// The lowest of the starts at which a window holds `need` ones or more; the number of starts where none does.
fn first_window(n: u64, width: u64, need: u64, w: u64, starts: u64) -> u64
    requires { (1 ≤ width) × (width ≤ n) × (n ≤ most) × (w < 2 ^ n) × (starts ≤ n) }
    ensures { result ≡ first (λ a. leb need (held_in n a w width)) starts }
{
    for a in 0..starts {
        if need <= held_from(n, a, w, width) {
            return a;
        }
    }
    starts
}

// On the ring a window starts anywhere, on the line so that it ends by n.
fn starts_of(ring: bool, n: u64, width: u64) -> u64
    requires { (1 ≤ width) × (width ≤ n) × (n ≤ most) }
    ensures { result ≡ starts ring n width }
{
    if ring {
        return n;
    }
    n + 1 - width
}

// Kinds 4 to 7: the lowest start of a failing window is the place, counted from 1.
fn judge_windows(ring: bool, n: u64, width: u64, need: u64, w: u64) -> Verdict
    requires { (1 ≤ width) × (width ≤ n) × (n ≤ most) × (w < 2 ^ n) }
    ensures { result ≡ judgment (some_window ring n width need w) (first_window ring n width need w) }
{
    let starts = starts_of(ring, n, width);
    let a = first_window(n, width, need, w, starts);
    if a < starts {
        return Verdict::Fails(a + 1);
    }
    Verdict::Works
}

// Kinds 1 to 3: place 0.
fn judge_sum(failing: bool) -> Verdict
    ensures { result ≡ judgment failing 0 }
{
    if failing {
        return Verdict::Fails(0);
    }
    Verdict::Works
}

// Kind 6: a window no longer than the line, which it then holds whole.
fn fitting(r: u64, n: u64) -> u64
    ensures { result ≡ min r n }
{
    if r < n {
        return r;
    }
    n
}

// Kind 2: the weights of the failed components, each component a window of one.
fn weighed(n: u64, weights: &[u16], w: u64) -> u64
    requires { (length weights.now ≡ n) × (n ≤ most) }
    ensures { result ≡ weight_down n weights.now w }
{
    let mut sum: u64 = 0;
    for (i, weight) in weights.iter().enumerate() {
        sum += ones_in(w, i as u64, 1) * u64::from(*weight);
    }
    sum
}

// Refusal 9: above bit n - 1 nothing may stand.
fn high_one(n: u64, w: u64) -> bool
    requires { (1 ≤ n) × (n ≤ most) }
    ensures { result ≡ high_one n w }
{
    1 < w >> (n - 1)
}

// The rows of the table, for a rule that was accepted.
fn judge(rule: Rule, n: u64, weights: &[u16], more: &[u64], w: u64) -> Verdict
    requires { (Accepted rule n (beside_of rule weights.now more.now)) × (w < 2 ^ n) }
    ensures { result ≡ judged_of rule n weights.now more.now w }
{
    let asked = rule.kind;
    let failed = ones_of(w);
    match asked {
        kind::NUMBER => judge_sum(rule.first <= failed),
        kind::WEIGHT => judge_sum(rule.first <= weighed(n, weights, w)),
        kind::BETWEEN => judge_sum(!refusals::outside(rule.first, failed, rule.second)),
        kind::ROW => judge_windows(false, n, rule.first, rule.first, w),
        kind::ROW_ROUND => judge_windows(true, n, rule.first, rule.first, w),
        kind::NEAR => judge_windows(false, n, fitting(rule.second, n), limit::NEAR, w),
        kind::NEAR_ROUND => judge_windows(true, n, rule.second, limit::NEAR, w),
        _ => pairs::judge_pairs(rule.first, rule.second, more, n, w),
    }
}

// The verdict on one state: refusals 1, 2, 5, 6 and 9, then the rule.
pub fn verdict_on(rule: Rule, n: u64, weights: &[u16], more: &[u64], state: u64) -> Verdict
    ensures { Judged rule n weights.now more.now state result }
{
    if let Err(refused) = refusals::rule_refusal(rule, n, weights, more) {
        return Verdict::Refused(refused.number());
    }
    if high_one(n, state) {
        return Verdict::Refused(rules::refusal::STATE);
    }
    judge(rule, n, weights, more, state)
}
