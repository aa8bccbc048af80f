// Fans swapped for others: low and high of a stretch with a survival number in the place of one fan or of two, and what
// two such ratings differ by.
#![tactic(auto)]

ghost use Rattle.std.specs.Prelude.{◌≡◌, true, ◌≤◌, length};
ghost use Rattle.std.proofs.Math.IntN.{sub_ℕ};
ghost use Rattle.rules.specs.declared.Worth.TheVariants.{Ends as Between};
ghost use Rattle.rules.specs.State.{S};
ghost use Rattle.rules.specs.Asked.{asked_with};
ghost use Rattle.rules.specs.Refusal.{most, refusal_in};
ghost use Rattle.stretches.specs.Outcome.{Worked};
ghost use Rattle.swaps.specs.Copied.{Copied};
ghost use Rattle.swaps.specs.Swapping.{swap_in, Swappable};
ghost use Rattle.swaps.specs.Compared.{fan_refusal, is_ends};

use places::Ends;
use rules::limit::FANS;
use rules::refusal::Refusal;
use rules::{Question, RatedLists, Worth};

// A survival number, and the two fans of the list that get it; one fan twice where there is one.
#[derive(Clone, Copy)]
pub struct Swap {
    pub first: u64,
    pub second: u64,
    pub p: u64,
}

// Refusal 17: the fan is outside the stretch.
fn fan_out(a: u64, fan: u64, b: u64) -> Result<(), Refusal>
    ensures { refusal_in result ≡ fan_refusal 0 a fan b }
{
    let outside = refusals::outside(a, fan, b);
    if outside {
        return Err(Refusal::Fan);
    }
    Ok(())
}

// A rating's own refusal, then 17.
pub fn fan_refusal(own: Result<(), Refusal>, a: u64, fan: u64, b: u64) -> Result<(), Refusal>
    ensures { refusal_in result ≡ fan_refusal (refusal_in own) a fan b }
{
    let placed = fan_out(a, fan, b);
    own.and(placed)
}

// A copy of the survival numbers from one place up to another, each in its own place: the lent list is never written,
// and nothing beside the stretch is read.
fn copied(from: usize, upto: usize, survival: &[u32]) -> [u32; FANS]
    requires { (from ≤ upto) × (upto ≤ length survival.now) × (length survival.now ≤ most) }
    ensures { Copied from upto survival.now result }
{
    let mut numbers = [0u32; FANS];
    numbers[from..upto].copy_from_slice(&survival[from..upto]);
    numbers
}

// Low and high of a stretch that is not refused, with a survival number in the place of one fan or of two: a copy of
// the stretch's numbers is rated. The table is left as it was worked.
pub fn rate(question: Question, swap: Swap, lists: &RatedLists, table: &mut [u64]) -> Ends
    requires { let q = asked_with question lists.now in
        Swappable q swap table.old }
    ensures { let q = asked_with question lists.now in
        Worked (swap_in swap q) table.old table.new result }
{
    let n = lists.survival.len();
    let a = question.a;
    let first = swap.first as usize - 1;
    let second = swap.second as usize - 1;
    let p = swap.p as u32;
    let mut numbers = copied(a as usize - 1, question.b as usize, lists.survival);
    numbers[first] = p;
    numbers[second] = p;
    let survival = &numbers[..n];
    stretches::work(question, &RatedLists { survival, ..*lists }, table)
}

// The difference of two figures.
pub fn less(a: u64, b: u64) -> i64
    requires { (a ≤ S) × (b ≤ S) }
    ensures { result ≡ sub_ℕ a b }
{
    a as i64 - b as i64
}

// What one rating is more than another: its low less the other's high, and its high less the other's low.
pub fn difference(after: Ends, before: Ends) -> Worth
    requires after { (after.low ≤ S) × (after.high ≤ S) }
    requires before { (before.low ≤ S) × (before.high ≤ S) }
    ensures { result ≡ Between (sub_ℕ after.low before.high) (sub_ℕ after.high before.low) }
{
    let lower = less(after.low, before.high);
    let upper = less(after.high, before.low);
    Worth::Ends { lower, upper }
}

// Is it an answer, and no refusal?
pub fn is_ends(worth: Worth) -> bool
    ensures { result ≡ is_ends worth }
{
    match worth {
        Worth::Ends { lower: _, upper: _ } => true,
        Worth::Refused(_) => false,
    }
}
