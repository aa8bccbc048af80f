// The gain of a spare in the place of one fan: low and high with it in place, less high and low as they are.
#![tactic(auto)]

ghost use Rattle.std.specs.Prelude.{◌≡◌};
ghost use Rattle.rules.specs.Asked.{asked_with};
ghost use Rattle.rules.specs.Refusal.{rating_refusal, refusal_in};
ghost use Rattle.rules.specs.Gain.{spare_above, gain_refusal};
ghost use Rattle.gain.specs.Outcome.{with_spare, Found, Answered, Gained};

use rules::refusal::{self, Refusal};
use rules::{Question, RatedLists, Spare, Worth};
use swaps::Swap;

// The figures' own refusal with the spare's number among those of 4: it comes before 5, 6 and 7, and after the rest.
fn with_spare(above: bool, own: Result<(), Refusal>) -> Result<(), Refusal>
    ensures { refusal_in result ≡ with_spare above (refusal_in own) }
{
    if !above {
        return own;
    }
    if let Err(refused) = own {
        let earlier = refusals::outside(refusal::WEIGHTS, refused.number(), refusal::TABLE);
        if earlier {
            return Err(refused);
        }
    }
    Err(Refusal::Survival)
}

// The refusals of the figures with a spare's number among those of 4, the first that applies.
pub fn refusal(question: Question, p: u64, lists: &RatedLists, table: &[u64]) -> Result<(), Refusal>
    ensures { let q = asked_with question lists.now in
        refusal_in result ≡ rating_refusal (spare_above q p) q table.now }
{
    let own = asked::refusal(question, lists, table);
    let all = units::whole(units::is_decimal(question.version));
    with_spare(all < p, own)
}

// The gain of a spare that is not refused: the stretch is rated with the spare in the fan's place, then as it is.
fn rate_spare(question: Question, spare: Spare, lists: &RatedLists, table: &mut [u64]) -> Worth
    requires { let q = asked_with question lists.now in
        gain_refusal q spare.fan spare.p table.old ≡ 0 }
    ensures { let q = asked_with question lists.now in
        Found q spare table.old table.new result }
{
    let swap = Swap {
        first: spare.fan,
        second: spare.fan,
        p: spare.p,
    };
    let after = swaps::rate(question, swap, lists, table);
    let before = stretches::work(question, lists, table);
    swaps::difference(after, before)
}

// The gain of a spare in the place of a fan of the stretch from component a to component b. The table is left as it was
// worked. The exact difference lies between its ends: `gain-between` of rules/proofs/Gain.
pub fn weigh(question: Question, spare: Spare, lists: &RatedLists, table: &mut [u64]) -> Worth
    ensures { let q = asked_with question lists.now in
        Answered q spare table.old table.new result }
{
    let rated = refusal(question, spare.p, lists, table);
    if let Err(refused) = swaps::fan_refusal(rated, question.a, spare.fan, question.b) {
        return Worth::Refused(refused.number());
    }
    rate_spare(question, spare, lists, table)
}

// The same in a lent table, which is handed back clear.
pub fn gain(question: Question, spare: Spare, lists: &RatedLists, table: &mut [u64]) -> Worth
    ensures { let q = asked_with question lists.now in
        Gained q spare table.old table.new result }
{
    let gain = weigh(question, spare, lists, table);
    stretches::clear(swaps::is_ends(gain), table);
    gain
}
