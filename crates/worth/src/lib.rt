// The worth of one fan: low and high with it sure to work, less high and low with it sure to fail.
#![tactic(auto)]

ghost use Rattle.std.specs.Prelude.{◌≡◌};
ghost use Rattle.rules.specs.Asked.{asked_with};
ghost use Rattle.rules.specs.Worth.{worth_refusal};
ghost use Rattle.worth.specs.Outcome.{Found, Answered, Weighed};

use rules::{Question, RatedLists, Worth};
use swaps::Swap;

// The worth of a fan that is not refused: the stretch is rated with the fan sure to work, then with it sure to fail.
fn rate_sure(question: Question, fan: u64, lists: &RatedLists, table: &mut [u64]) -> Worth
    requires { let q = asked_with question lists.now in
        worth_refusal q fan table.old ≡ 0 }
    ensures { let q = asked_with question lists.now in
        Found q fan table.old table.new result }
{
    let sure = Swap {
        first: fan,
        second: fan,
        p: units::whole(units::is_decimal(question.version)),
    };
    let works = swaps::rate(question, sure, lists, table);
    let dead = Swap {
        first: fan,
        second: fan,
        p: 0,
    };
    let fails = swaps::rate(question, dead, lists, table);
    swaps::difference(works, fails)
}

// The worth of a fan of the stretch from component a to component b. The table is left as it was worked. The exact
// difference lies between its ends: `worth-between` of rules/proofs/Sure.
pub fn weigh(question: Question, fan: u64, lists: &RatedLists, table: &mut [u64]) -> Worth
    ensures { let q = asked_with question lists.now in
        Answered q fan table.old table.new result }
{
    let own = asked::refusal(question, lists, table);
    if let Err(refused) = swaps::fan_refusal(own, question.a, fan, question.b) {
        return Worth::Refused(refused.number());
    }
    rate_sure(question, fan, lists, table)
}

// The same in a lent table, which is handed back clear.
pub fn worth(question: Question, fan: u64, lists: &RatedLists, table: &mut [u64]) -> Worth
    ensures { let q = asked_with question lists.now in
        Weighed q fan table.old table.new result }
{
    let worth = weigh(question, fan, lists, table);
    stretches::clear(swaps::is_ends(worth), table);
    worth
}
