// Low and high: the one rating call, and the same in a table that is lent and handed back clear.
#![tactic(auto)]

ghost use Rattle.rules.specs.Asked.{asked_with};
ghost use Rattle.figures.specs.Outcome.{Answered, Rated};

use rules::{Question, RatedLists, Rating};

// The rating call: the figures of the stretch from component a to component b; of a whole list, from 1 to n. The table
// is left as it was worked. Condition three of every range it answers: `figures-third` of rules/proofs/Accepted.
pub fn rate(question: Question, lists: &RatedLists, table: &mut [u64]) -> Rating
    ensures { let q = asked_with question lists.now in
        Answered q table.old table.new result }
{
    if let Err(refused) = asked::refusal(question, lists, table) {
        return Rating::Refused(refused.number());
    }
    let ends = stretches::work(question, lists, table);
    let low = ends.low;
    let high = ends.high;
    Rating::Range { low, high }
}

// The rating call in a lent table, which is handed back clear.
pub fn figures(question: Question, lists: &RatedLists, table: &mut [u64]) -> Rating
    ensures { let q = asked_with question lists.now in
        Rated q table.old table.new result }
{
    let rating = rate(question, lists, table);
    stretches::clear(stretches::is_range(rating), table);
    rating
}
