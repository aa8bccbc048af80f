// Document 01's count table: "Entry j is the number of working states with exactly j failed, 0 included."
#![tactic(auto)]

mod lay; // lay.rt: kinds 2, 4 and 5, the working table and the entries that it holds
mod sums; // sums.rt: kind 2, a row of sums for each number failed
mod ways; // ways.rt: kinds 1, 3, 6 and 7, which Pascal's table answers

ghost use Rattle.std.specs.Prelude.{◌≡◌};
ghost use Rattle.rules.specs.Refusal.{refusal_in};
ghost use Rattle.counts.specs.Tally.{refusal_of, Countable, Tallied};
ghost use Rattle.counts.specs.Outcome.{Outcome};

use rules::limit::CELLS;
use rules::refusal::Refusal;
use rules::{Counting, NO_MORE, Rule, kind};

// Refusals 1, 15, 2, 5, 6, 7 and 8, the first that applies. A kind without a count table is never
// refused by 1, so that 15 may be looked at first.
fn refusal(rule: Rule, n: u64, weights: &[u16], lent: usize, slots: usize) -> Result<(), Refusal>
    ensures { refusal_in result ≡ refusal_of rule n weights.now lent slots }
{
    if refusals::uncounted(rule) {
        return Err(Refusal::Uncounted);
    }
    refusals::rule_refusal(rule, n, weights, &NO_MORE)?;
    if lent < CELLS {
        return Err(Refusal::Table);
    }
    if slots as u64 <= n {
        return Err(Refusal::CountRoom);
    }
    Ok(())
}

// The counts of an accepted rule, in the first n + 1 cells of the room.
fn tally(rule: Rule, n: usize, weights: &[u16], table: &mut [u64], room: &mut [u64])
    requires { Countable rule n weights.now table.old room.old }
    ensures { let beside = weights.now in
        Tallied rule n beside table.old room.old table.new room.new }
{
    let asked = rule.kind;
    match asked {
        kind::NUMBER | kind::BETWEEN | kind::NEAR | kind::NEAR_ROUND => ways::by_ways(
            rule, n, room,
        ),
        _ => {
            lay::work(rule, n, weights, table);
            lay::lay(rule, n, table, room);
        }
    }
}

// The count table of a rule over n components: its n + 1 entries in the room, worked in the lent table.
pub fn counts(rule: Rule, n: u64, weights: &[u16], table: &mut [u64], room: &mut [u64]) -> Counting
    ensures { let beside = weights.now in
        let table₀ = table.old in
        Outcome rule n beside table₀ room.old result table.new room.new }
{
    if let Err(refused) = refusal(rule, n, weights, table.len(), room.len()) {
        return Counting::Refused(refused.number());
    }
    tally(rule, n as usize, weights, table, room);
    places::zero(table, CELLS);
    Counting::Counted
}
