// A stretch that is not refused: its low and high, worked where it stands; and a lent table cleared after an answer.
#![tactic(auto)]

ghost use Rattle.std.specs.Prelude.{◌≡◌, true, ◌≤◌, length};
ghost use Rattle.rules.specs.Asked.{asked_with};
ghost use Rattle.rules.specs.Refusal.{cells, figures_refusal};
ghost use Rattle.stretches.specs.Outcome.{Worked, is_range, cleared_if};

use places::Ends;
use rules::limit::CELLS;
use rules::{Question, RatedLists, Rating};

// Low and high of a stretch that is not refused, worked on that part of the lent lists where it stands. The table is
// left as it was worked.
pub fn work(question: Question, lists: &RatedLists, table: &mut [u64]) -> Ends
    requires { let q = asked_with question lists.now in
        figures_refusal q table.old ≡ 0 }
    ensures { let q = asked_with question lists.now in
        Worked q table.old table.new result }
{
    let version = question.version;
    let rule = question.rule;
    let start = question.a as usize - 1;
    let end = question.b as usize;
    let n = lists.survival.len();
    let rated = asked::rated_weights(rule, n, lists.weights, question.a, question.b);
    let placed = board_lists::boards_read(version, lists.boards, start, end);
    let own = board_lists::numbers_read(version, lists.switchboards);
    let decimal = units::is_decimal(version);
    boards::rate(
        decimal,
        rule,
        &lists.survival[start..end],
        rated,
        lists.more,
        placed,
        own,
        table,
    )
}

// Is it a range, and no refusal?
pub fn is_range(rating: Rating) -> bool
    ensures { result ≡ is_range rating }
{
    match rating {
        Rating::Range { low: _, high: _ } => true,
        Rating::Refused(_) => false,
    }
}

// The table that a call was lent, as the call leaves it: after an answer its cells are 0, after a refusal they are as
// they were.
pub fn clear(answered: bool, table: &mut [u64])
    requires { answered ≡ true → cells ≤ length table.old }
    ensures { table.new ≡ cleared_if answered table.old }
{
    if answered {
        places::zero(table, CELLS);
    }
}
