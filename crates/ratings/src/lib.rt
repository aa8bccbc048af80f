// The figures, the worth and the count table for C, in tables that C lends: what the benchmark times.
#![tactic(auto)]

ghost use Rattle.std.specs.Prelude.{◌≡◌};
ghost use Rattle.ratings.specs.Outcome.{Timed, TimedWorth, counting_number, TimedCounts};
ghost use Rattle.rules.specs.Asked.{question_of, asked_of};
ghost use Rattle.rules.specs.State.{rule_of};

use rules::{Counting, Question, RatedLists, Rule};

// The rule by its numbers.
fn rule_of(kind: u64, first: u64, second: u64) -> Rule
    ensures { result ≡ rule_of kind first second }
{
    Rule {
        kind,
        first,
        second,
    }
}

// In C: `uint64_t foambeetle_figures(uint64_t version, uint64_t kind, uint64_t first, uint64_t second, uint64_t a,
// uint64_t b, const uint32_t *survival, size_t n, const uint16_t *weights, size_t weighed, const uint64_t *more, size_t
// further, const uint8_t *boards, size_t placed, const uint32_t *switchboards, size_t g, uint64_t *table, size_t
// cells)`.
pub fn foambeetle_figures(
    version: u64,
    kind: u64,
    first: u64,
    second: u64,
    a: u64,
    b: u64,
    survival: &[u32],
    weights: &[u16],
    more: &[u64],
    boards: &[u8],
    switchboards: &[u32],
    table: &mut [u64],
) -> u64
    ensures { let q = asked_of (question_of version (rule_of kind first second) a b)
        survival.now weights.now more.now
        boards.now switchboards.now in
        Timed q table.old table.new result }
{
    let rule = rule_of(kind, first, second);
    let question = Question {
        version,
        rule,
        a,
        b,
    };
    let lists = RatedLists {
        survival,
        weights,
        more,
        boards,
        switchboards,
    };
    packing::pack(figures::figures(question, &lists, table))
}

// The worth of a fan, likewise. In C: `uint64_t foambeetle_worth_of(uint64_t version, uint64_t kind, uint64_t first,
// uint64_t second, uint64_t a, uint64_t b, uint64_t fan, const uint32_t *survival, size_t n, const uint16_t *weights,
// size_t weighed, const uint64_t *more, size_t further, const uint8_t *boards, size_t placed, const uint32_t
// *switchboards, size_t g, uint64_t *table, size_t cells, int64_t ends[2])`.
pub fn foambeetle_worth_of(
    version: u64,
    kind: u64,
    first: u64,
    second: u64,
    a: u64,
    b: u64,
    fan: u64,
    survival: &[u32],
    weights: &[u16],
    more: &[u64],
    boards: &[u8],
    switchboards: &[u32],
    table: &mut [u64],
    ends: &mut [i64; 2],
) -> u64
    ensures { let q = asked_of (question_of version (rule_of kind first second) a b)
        survival.now weights.now more.now
        boards.now switchboards.now in
        TimedWorth q fan table.old table.new ends.old ends.new result }
{
    let rule = rule_of(kind, first, second);
    let question = Question {
        version,
        rule,
        a,
        b,
    };
    let lists = RatedLists {
        survival,
        weights,
        more,
        boards,
        switchboards,
    };
    let worth = worth::worth(question, fan, &lists, table);
    loading::tell(worth, ends)
}

// The answer as one number: 0, or the refusal.
fn number_of(answer: Counting) -> u64
    ensures { result ≡ counting_number answer }
{
    match answer {
        Counting::Counted => 0,
        Counting::Refused(number) => number,
    }
}

// The count table, likewise. In C: `uint64_t foambeetle_counts(uint64_t kind, uint64_t first, uint64_t second, uint64_t
// n, const uint16_t *weights, size_t weighed, uint64_t *table, size_t cells, uint64_t *room, size_t slots)`.
pub fn foambeetle_counts(
    kind: u64,
    first: u64,
    second: u64,
    n: u64,
    weights: &[u16],
    table: &mut [u64],
    room: &mut [u64],
) -> u64
    ensures { TimedCounts (rule_of kind first second) n weights.now table.old
        table.new room.old room.new result }
{
    let rule = rule_of(kind, first, second);
    number_of(counts::counts(rule, n, weights, table, room))
}
