// Low and high behind boards, request 11: for each set of failed boards the figures with those fans' survival 0, and
// the boards combined by the rounded step, board 1 last. A set's figures stand at its number, low ends in one array and
// high ends in another.
#![tactic(auto)]

mod fans; // fans.rt: which fans a set of failed boards takes with it

ghost use Rattle.std.specs.Prelude.{◌≡◌, ◌^◌, ◌≤◌, get_or};
ghost use Rattle.rules.specs.State.{beside_of};
ghost use Rattle.rules.specs.Figure.{rounded, mixed};
ghost use Rattle.rules.specs.Boards.{figure_behind, combined};
ghost use Rattle.rules.specs.Refusal.{most_boards};
ghost use Rattle.rules.specs.Accepted.{Boarded, Ratable};
ghost use Rattle.units.specs.Step.{whole};
ghost use Rattle.places.specs.Cells.{one, Both, Kept};
ghost use Rattle.boards.specs.Combining.{figure_out, set_at, Behind, Mixable, Halvable, Halved, Combinable};

use places::Ends;
use rules::Rule;

// The sets of the most boards that there can be.
const SETS: usize = 16;

// The number of sets of b boards.
fn sets_of(b: usize) -> usize
    requires { b ≤ most_boards }
    ensures { result ≡ 2 ^ b }
{
    1 << b
}

// The figures where a set of boards has failed.
fn rate_set(
    decimal: bool,
    rule: Rule,
    survival: &[u32],
    weights: &[u16],
    more: &[u64],
    boards: &[u8],
    out: usize,
    table: &mut [u64],
) -> Ends
    requires able { let beside = beside_of rule weights.now more.now in
        Ratable (whole decimal) rule survival.now beside table.old }
    requires placed { Behind boards.now }
    ensures figure { let beside = beside_of rule weights.now more.now in
        Both (λ up. figure_out up (whole decimal) rule survival.now beside boards.now out) result }
    ensures kept { Kept table.old table.new }
{
    let n = survival.len();
    let numbers = fans::behind(survival, boards, out);
    engine::rate(decimal, rule, &numbers[..n], weights, more, table)
}

// The rounded step of board b + 1.
fn mix(decimal: bool, switchboards: &[u32], b: usize, works: Ends, fails: Ends) -> Ends
    requires { Mixable (whole decimal) switchboards.now b works fails }
    ensures { let u = whole decimal in
        let p = get_or switchboards.now b 0 in
        Both (λ up. rounded up u (mixed u p (one up works) (one up fails))) result }
{
    let p = places::chance(switchboards, b);
    let q = places::chance(switchboards, b).failure(decimal);
    places::step(decimal, p, q, works, fails)
}

// Board b + 1 combined: each set of the boards up to b without it, and the one with it, `half` further, become one.
fn mix_board(
    decimal: bool,
    switchboards: &[u32],
    b: usize,
    half: usize,
    low: &mut [u64; SETS],
    high: &mut [u64; SETS],
)
    requires { Halvable (whole decimal) switchboards.now b half low.old high.old }
    ensures { let p = get_or switchboards.now b 0 in
        Halved (whole decimal) p half low.old high.old low.new high.new }
{
    for j in 0..half {
        let works = Ends {
            low: low[j],
            high: high[j],
        };
        let fails = Ends {
            low: low[half + j],
            high: high[half + j],
        };
        let ends = mix(decimal, switchboards, b, works, fails);
        low[j] = ends.low;
        high[j] = ends.high;
    }
}

// All boards combined, board 1 last.
fn combine(
    decimal: bool,
    switchboards: &[u32],
    low: &mut [u64; SETS],
    high: &mut [u64; SETS],
) -> Ends
    requires { Combinable (whole decimal) switchboards.now low.old high.old }
    ensures { let own = switchboards.now in
        Both (λ up. combined up (whole decimal) own (set_at up low.old high.old)) result }
{
    for b in (0..switchboards.len()).rev() {
        mix_board(decimal, switchboards, b, sets_of(b), low, high);
    }
    Ends {
        low: low[0],
        high: high[0],
    }
}

// The figures of each set, and the boards combined. A set comes to what those of its boards come to that some fan is
// on, so a board that no rated fan is on changes nothing, and no list is rated twice.
fn rate_sets(
    decimal: bool,
    rule: Rule,
    survival: &[u32],
    weights: &[u16],
    more: &[u64],
    boards: &[u8],
    switchboards: &[u32],
    table: &mut [u64],
) -> Ends
    requires able { let beside = beside_of rule weights.now more.now in
        Ratable (whole decimal) rule survival.now beside table.old }
    requires boarded { Boarded (whole decimal) boards.now switchboards.now }
    ensures figure { let beside = beside_of rule weights.now more.now in
        let placed = boards.now in
        let own = switchboards.now in
        Both (λ up. figure_behind up (whole decimal) rule survival.now beside placed own) result }
    ensures kept { Kept table.old table.new }
{
    let felt = fans::felt(boards);
    let sets = sets_of(switchboards.len());
    let mut low = [0u64; SETS];
    let mut high = [0u64; SETS];
    for out in 0..sets {
        let own = out & felt;
        let mut ends = Ends {
            low: low[own],
            high: high[own],
        };
        if own == out {
            ends = rate_set(decimal, rule, survival, weights, more, boards, out, table);
        }
        low[out] = ends.low;
        high[out] = ends.high;
    }
    combine(decimal, switchboards, &mut low, &mut high)
}

pub fn rate(
    decimal: bool,
    rule: Rule,
    survival: &[u32],
    weights: &[u16],
    more: &[u64],
    boards: &[u8],
    switchboards: &[u32],
    table: &mut [u64],
) -> Ends
    requires able { let beside = beside_of rule weights.now more.now in
        Ratable (whole decimal) rule survival.now beside table.old }
    requires boarded { Boarded (whole decimal) boards.now switchboards.now }
    ensures figure { let beside = beside_of rule weights.now more.now in
        let placed = boards.now in
        let own = switchboards.now in
        Both (λ up. figure_behind up (whole decimal) rule survival.now beside placed own) result }
    ensures kept { Kept table.old table.new }
{
    // no list is copied where there are no boards
    if switchboards.is_empty() {
        return engine::rate(decimal, rule, survival, weights, more, table);
    }
    rate_sets(
        decimal,
        rule,
        survival,
        weights,
        more,
        boards,
        switchboards,
        table,
    )
}
