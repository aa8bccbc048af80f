// The exports of `ratings`: the calls that the benchmark times under their names for C.
// Each states its contract again.
#![tactic(auto)]

ghost use Rattle.ratings.specs.Outcome.{Timed, TimedWorth, TimedCounts};
ghost use Rattle.rules.specs.Asked.{question_of, asked_of};
ghost use Rattle.rules.specs.State.{rule_of};

#[unsafe(no_mangle)]
pub extern "C" fn foambeetle_figures(
    version: u64,
    kind: u64,
    first: u64,
    second: u64,
    a: u64,
    b: u64,
    survival: &[u32],
    weights: &[u16],
    more: &[u64],
    boards: &[u8],
    switchboards: &[u32],
    table: &mut [u64],
) -> u64
    ensures { let q = asked_of (question_of version (rule_of kind first second) a b)
        survival.now weights.now more.now
        boards.now switchboards.now in
        Timed q table.old table.new result }
{
    ratings::foambeetle_figures(
        version,
        kind,
        first,
        second,
        a,
        b,
        survival,
        weights,
        more,
        boards,
        switchboards,
        table,
    )
}

#[unsafe(no_mangle)]
pub extern "C" fn foambeetle_worth_of(
    version: u64,
    kind: u64,
    first: u64,
    second: u64,
    a: u64,
    b: u64,
    fan: u64,
    survival: &[u32],
    weights: &[u16],
    more: &[u64],
    boards: &[u8],
    switchboards: &[u32],
    table: &mut [u64],
    ends: &mut [i64; 2],
) -> u64
    ensures { let q = asked_of (question_of version (rule_of kind first second) a b)
        survival.now weights.now more.now
        boards.now switchboards.now in
        TimedWorth q fan table.old table.new ends.old ends.new result }
{
    ratings::foambeetle_worth_of(
        version,
        kind,
        first,
        second,
        a,
        b,
        fan,
        survival,
        weights,
        more,
        boards,
        switchboards,
        table,
        ends,
    )
}

#[unsafe(no_mangle)]
pub extern "C" fn foambeetle_counts(
    kind: u64,
    first: u64,
    second: u64,
    n: u64,
    weights: &[u16],
    table: &mut [u64],
    room: &mut [u64],
) -> u64
    ensures { TimedCounts (rule_of kind first second) n weights.now table.old
        table.new room.old room.new result }
{
    ratings::foambeetle_counts(kind, first, second, n, weights, table, room)
}
