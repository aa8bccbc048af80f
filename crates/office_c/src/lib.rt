// The exports of `office`: the office's calls under their names for C.
// Each states its contract again.
#![tactic(auto)]

ghost use Rattle.rules.specs.State.{rule_of};
ghost use Rattle.rules.specs.Writing.{typed_of};
ghost use Rattle.rules.specs.Doubles.{planned_of};
ghost use Rattle.doubles.specs.Floats.{bits_of};
ghost use Rattle.office.specs.Outcome.{Filed, Told, Answered};
ghost use Rattle.office.specs.Outcome.{Bounded};

#[unsafe(no_mangle)]
pub extern "C" fn foambeetle_write(
    version: u64,
    survival: &[u32],
    weights: &[u16],
    boards: &[u8],
    switchboards: &[u32],
    systems: &[u16],
    room: &mut [u8],
) -> u64
    ensures { Filed (typed_of version survival.now weights.now boards.now
        switchboards.now systems.now) room.old room.new result }
{
    office::foambeetle_write(
        version,
        survival,
        weights,
        boards,
        switchboards,
        systems,
        room,
    )
}

#[unsafe(no_mangle)]
pub extern "C" fn foambeetle_chance(file: &[u8], system: u64, ends: &mut [f64; 2]) -> u64
    ensures { Told file.now system ends.old ends.new result }
{
    office::foambeetle_chance(file, system, ends)
}

#[unsafe(no_mangle)]
pub extern "C" fn foambeetle_chance_between(file: &[u8], system: u64, ends: &mut [f64; 2]) -> u64
    ensures { Bounded file.now system ends.old ends.new result }
{
    office::foambeetle_chance_between(file, system, ends)
}

#[unsafe(no_mangle)]
pub extern "C" fn foambeetle_rate_doubles(
    kind: u64,
    first: u64,
    second: u64,
    more: &[u64],
    a: u64,
    b: u64,
    survival: &[f64],
    weights: &[u16],
) -> u64
    ensures { Answered (planned_of (rule_of kind first second) a b (bits_of survival.now)
        weights.now more.now) result }
{
    office::foambeetle_rate_doubles(kind, first, second, more, a, b, survival, weights)
}
