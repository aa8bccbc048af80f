// The exports of `loading`: the loading computer's calls under their names for C.
// Each states its contract again.
#![tactic(auto)]

ghost use Rattle.loading.specs.Outcome.{Answered, Parted, Told, Gained};

#[unsafe(no_mangle)]
pub extern "C" fn foambeetle_rate(file: &[u8], system: u64) -> u64
    ensures { Answered file.now system result }
{
    loading::foambeetle_rate(file, system)
}

#[unsafe(no_mangle)]
pub extern "C" fn foambeetle_unit(file: &[u8]) -> u64
    ensures { Parted file.now result }
{
    loading::foambeetle_unit(file)
}

#[unsafe(no_mangle)]
pub extern "C" fn foambeetle_worth(file: &[u8], system: u64, fan: u64, ends: &mut [i64; 2]) -> u64
    ensures { Told file.now system fan ends.old ends.new result }
{
    loading::foambeetle_worth(file, system, fan, ends)
}

#[unsafe(no_mangle)]
pub extern "C" fn foambeetle_gain(
    file: &[u8],
    system: u64,
    fan: u64,
    p: u64,
    ends: &mut [i64; 2],
) -> u64
    ensures { Gained file.now system fan p ends.old ends.new result }
{
    loading::foambeetle_gain(file, system, fan, p, ends)
}
