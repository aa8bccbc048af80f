// The loading computer's calls: a deck file's bytes and a system number in, its figures as one 64-bit number out; with
// a fan, its worth, or the gain of a spare in its place.
#![tactic(auto)]

ghost use Rattle.std.specs.Prelude.{◌≡◌};
ghost use Rattle.loading.specs.Outcome.{Answered, Parted, number_of, ends_after, Told, Gained};

use rules::{Spare, Worth};

// What the C program calls: `uint64_t foambeetle_rate(const uint8_t *file, size_t length, uint64_t system)`.
pub fn foambeetle_rate(file: &[u8], system: u64) -> u64
    ensures { Answered file.now system result }
{
    packing::pack(systems::rate_file(file, system))
}

// What the C program calls for the unit of a file's figures: `uint64_t foambeetle_unit(const uint8_t *file, size_t
// length)`.
pub fn foambeetle_unit(file: &[u8]) -> u64
    ensures { Parted file.now result }
{
    match deck::open(file) {
        Ok(head) => {
            let decimal = units::is_decimal(head.version);
            units::whole(decimal)
        }
        Err(_) => 0,
    }
}

// A worth or a gain as C gets it: 0 and both ends, or the refusal and the ends as they were.
pub fn tell(worth: Worth, ends: &mut [i64; 2]) -> u64
    ensures number { result ≡ number_of worth }
    ensures ends { ends.new ≡ ends_after worth ends.old }
{
    match worth {
        Worth::Ends { lower, upper } => {
            *ends = [lower, upper];
            0
        }
        Worth::Refused(number) => number,
    }
}

// What the C program calls for the worth of a fan:
// `uint64_t foambeetle_worth(const uint8_t *file, size_t length, uint64_t system, uint64_t fan, int64_t ends[2])`.
pub fn foambeetle_worth(file: &[u8], system: u64, fan: u64, ends: &mut [i64; 2]) -> u64
    ensures { Told file.now system fan ends.old ends.new result }
{
    tell(fan_worths::weigh_file(file, system, fan), ends)
}

// What the C program calls for the gain of a spare with survival number p in the place of a fan:
// `uint64_t foambeetle_gain(const uint8_t *file, size_t length, uint64_t system, uint64_t fan, uint64_t p,
// int64_t ends[2])`.
pub fn foambeetle_gain(file: &[u8], system: u64, fan: u64, p: u64, ends: &mut [i64; 2]) -> u64
    ensures { Gained file.now system fan p ends.old ends.new result }
{
    tell(fan_gains::weigh_file(file, system, Spare { fan, p }), ends)
}
