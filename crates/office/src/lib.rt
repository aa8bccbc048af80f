// The office's calls for its C programs: the deck file's writer; a deck's chances as doubles, exactly or between the
// nearest two; a rating asked in doubles.
#![tactic(auto)]

ghost use Rattle.std.specs.Prelude.{◌≡◌};
ghost use Rattle.rules.specs.State.{rule_of};
ghost use Rattle.rules.specs.Writing.{typed_of};
ghost use Rattle.rules.specs.Doubles.{planned_of};
ghost use Rattle.doubles.specs.Floats.{bits_of};
ghost use Rattle.office.specs.Outcome.{packed_writing, Packable, Filed, number_of, ends_after, Told, Answered};
ghost use Rattle.office.specs.Outcome.{Bounded};

use export::Chance;
use rules::{Rule, Writing};

// An answer as one number: the length, or a refusal packed as the rating's.
fn pack(writing: Writing) -> u64
    requires { Packable writing }
    ensures { result ≡ packed_writing writing }
{
    match writing {
        Writing::Written(length) => length,
        Writing::Refused(number) => packing::refused(number),
    }
}

// What the C program calls: `uint64_t foambeetle_write(uint64_t version, const uint32_t *survival, size_t n, const
// uint16_t *weights, size_t w, const uint8_t *boards, size_t b, const uint32_t *switchboards, size_t g, const uint16_t
// *systems, size_t s, uint8_t *room, size_t length)`.
pub fn foambeetle_write(
    version: u64,
    survival: &[u32],
    weights: &[u16],
    boards: &[u8],
    switchboards: &[u32],
    systems: &[u16],
    room: &mut [u8],
) -> u64
    ensures { Filed (typed_of version survival.now weights.now boards.now
        switchboards.now systems.now) room.old room.new result }
{
    pack(writer::write_deck(
        version,
        survival,
        weights,
        boards,
        switchboards,
        systems,
        room,
    ))
}

// A chance as C gets it: 0 and both ends, or the refusal and the ends as they were.
fn tell(chance: Chance, ends: &mut [f64; 2]) -> u64
    ensures number { result ≡ number_of chance }
    ensures ends { ends.new ≡ ends_after chance ends.old }
{
    match chance {
        Chance::Range(e) => {
            *ends = [e.low, e.high];
            0
        }
        Chance::Refused(number) => number,
    }
}

// What the C program calls for a deck's chances:
// `uint64_t foambeetle_chance(const uint8_t *file, size_t length, uint64_t system, double ends[2])`.
pub fn foambeetle_chance(file: &[u8], system: u64, ends: &mut [f64; 2]) -> u64
    ensures { Told file.now system ends.old ends.new result }
{
    tell(export::chance_of(file, system), ends)
}

// What the C program calls for the chances of a deck of any version:
// `uint64_t foambeetle_chance_between(const uint8_t *file, size_t length, uint64_t system, double ends[2])`.
pub fn foambeetle_chance_between(file: &[u8], system: u64, ends: &mut [f64; 2]) -> u64
    ensures { Bounded file.now system ends.old ends.new result }
{
    tell(between::chance_between(file, system), ends)
}

// What the C program calls for a rating asked in doubles: `uint64_t foambeetle_rate_doubles(uint64_t kind, uint64_t
// first, uint64_t second, const uint64_t *more, size_t pairs, uint64_t a, uint64_t b, const double *survival, size_t n,
// const uint16_t *weights, size_t weighed)`.
pub fn foambeetle_rate_doubles(
    kind: u64,
    first: u64,
    second: u64,
    more: &[u64],
    a: u64,
    b: u64,
    survival: &[f64],
    weights: &[u16],
) -> u64
    ensures { Answered (planned_of (rule_of kind first second) a b (bits_of survival.now)
        weights.now more.now) result }
{
    let rule = Rule {
        kind,
        first,
        second,
    };
    packing::pack(planning::answer(rule, a, b, survival, weights, more))
}
