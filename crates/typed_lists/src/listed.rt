// The systems that a text lists, as numbers.
ghost use Rattle.std.specs.Prelude.{◌*◌, ◌<◌, ◌≤◌, ◌≡◌, []};
ghost use Rattle.rules.specs.File.{most_systems, per_system};
ghost use Rattle.grammar.specs.Reads.{Within};
ghost use Rattle.typed_lists.specs.Lists.{Ruled, MoreSystems, typed_at, TypedNumbers};

use grammar::line::SETS;
use rules::limit;

// Of a listed system kind, first, second, a, b and whether a stretch was given; of a typed one the first five.
const PER_LISTED: usize = 6;

const LISTED: usize = PER_LISTED * limit::SYSTEMS;

const A: usize = 3;

const B: usize = 4;

const GIVEN: usize = 5;

pub const PER_SYSTEM: usize = 5;

pub const NUMBERS: usize = PER_SYSTEM * limit::SYSTEMS;

// So many systems, from the numbers' front.
#[derive(Clone, Copy)]
pub struct Systems {
    pub count: usize,
    pub numbers: [u16; LISTED],
}

// Those of an empty text.
pub fn no_systems() -> Systems
    ensures { Ruled result [] }
{
    let numbers = [0u16; LISTED];
    Systems { count: 0, numbers }
}

// One system more, by what its line has set: the systems then.
pub fn plus(systems: Systems, set: [u64; SETS]) -> Systems
    requires { (systems.count < most_systems) × Within set }
    ensures { MoreSystems systems result set }
{
    let at = systems.count * PER_LISTED;
    let mut numbers = systems.numbers;
    for k in 0..PER_LISTED {
        numbers[at + k] = set[k] as u16;
    }
    Systems {
        count: systems.count + 1,
        numbers,
    }
}

// The number at place j of those that are typed; where no stretch was given it is the whole deck's.
fn number_at(listed: &[u16; LISTED], j: usize, fans: u16) -> u16
    requires { j < most_systems * per_system }
    ensures { result ≡ typed_at fans listed.now j }
{
    let from = j / PER_SYSTEM * PER_LISTED;
    let k = j % PER_SYSTEM;
    if listed[from + GIVEN] != 0 {
        return listed[from + k];
    }
    if k == A {
        return 1;
    }
    if k == B {
        return fans;
    }
    listed[from + k]
}

// The numbers of all systems of a deck of so many fans, for the writer.
pub fn numbers(systems: Systems, fans: u16) -> [u16; NUMBERS]
    requires { systems.count ≤ most_systems }
    ensures { TypedNumbers fans systems result }
{
    let listed = systems.numbers;
    let mut all = [0u16; NUMBERS];
    for j in 0..systems.count * PER_SYSTEM {
        all[j] = number_at(&listed, j, fans);
    }
    all
}
